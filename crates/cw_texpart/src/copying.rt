//! The copying of a web's text: line by line, but not each line's end.
ghost use Rattle.std.specs.Prelude.{◌≡◌, ◌==◌, ◌<◌, ◌≤◌, ◌||◌, [], ◌∷◌, length, slice_index, take};
ghost use Rattle.cw_lines.specs.model.Line.{HasNoLineEnd};
ghost use Rattle.cw_lines.specs.Sheets.{CanPrint, Prints};
ghost use Rattle.cw_press.specs.Inks.{bytes_of, copied, end_if, ends_empty_line, ink_by};
ghost use Rattle.cw_texpart.specs.model.Laying.{holds_bytes, inked};

use cw_base::Span;
use cw_desk::Desk;
use cw_lines::{LineOut, PutError, Sheet};
use memchr::memchr;

/// Copies the bytes of a span of the web's text, as far as they are there.
pub(crate) fn copy<D: Desk>(text: &[u8], span: Span, sheet: &mut Sheet<D>) -> Result<(), PutError>
    requires can { CanPrint D.told sheet.old }
    ensures { Prints D.told
        (inked (holds_bytes sheet.old.line.now) (copied text.now span.start (bytes_of text.now span)))
        sheet.old sheet.new result }
{
    let end = span.end.min(text.len());
    let mut at = span.start;
    while at < end {
        let stop = at + line_size(&text[at..end]);
        sheet.put_all(&text[at..stop])?;
        if stop == end {
            return Ok(());
        }
        copy_byte(text, stop, sheet)?;
        at = stop + 1;
    }
    Ok(())
}

// How many bytes come before the first line's end.
fn line_size(bytes: &[u8]) -> usize
    ensures within { result ≤ length bytes.now }
    ensures none { HasNoLineEnd (take result bytes.now) }
{
    match memchr(b'\n', bytes) {
        Some(size) => size,
        None => bytes.len(),
    }
}

// Copies one byte. A line's end is printed where the line of the book holds bytes, or where its line of the web is
// empty.
fn copy_byte<D: Desk>(text: &[u8], place: usize, sheet: &mut Sheet<D>) -> Result<(), PutError>
    requires within { place < length text.now }
    requires can { CanPrint D.told sheet.old }
    ensures { Prints D.told (inked (holds_bytes sheet.old.line.now)
        (ink_by (slice_index text.now place == 10) text.now place (slice_index text.now place) ∷ []))
        sheet.old sheet.new result }
{
    let byte = text[place];
    if byte == b'\n' {
        let ends = ends_line(text, place, sheet.line);
        return end_line_if(ends, sheet);
    }
    sheet.put(byte)
}

// Whether the line's end at a place of the web's text is printed.
fn ends_line(text: &[u8], place: usize, out: &LineOut) -> bool
    requires { place < length text.now }
    ensures { result ≡ (holds_bytes out.now || ends_empty_line text.now place) }
{
    holds_bytes(out) || ends_empty_line(text, place)
}

// Whether the line of the book holds bytes.
pub(crate) fn holds_bytes(out: &LineOut) -> bool
    ensures { result ≡ holds_bytes out.now }
{
    !out.is_empty()
}

/// Ends the line of the book, or leaves it as it is.
pub(crate) fn end_line_if<D: Desk>(ends: bool, sheet: &mut Sheet<D>) -> Result<(), PutError>
    requires can { CanPrint D.told sheet.old }
    ensures { Prints D.told (end_if ends) sheet.old sheet.new result }
{
    if ends {
        return sheet.end_line();
    }
    Ok(())
}

// Whether the line of the web that ends at this place is empty.
fn ends_empty_line(text: &[u8], place: usize) -> bool
    requires { place < length text.now }
    ensures { result ≡ ends_empty_line text.now place }
{
    place == 0 || text[place - 1] == b'\n'
}
