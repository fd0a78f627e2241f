//! The heads of sections.
ghost use Rattle.std.specs.Prelude.{◌≡◌, ◌++◌, true, IfOk, codes};
ghost use Rattle.cw_lines.specs.Sheets.{CanPrint, Prints};
ghost use Rattle.cw_print.specs.Walk.{section_number};
ghost use Rattle.cw_texpart.specs.Heads.{depth_bytes, drop_zeros, head, head_by, printed_depth, raised_depth};
ghost use Rattle.cw_texpart.specs.Heads.{successor};

use cw_base::{Bytes, Memory};
use cw_desk::Desk;
use cw_lines::{PutError, Sheet};
use cw_phase1::{Depth, Section};
use cw_press::{part_of, put_number};
use std::alloc::Global;

/// What the head of a section is made of: the web's text, and the section with its number. With `ranged` its depth is
/// as the macros count it.
#[derive(Clone, Copy)]
pub(crate) struct Head<'a> {
    pub(crate) alloc: Global,
    pub(crate) text: &'a [u8],
    pub(crate) section: &'a Section,
    pub(crate) number: u32,
    pub(crate) ranged: bool,
}

/// Puts the head of a section.
pub(crate) fn put_head<D: Desk>(h: Head, sheet: &mut Sheet<D>) -> Result<(), PutError>
    requires can { CanPrint D.told sheet.old }
    ensures { Prints D.told (head h.entry.ranged h.entry.text.now h.entry.number h.entry.section.now)
        sheet.old sheet.new result }
{
    if h.section.starred {
        return put_deep(h, sheet);
    }
    put_plain(h.number, h.section.changed, sheet)
}

// Puts the head of a starred section with its depth as it is printed.
fn put_deep<D: Desk>(h: Head, sheet: &mut Sheet<D>) -> Result<(), PutError>
    requires can { CanPrint D.told sheet.old }
    ensures { Prints D.told (head_by true (printed_depth h.entry.ranged h.entry.text.now h.entry.section.now.depth)
        (section_number h.entry.number h.entry.section.now.changed)) sheet.old sheet.new result }
{
    if h.ranged {
        let depth = raised_depth(h)?;
        return put_starred(depth.as_slice(), h.number, h.section.changed, sheet);
    }
    let depth = depth_of(h.text, h.section.depth);
    put_starred(depth, h.number, h.section.changed, sheet)
}

// The depth of a section in digits, as the macros count it.
fn raised_depth(h: Head) -> Result<Bytes, Memory>
    ensures { IfOk result (λ digits. digits ≡ raised_depth h.entry.text.now h.entry.section.now.depth) }
{
    match h.section.depth {
        Depth::Minus => Bytes::from_slice(h.alloc, b"0"),
        Depth::Zero => Bytes::from_slice(h.alloc, b"1"),
        Depth::Digits(span) => successor(h.alloc, without_zeros(part_of(h.text, span))),
    }
}

// The digits of the number that is one higher.
fn successor(alloc: Global, number: &[u8]) -> Result<Bytes, Memory>
    ensures { IfOk result (λ digits. digits ≡ successor number.now) }
{
    let mut digits = Vec::from_slice(alloc, number)?;
    let mut at = digits.len();
    while at > 0 {
        at -= 1;
        if digits[at] < b'9' {
            digits[at] += 1;
            return Ok(Bytes::from_vec(digits));
        }
        digits[at] = b'0';
    }
    let mut longer = Bytes::from_slice(alloc, b"1")?;
    longer.append(digits.as_slice())?;
    Ok(longer)
}

// Puts the head of a section that isn't starred.
fn put_plain<D: Desk>(number: u32, changed: bool, sheet: &mut Sheet<D>) -> Result<(), PutError>
    requires can { CanPrint D.told sheet.old }
    ensures { Prints D.told (codes "\\M{" ++ section_number number changed ++ codes "}")
        sheet.old sheet.new result }
{
    sheet.put_all(b"\\M{")?;
    put_number(number, changed, sheet)?;
    sheet.put_all(b"}")
}

// Puts the head of a starred section.
fn put_starred<D: Desk>(
    depth: &[u8],
    number: u32,
    changed: bool,
    sheet: &mut Sheet<D>,
) -> Result<(), PutError>
    requires can { CanPrint D.told sheet.old }
    ensures { Prints D.told (codes "\\N{" ++ depth.now ++ codes "}{" ++ section_number number changed ++ codes "}")
        sheet.old sheet.new result }
{
    sheet.put_all(b"\\N{")?;
    sheet.put_all(depth)?;
    sheet.put_all(b"}{")?;
    put_number(number, changed, sheet)?;
    sheet.put_all(b"}")
}

// The depth of a section in digits.
fn depth_of(text: &[u8], depth: Depth) -> &[u8]
    ensures { result.now ≡ depth_bytes text.now depth }
{
    match depth {
        Depth::Minus => b"-1",
        Depth::Zero => b"0",
        Depth::Digits(span) => without_zeros(part_of(text, span)),
    }
}

// Digits without the zeros before the last one or before another digit.
fn without_zeros(digits: &[u8]) -> &[u8]
    ensures { result.now ≡ drop_zeros digits.now }
{
    if digits.is_empty() {
        return b"0";
    }
    let mut at = 0;
    while at + 1 < digits.len() && digits[at] == b'0' {
        at += 1;
    }
    &digits[at..]
}
