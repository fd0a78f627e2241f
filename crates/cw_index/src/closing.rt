//! The lines with which the TeX file of a book closes.
ghost use Rattle.std.specs.Prelude.{◌≡◌, ◌&&◌, [], IfOk, codes, if◌then◌else◌};
ghost use Rattle.std.specs.List.{list_any};
ghost use Rattle.cw_lines.specs.Sheets.{CanPrint, Prints};
ghost use Rattle.cw_index.specs.Closing.{before_change, change, changed_from, changes_line, printed_changes};
ghost use Rattle.cw_index.specs.Closing.{closing_lines, last_lines};

use cw_base::Flags;
use cw_desk::Desk;
use cw_lines::{PutError, Sheet};
use cw_phase1::Book;
use cw_press::{Counts, put_number};

// Whether a section is starred.
fn has_starred(book: &Book) -> bool
    ensures { result ≡ list_any (λ section. section.starred) book.now.outline.sections }
{
    for before in 0..book.section_count() {
        if book.section(before + 1).starred {
            return true;
        }
    }
    false
}

fn closing_bytes(index: bool, starred: bool) -> &'static [u8]
    ensures { result.now ≡ last_lines index starred }
{
    if !index {
        return b"\\end\n";
    }
    if starred {
        b"\\inx\n\\fin\n\\con\n"
    } else {
        b"\\inx\n\\fin\n\\end\n"
    }
}

// What stands before the first changed section, and before each other.
fn before_change(first: bool) -> &'static [u8]
    ensures { result.now ≡ before_change first }
{
    if first { b"\\ch " } else { b", " }
}

// What ends the line of changed sections, which is left out where there is none.
fn behind_changes(none: bool) -> &'static [u8]
    ensures { result.now ≡ (if none then [] else codes ".\n") }
{
    if none { b"" } else { b".\n" }
}

// Puts the number of a changed section, and what stands before it.
fn put_change<D: Desk>(first: bool, number: u32, sheet: &mut Sheet<D>) -> Result<(), PutError>
    requires can { CanPrint D.told sheet.old }
    ensures { Prints D.told (change first number) sheet.old sheet.new result }
{
    sheet.put_all(before_change(first))?;
    put_number(number, true, sheet)
}

// Puts a line with the numbers of the changed sections, where there is one.
fn put_changes<D: Desk>(book: &Book, sheet: &mut Sheet<D>) -> Result<(), PutError>
    requires can { CanPrint D.told sheet.old }
    ensures { Prints D.told (printed_changes (changed_from 1 book.now.outline.sections)) sheet.old sheet.new result }
{
    let mut first = true;
    for before in 0..book.section_count() {
        if book.section(before + 1).changed {
            put_change(first, before + 1, sheet)?;
            first = false;
        }
    }
    sheet.put_all(behind_changes(first))
}

// Whether the changed sections are listed: with flag r, before the index.
fn lists_changes(flags: &Flags) -> bool
    ensures { result ≡ (flags.now.ranged && flags.now.index) }
{
    flags.ranged && flags.index
}

// Puts the line of changed sections where it is asked for.
fn put_changes_if<D: Desk>(book: &Book, flags: &Flags, sheet: &mut Sheet<D>) -> Result<(), PutError>
    requires can { CanPrint D.told sheet.old }
    ensures { Prints D.told (changes_line flags.now book.now.outline.sections) sheet.old sheet.new result }
{
    if lists_changes(flags) {
        return put_changes(book, sheet);
    }
    Ok(())
}

/// Prints the lines that end the TeX file: with flag r that of the changed sections, those that read the index and the
/// section list in, where they are written, and the last one. It translates nothing.
pub fn print_closing<D: Desk>(
    book: &Book,
    flags: &Flags,
    sheet: &mut Sheet<D>,
) -> Result<Counts, PutError>
    requires can { CanPrint D.told sheet.old }
    ensures prints { Prints D.told (closing_lines flags.now book.now.outline.sections) sheet.old sheet.new result }
    ensures scraps { IfOk result (λ counts. counts.scraps ≡ 0) }
    ensures productions { IfOk result (λ counts. counts.productions ≡ 0) }
{
    put_changes_if(book, flags, sheet)?;
    let bytes = closing_bytes(flags.index, has_starred(book));
    sheet.put_all(bytes)?;
    Ok(Counts::none())
}
