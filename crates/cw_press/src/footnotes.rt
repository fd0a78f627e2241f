//! The footnotes of section names.
ghost use Rattle.std.specs.Prelude.{◌≡◌, ℕ, ◌<◌, ◌≤◌, ◌∷◌, ◌++◌, List, Some, codes, drop, length, map};
ghost use Rattle.cw_lines.specs.Sheets.{CanPrint, Prints};
ghost use Rattle.cw_press.specs.Footnotes.{footnote, footnote_numbers, later_numbers, name_footnotes, number_in};
ghost use Rattle.cw_press.specs.Footnotes.{of_name, separator, use_footnotes};
ghost use Rattle.cw_base.specs.Conditions.{list_if};
ghost use Rattle.cw_print.specs.Sources.{defines_first};

use crate::numbers::put_number;
use cw_desk::Desk;
use cw_lines::{PutError, Sheet};
use cw_phase1::Book;
use cw_print::{defines_first, is_changed};
use cw_secnames::SecId;

// Puts the number of a section of the book.
fn put_section<D: Desk>(book: &Book, number: u32, sheet: &mut Sheet<D>) -> Result<(), PutError>
    requires can { CanPrint D.told sheet.old }
    ensures { Prints D.told (number_in book.now.outline.sections number) sheet.old sheet.new result }
{
    put_number(number, is_changed(book, number), sheet)
}

// What stands before a number that these follow.
fn separator(following: &[u32]) -> &'static [u8]
    ensures { (shown : ℕ → List ℕ) → result.now ≡ separator (map shown following.now) }
{
    match following {
        [] => b"\\ETs",
        _ => b", ",
    }
}

// Puts the numbers behind the first one, where there are more than two in all.
fn put_later<D: Desk>(book: &Book, numbers: &[u32], sheet: &mut Sheet<D>) -> Result<(), PutError>
    requires can { CanPrint D.told sheet.old }
    ensures { Prints D.told (later_numbers (map (number_in book.now.outline.sections) numbers.now))
        sheet.old sheet.new result }
{
    let mut rest = numbers;
    while let [number, following @ ..] = rest {
        sheet.put_all(separator(following))?;
        put_section(book, *number, sheet)?;
        rest = following;
    }
    Ok(())
}

// Puts two numbers.
fn put_two<D: Desk>(book: &Book, one: u32, two: u32, sheet: &mut Sheet<D>) -> Result<(), PutError>
    requires can { CanPrint D.told sheet.old }
    ensures { Prints D.told (codes "s" ++ number_in book.now.outline.sections one ++ codes "\\ET"
        ++ number_in book.now.outline.sections two) sheet.old sheet.new result }
{
    sheet.put_all(b"s")?;
    put_section(book, one, sheet)?;
    sheet.put_all(b"\\ET")?;
    put_section(book, two, sheet)
}

// Puts a number and those behind it, at least two.
fn put_several<D: Desk>(
    book: &Book,
    one: u32,
    later: &[u32],
    sheet: &mut Sheet<D>,
) -> Result<(), PutError>
    requires can { CanPrint D.told sheet.old }
    requires several { 2 ≤ length later.now }
    ensures { Prints D.told (footnote_numbers (map (number_in book.now.outline.sections) (one ∷ later.now)))
        sheet.old sheet.new result }
{
    sheet.put_all(b"s")?;
    put_section(book, one, sheet)?;
    put_later(book, later, sheet)
}

// Puts the numbers of a footnote.
fn put_numbers<D: Desk>(book: &Book, numbers: &[u32], sheet: &mut Sheet<D>) -> Result<(), PutError>
    requires can { CanPrint D.told sheet.old }
    ensures { Prints D.told (footnote_numbers (map (number_in book.now.outline.sections) numbers.now))
        sheet.old sheet.new result }
{
    match numbers {
        [] => Ok(()),
        [one] => put_section(book, *one, sheet),
        [one, two] => put_two(book, *one, *two, sheet),
        [one, later @ ..] => put_several(book, *one, later, sheet),
    }
}

// Puts a footnote, where there is a section to be listed.
fn put_footnote<D: Desk>(
    book: &Book,
    letter: &[u8],
    numbers: &[u32],
    sheet: &mut Sheet<D>,
) -> Result<(), PutError>
    requires can { CanPrint D.told sheet.old }
    ensures { Prints D.told (footnote book.now.outline.sections letter.now numbers.now) sheet.old sheet.new result }
{
    if numbers.is_empty() {
        return Ok(());
    }
    sheet.put_all(letter)?;
    put_numbers(book, numbers, sheet)?;
    sheet.put_all(b".\n")
}

/// Puts the footnotes with the sections that cite and use the section name with this id, where the book keeps one.
pub fn put_use_footnotes<D: Desk>(
    book: &Book,
    id: SecId,
    sheet: &mut Sheet<D>,
) -> Result<(), PutError>
    requires can { CanPrint D.told sheet.old }
    ensures { Prints D.told (of_name (use_footnotes book.now.outline.sections) book.now.sec_names (Some id))
        sheet.old sheet.new result }
{
    if id.index >= book.sec_names.len() {
        return Ok(());
    }
    put_footnote(book, b"\\Q", book.sec_names.cited_in(id), sheet)?;
    put_footnote(book, b"\\U", book.sec_names.used_in(id), sheet)
}

// The sections of a list behind the first.
fn behind_first(sections: &[u32]) -> &[u32]
    ensures { result.now ≡ drop 1 sections.now }
{
    match sections {
        [] => sections,
        [_, others @ ..] => others,
    }
}

// Puts all footnotes of a section name.
fn put_name_footnotes<D: Desk>(book: &Book, id: SecId, sheet: &mut Sheet<D>) -> Result<(), PutError>
    requires can { CanPrint D.told sheet.old }
    requires kept { id.index < length book.now.sec_names }
    ensures { Prints D.told (of_name (name_footnotes book.now.outline.sections) book.now.sec_names (Some id))
        sheet.old sheet.new result }
{
    let others = behind_first(book.sec_names.defined_in(id));
    put_footnote(book, b"\\A", others, sheet)?;
    put_use_footnotes(book, id, sheet)
}

/// Puts the footnotes of a section that defines this name, or none: they stand in the first of those sections.
pub fn put_footnotes<D: Desk>(
    book: &Book,
    name: Option<SecId>,
    number: u32,
    sheet: &mut Sheet<D>,
) -> Result<(), PutError>
    requires can { CanPrint D.told sheet.old }
    ensures { Prints D.told (list_if (defines_first book.now.sec_names name number)
        (of_name (name_footnotes book.now.outline.sections) book.now.sec_names name)) sheet.old sheet.new result }
{
    match name {
        None => Ok(()),
        Some(id) => {
            if defines_first(book, id, number) {
                return put_name_footnotes(book, id, sheet);
            }
            Ok(())
        }
    }
}
