//! The index, as it is printed.
ghost use Rattle.std.specs.Prelude.{◌≡◌, ◌<◌, [], ◌∷◌, All, IfOk, length, map, true};
ghost use Rattle.std.specs.List.{flat_map};
ghost use Rattle.cw_join.specs.Tokens.{is_tex_like, word_at};
ghost use Rattle.cw_lines.specs.Sheets.{CanPrint, Prints};
ghost use Rattle.cw_lines.specs.Writes.{CanWrite, Puts};
ghost use Rattle.cw_print.specs.Escaping.{braced};
ghost use Rattle.cw_print.specs.Sources.{is_changed};
ghost use Rattle.cw_print.specs.Walk.{section_number};
ghost use Rattle.cw_table.specs.Sound.{is_exp};
ghost use Rattle.cw_trees.specs.Printing.{reserved_bytes};
ghost use Rattle.cw_index.specs.model.Headings.{IsNamed, entry_of, row_of};
ghost use Rattle.cw_index.specs.Index.{entry_bytes, formula, index_bytes, number_bytes, row_bytes, section_bytes};
ghost use Rattle.cw_index.specs.Index.{word_bytes};
ghost use Rattle.cw_index.specs.Mentions.{listed};

use crate::heading::Heading;
use crate::headings::headings;
use cw_base::{Cat, Web};
use cw_desk::Desk;
use cw_join::{put_ident_of, put_reserved_of};
use cw_lines::{LineOut, PutError, Sheet};
use cw_names::{EntryKind, NameId, Names, SectionRef};
use cw_phase1::Book;
use cw_press::{Counts, put_number};
use cw_print::is_changed;
use std::alloc::Global;
use std::collections::BTreeSet;

// Puts a name between the dollars of a formula.
fn put_formula<D: Desk>(names: &Names, id: NameId, sheet: &mut Sheet<D>) -> Result<(), PutError>
    requires can { CanPrint D.told sheet.old }
    requires name { id.index < length names.now }
    ensures { Prints D.told (formula (word_at reserved_bytes names.now id.index)) sheet.old sheet.new result }
{
    sheet.put_all(b"$")?;
    put_reserved_of(names, id, sheet)?;
    sheet.put_all(b"$")
}

/// Whether a name is printed as a formula.
pub fn is_tex_like(category: Cat) -> bool
    ensures { result ≡ is_tex_like category }
{
    matches!(category, Cat::TexLike)
}

/// Whether a name is an ordinary identifier.
pub fn is_exp(category: Cat) -> bool
    ensures { result ≡ is_exp category }
{
    matches!(category, Cat::Exp)
}

// Puts an identifier by its category.
fn put_word<D: Desk>(names: &Names, heading: &Heading, sheet: &mut Sheet<D>) -> Result<(), PutError>
    requires can { CanPrint D.told sheet.old }
    requires name { IsNamed names.now heading.now }
    ensures { Prints D.told (word_bytes heading.now.category heading.now.collated.text.now) sheet.old sheet.new result }
{
    if is_tex_like(heading.category) {
        return put_formula(names, heading.id, sheet);
    }
    if is_exp(heading.category) {
        return put_ident_of(names, heading.id, sheet);
    }
    put_reserved_of(names, heading.id, sheet)
}

// Puts a text in braces, behind a macro.
fn put_braced<D: Desk>(name: &[u8], text: &[u8], sheet: &mut Sheet<D>) -> Result<(), PutError>
    requires can { CanPrint D.told sheet.old }
    ensures { Prints D.told (braced name.now text.now) sheet.old sheet.new result }
{
    sheet.put_all(name)?;
    sheet.put_all(b"{")?;
    sheet.put_all(text)?;
    sheet.put_all(b"}")
}

// Puts the name of a heading.
fn put_entry<D: Desk>(
    names: &Names,
    heading: &Heading,
    sheet: &mut Sheet<D>,
) -> Result<(), PutError>
    requires can { CanPrint D.told sheet.old }
    requires name { IsNamed names.now heading.now }
    ensures { Prints D.told (entry_bytes (entry_of heading.now)) sheet.old sheet.new result }
{
    let text = heading.collated.text;
    match heading.collated.kind {
        EntryKind::Ident => put_word(names, heading, sheet),
        EntryKind::Roman => put_braced(b"", text, sheet),
        EntryKind::Typewriter => put_braced(b"\\.", text, sheet),
        EntryKind::User => put_braced(b"\\9", text, sheet),
    }
}

// Puts the number of a section.
fn put_section_number<D: Desk>(
    book: &Book,
    number: u32,
    sheet: &mut Sheet<D>,
) -> Result<(), PutError>
    requires can { CanPrint D.told sheet.old }
    ensures { Prints D.told (section_number number (is_changed book.now.outline.sections number))
        sheet.old sheet.new result }
{
    put_number(number, is_changed(book, number), sheet)
}

// Puts the number of a section in which a name is underlined.
fn put_underlined<D: Desk>(book: &Book, number: u32, sheet: &mut Sheet<D>) -> Result<(), PutError>
    requires can { CanPrint D.told sheet.old }
    ensures { Prints D.told
        (number_bytes true (section_number number (is_changed book.now.outline.sections number)))
        sheet.old sheet.new result }
{
    sheet.put_all(b"\\[")?;
    put_section_number(book, number, sheet)?;
    sheet.put_all(b"]")
}

// Puts the number of a section, as it is underlined.
fn put_reference<D: Desk>(
    book: &Book,
    section: SectionRef,
    sheet: &mut Sheet<D>,
) -> Result<(), PutError>
    requires can { CanPrint D.told sheet.old }
    ensures { Prints D.told (number_bytes section.underlined
        (section_number section.section (is_changed book.now.outline.sections section.section)))
        sheet.old sheet.new result }
{
    if section.underlined {
        return put_underlined(book, section.section, sheet);
    }
    put_section_number(book, section.section, sheet)
}

// Puts a section behind a comma.
fn put_listed<D: Desk>(
    book: &Book,
    section: SectionRef,
    sheet: &mut Sheet<D>,
) -> Result<(), PutError>
    requires can { CanPrint D.told sheet.old }
    ensures { Prints D.told (section_bytes book.now.outline.sections section) sheet.old sheet.new result }
{
    sheet.put_all(b", ")?;
    put_reference(book, section, sheet)
}

// Puts a section, if it is listed.
fn put_section<D: Desk>(
    book: &Book,
    heading: &Heading,
    section: SectionRef,
    sheet: &mut Sheet<D>,
) -> Result<(), PutError>
    requires can { CanPrint D.told sheet.old }
    ensures { Prints D.told
        (flat_map (section_bytes book.now.outline.sections) (listed heading.now.underlined_only (section ∷ [])))
        sheet.old sheet.new result }
{
    if heading.lists(section) {
        return put_listed(book, section, sheet);
    }
    Ok(())
}

// Puts the sections that are listed.
fn put_sections<D: Desk>(
    book: &Book,
    heading: &Heading,
    sheet: &mut Sheet<D>,
) -> Result<(), PutError>
    requires can { CanPrint D.told sheet.old }
    ensures { Prints D.told (flat_map (section_bytes book.now.outline.sections) (row_of heading.now).sections)
        sheet.old sheet.new result }
{
    for section in heading.sections {
        put_section(book, heading, *section, sheet)?;
    }
    Ok(())
}

// Puts the line of a heading.
fn put_heading<D: Desk>(
    book: &Book,
    heading: &Heading,
    sheet: &mut Sheet<D>,
) -> Result<(), PutError>
    requires can { CanPrint D.told sheet.old }
    requires name { IsNamed book.now.names heading.now }
    ensures { Prints D.told (row_bytes book.now.outline.sections (row_of heading.now)) sheet.old sheet.new result }
{
    sheet.put_all(b"\\I")?;
    put_entry(&book.names, heading, sheet)?;
    put_sections(book, heading, sheet)?;
    sheet.put_all(b".\n")
}

// Puts the lines of headings.
fn put_headings<D: Desk>(
    book: &Book,
    headings: BTreeSet<Heading>,
    sheet: &mut Sheet<D>,
) -> Result<(), PutError>
    requires can { CanPrint D.told sheet.old }
    requires named { All (IsNamed book.now.names) headings.keys }
    ensures { Prints D.told (flat_map (row_bytes book.now.outline.sections) (map row_of headings.entry.keys))
        sheet.old sheet.new result }
{
    for heading in headings {
        put_heading(book, &heading, sheet)?;
    }
    Ok(())
}

/// Prints the index. It translates nothing.
pub fn write_index<D: Desk>(
    alloc: Global,
    web: &Web,
    book: &Book,
    out: &mut LineOut,
    desk: &mut D,
) -> Result<Counts, PutError>
    requires can { CanWrite (D.told desk.old) out.old }
    ensures puts { Puts (index_bytes book.now.outline.sections book.now.names book.now.xrefs) out.old out.new
        (D.told desk.old) (D.told desk.new) result }
    ensures scraps { IfOk result (λ counts. counts.scraps ≡ 0) }
    ensures productions { IfOk result (λ counts. counts.productions ≡ 0) }
{
    let _ = web;
    let mut sheet = Sheet { line: out, desk };
    print_index(alloc, book, &mut sheet)
}

// Prints the same on a sheet.
fn print_index<D: Desk>(
    alloc: Global,
    book: &Book,
    sheet: &mut Sheet<D>,
) -> Result<Counts, PutError>
    requires can { CanPrint D.told sheet.old }
    ensures prints { Prints D.told (index_bytes book.now.outline.sections book.now.names book.now.xrefs)
        sheet.old sheet.new result }
    ensures scraps { IfOk result (λ counts. counts.scraps ≡ 0) }
    ensures productions { IfOk result (λ counts. counts.productions ≡ 0) }
{
    let headings = headings(alloc, &book.names, &book.xrefs)?;
    put_headings(book, headings, sheet)?;
    Ok(Counts::none())
}
