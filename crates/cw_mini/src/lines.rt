//! The lines of a section, as they are made in memory.
ghost use Rattle.std.specs.Prelude.{◌≡◌, ◌<◌, ◌++◌, IfOk, OnOk, Some, codes, length, slice_get, true};
ghost use Rattle.std.specs.List.{flat_map};
ghost use Rattle.cw_index.specs.Mentions.{is_ident, row};
ghost use Rattle.cw_names.specs.Names.{Entry};
ghost use Rattle.cw_print.specs.Sources.{is_changed};
ghost use Rattle.cw_print.specs.Walk.{section_number};
ghost use Rattle.cw_mini.specs.Mini.{defining, section_rows};
ghost use Rattle.cw_mini.specs.MiniFile.{defining_bytes, row_line, section_lines};
ghost use Rattle.cw_mini.specs.model.RowForms.{positions, row_names};

use crate::names::append_word;
use cw_base::{Bytes, Memory};
use cw_names::{NameId, SectionRef};
use cw_phase1::Book;
use cw_print::is_changed;
use cw_run::append_number;
use std::alloc::Global;

/// The lines of the section of this number, which lists these names.
pub(crate) fn section_lines(
    alloc: Global,
    book: &Book,
    section: u32,
    names: &[NameId],
) -> Result<Bytes, Memory>
    requires { positions names.now ≡ row_names (section_rows section book.now.names book.now.xrefs) }
    ensures { IfOk result (λ lines. lines ≡ section_lines book.now section) }
{
    let mut lines = Bytes::from_slice(alloc, b"section ")?;
    append_number(&mut lines, u64::from(section))?;
    lines.push(b'\n')?;
    for id in names {
        append_row(book, *id, &mut lines)?;
    }
    Ok(lines)
}

// Appends the line of an identifier: as it stands in C text, with the sections that define it.
fn append_row(book: &Book, id: NameId, lines: &mut Bytes) -> Result<(), Memory>
    requires { id.index < length book.now.names }
    ensures { (entry : Entry) → slice_get book.now.names id.index ≡ Some entry → is_ident entry.kind ≡ true
        → OnOk result
        (lines.new ≡ lines.old ++ row_line book.now.outline.sections (row id.index entry book.now.xrefs)) }
{
    append_word(&book.names, id, lines)?;
    append_defining(book, book.xrefs.sections_of(id), lines)?;
    lines.append(b".\n")
}

// Appends the sections that define a name.
fn append_defining(book: &Book, sections: &[SectionRef], lines: &mut Bytes) -> Result<(), Memory>
    ensures { OnOk result (lines.new ≡ lines.old
        ++ flat_map (defining_bytes book.now.outline.sections) (defining sections.now)) }
{
    for place in sections {
        if place.underlined {
            append_section(book, place.section, lines)?;
        }
    }
    Ok(())
}

// Appends the number of a section behind a comma, and `\*` behind it where the section holds a changed line.
fn append_section(book: &Book, section: u32, lines: &mut Bytes) -> Result<(), Memory>
    ensures { OnOk result (lines.new ≡ lines.old
        ++ (codes ", " ++ section_number section (is_changed book.now.outline.sections section))) }
{
    lines.append(b", ")?;
    append_number(lines, u64::from(section))?;
    if is_changed(book, section) {
        lines.append(b"\\*")?;
    }
    Ok(())
}
