//! The titles of a book's section names.
ghost use Rattle.std.specs.Prelude.{◌≡◌, Some, drop, option_map};
ghost use Rattle.cw_print.specs.Sources.{defines_first, first_section, is_changed, is_file, is_first, section_of};
ghost use Rattle.cw_print.specs.Sources.{title_of_kept, titles};
ghost use Rattle.cw_print.specs.model.Titles.{title_of};

use crate::title::SectionTitle;
use cw_phase1::{Book, Section};
use cw_secnames::{SecId, SecKind};

// The section of a number, if there is one.
fn section_of(book: &Book, number: u32) -> Option<Section>
    ensures { result ≡ section_of book.now.outline.sections number }
{
    if number == 0 || number > book.section_count() {
        return None;
    }
    Some(book.section(number))
}

/// Whether the section of a number holds a changed line. There may be no such section.
pub fn is_changed(book: &Book, number: u32) -> bool
    ensures { result ≡ is_changed book.now.outline.sections number }
{
    match section_of(book, number) {
        Some(section) => section.changed,
        None => false,
    }
}

fn first_of(defined: &[u32]) -> u32
    ensures { result ≡ first_section defined.now }
{
    match defined {
        [] => 0,
        [first, ..] => *first,
    }
}

fn behind_first(defined: &[u32]) -> &[u32]
    ensures { result.now ≡ drop 1 defined.now }
{
    match defined {
        [] => &[],
        [_, later @ ..] => later,
    }
}

fn is_file(kind: SecKind) -> bool
    ensures { result ≡ is_file kind }
{
    match kind {
        SecKind::Named => false,
        SecKind::File => true,
    }
}

fn title_of_kept(book: &Book, id: SecId) -> Option<SectionTitle>
    ensures { option_map title_of result ≡ title_of_kept book.now.outline.sections book.now.sec_names (Some id.index) }
{
    if id.index >= book.sec_names.len() {
        return None;
    }
    let defined = book.sec_names.defined_in(id);
    let number = first_of(defined);
    Some(SectionTitle {
        text: book.sec_names.text(id),
        is_file: is_file(book.sec_names.kind(id)),
        number,
        is_changed: is_changed(book, number),
        later: behind_first(defined),
        book,
    })
}

/// The title of the section name at a place.
pub(crate) fn title_at(book: &Book, place: u32) -> Option<SectionTitle>
    ensures { option_map title_of result ≡ titles book.now place }
{
    match book.name_uses.at(place) {
        Some(id) => title_of_kept(book, id),
        None => None,
    }
}

/// Whether a section is the first that defines this name, where the book keeps one.
pub fn defines_first(book: &Book, id: SecId, number: u32) -> bool
    ensures { result ≡ defines_first book.now.sec_names (Some id) number }
{
    if id.index >= book.sec_names.len() {
        return false;
    }
    first_of(book.sec_names.defined_in(id)) == number
}

/// Whether a section is the first that defines its name.
pub(crate) fn is_first(book: &Book, number: u32) -> bool
    ensures { result ≡ is_first book.now number }
{
    match section_of(book, number) {
        Some(section) => match section.name {
            Some(id) => defines_first(book, id, number),
            None => false,
        },
        None => false,
    }
}
