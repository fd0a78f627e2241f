//! The headings of a book's index, sorted.
ghost use Rattle.std.specs.Prelude.{◌≡◌, ◌<◌, All, IfOk, List, OnOk, Some, length, map, slice_get};
ghost use Rattle.cw_names.specs.Names.{Entry};
ghost use Rattle.cw_index.specs.model.Headings.{IsNamed, entered, row_of};
ghost use Rattle.cw_index.specs.Mentions.{has_sections, index_rows, is_ident, is_listed, needs_underline, row};

use crate::collation::Collated;
use crate::heading::Heading;
use cw_base::Memory;
use cw_names::{EntryKind, NameId, Names, SectionRef, Xrefs};
use std::alloc::Global;
use std::collections::BTreeSet;

// Whether a name is listed only where it is underlined: an identifier of one byte, or a built-in word.
fn needs_underline(names: &Names, id: NameId) -> bool
    requires { id.index < length names.now }
    ensures { (entry : Entry) → slice_get names.now id.index ≡ Some entry → result ≡ needs_underline id.index entry }
{
    is_ident(names.kind(id)) && (names.is_built_in(id) || names.text(id).len() == 1)
}

fn is_ident(kind: EntryKind) -> bool
    ensures { result ≡ is_ident kind }
{
    matches!(kind, EntryKind::Ident)
}

// The heading of a name.
fn heading_of<'a>(names: &'a Names, xrefs: &'a Xrefs, id: NameId) -> Heading<'a>
    requires { id.index < length names.now }
    ensures id { result.id ≡ id }
    ensures named { IsNamed names.now result }
    ensures row { (entry : Entry) → slice_get names.now id.index ≡ Some entry
        → row_of result ≡ row id.index entry xrefs.now }
{
    let collated = Collated {
        kind: names.kind(id),
        text: names.text(id),
    };
    Heading {
        id,
        collated,
        category: names.category(id),
        sections: xrefs.sections_of(id),
        underlined_only: needs_underline(names, id),
    }
}

impl<'a> Heading<'a> {
    /// Whether a section is listed.
    pub(crate) fn lists(&self, section: SectionRef) -> bool
        ensures { result ≡ is_listed self.now.underlined_only section }
    {
        section.underlined || !self.underlined_only
    }

    // Whether any section is listed.
    fn has_sections(&self) -> bool
        ensures { result ≡ has_sections (row_of self.now).sections }
    {
        for section in self.sections {
            if self.lists(*section) {
                return true;
            }
        }
        false
    }
}

// Puts a heading that has a section at its place.
fn enter<'a>(headings: &mut BTreeSet<Heading<'a>>, heading: Heading<'a>) -> Result<(), Memory>
    ensures rows { OnOk result
        (map row_of headings.new.keys ≡ entered (row_of heading.entry) (map row_of headings.old.keys)) }
    ensures named { (names : List Entry) → All (IsNamed names) headings.old.keys → IsNamed names heading.entry
        → OnOk result (All (IsNamed names) headings.new.keys) }
{
    if heading.has_sections() {
        headings.insert(heading)?;
    }
    Ok(())
}

/// The headings of the index, in its order.
pub(crate) fn headings<'a>(
    alloc: Global,
    names: &'a Names,
    xrefs: &'a Xrefs,
) -> Result<BTreeSet<Heading<'a>>, Memory>
    ensures rows { IfOk result (λ headings. map row_of headings.keys ≡ index_rows names.now xrefs.now) }
    ensures named { IfOk result (λ headings. All (IsNamed names.now) headings.keys) }
{
    let mut headings = BTreeSet::new(alloc);
    for index in 0..names.len() {
        let heading = heading_of(names, xrefs, NameId { index });
        enter(&mut headings, heading)?;
    }
    Ok(headings)
}

/// The names of the entries of the index, in its order.
pub fn index_order(alloc: Global, names: &Names, xrefs: &Xrefs) -> Result<Vec<NameId>, Memory>
    ensures rows { IfOk result (λ order. map (λ id. id.index) order.items
        ≡ map (λ row. row.name) (index_rows names.now xrefs.now)) }
    ensures within { IfOk result (λ order. All (λ id. id.index < length names.now) order.items) }
{
    let mut order = Vec::new(alloc);
    let headings = headings(alloc, names, xrefs)?;
    for heading in headings {
        order.push(heading.id)?;
    }
    Ok(order)
}
