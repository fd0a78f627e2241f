//! The places of names: which sections use them, and which define them.
ghost use Rattle.std.specs.Prelude.{◌≡◌, ◌<◌, ◌==◌, ◌&&◌, Some, length, not, slice_get};
ghost use Rattle.std.specs.List.{list_any};
ghost use Rattle.cw_index.specs.Mentions.{has_sections, is_ident};
ghost use Rattle.cw_names.specs.Names.{Entry};
ghost use Rattle.cw_mini.specs.Mini.{defining};
ghost use Rattle.cw_mini.specs.model.RowForms.{is_listed_by, may_be_listed};

use cw_names::{EntryKind, NameId, Names, SectionRef, Xrefs};

/// Names, and where they occur. A mark is an underlined occurrence.
#[derive(Clone, Copy)]
pub(crate) struct Places<'a> {
    pub names: &'a Names,
    pub occurrences: &'a Xrefs,
}

impl<'a> Places<'a> {
    /// Whether sections that use a name list it: it is an identifier and no built-in word, and some section defines it.
    pub(crate) fn may_be_listed(&self, id: NameId) -> bool
        requires { id.index < length self.now.names.now }
        ensures { (entry : Entry) → slice_get self.now.names.now id.index ≡ Some entry
            → result ≡ may_be_listed self.now id entry }
    {
        is_ident(self.names.kind(id))
            && !self.names.is_built_in(id)
            && is_defined(self.occurrences.sections_of(id))
    }

    /// Whether a section lists a name.
    pub(crate) fn lists(&self, section: u32, id: NameId) -> bool
        requires { id.index < length self.now.names.now }
        ensures { (entry : Entry) → slice_get self.now.names.now id.index ≡ Some entry
            → result ≡ is_listed_by self.now section id entry }
    {
        if !self.may_be_listed(id) {
            return false;
        }
        is_used(section, self.occurrences.sections_of(id))
    }
}

fn is_ident(kind: EntryKind) -> bool
    ensures { result ≡ is_ident kind }
{
    matches!(kind, EntryKind::Ident)
}

// Whether any of these sections defines the name.
fn is_defined(sections: &[SectionRef]) -> bool
    ensures { result ≡ has_sections (defining sections.now) }
{
    for place in sections {
        if place.underlined {
            return true;
        }
    }
    false
}

/// Whether a name is used at a place: where it is underlined, it is defined there.
pub(crate) fn is_use(place: SectionRef) -> bool
    ensures { result ≡ not place.underlined }
{
    !place.underlined
}

// Whether a section uses a name without defining it.
fn is_used(section: u32, sections: &[SectionRef]) -> bool
    ensures { result ≡ list_any (λ m. m.section == section && not m.underlined) sections.now }
{
    for place in sections {
        if place.section == section && is_use(*place) {
            return true;
        }
    }
    false
}
