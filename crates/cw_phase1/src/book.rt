//! The book that the first phase makes of a web.
ghost use Rattle.std.specs.Prelude.{◌≡◌, ◌<◌, ◌≤◌, ◌-◌, ◌^◌, Some, length, slice_get};

use crate::note_list::NoteList;
use crate::packed::SectionList;
use crate::sections::Section;
use cw_base::{Note, Span};
use cw_names::{Names, Xrefs};
use cw_secnames::{NameUses, SecNames};
use std::marker::Model;

/// Limbo, the sections and the notes of a web.
#[derive(Drop)]
pub struct Outline {
    pub(crate) limbo: Span,
    pub(crate) sections: SectionList,
    pub(crate) notes: NoteList,
}

impl Model for Outline {
    ghost use Rattle.std.specs.Prelude.{◌<◌, ◌^◌, length};
    ghost use Rattle.cw_phase1.specs.Outline.{OutlineState};

    ghost Value = { OutlineState };

    ghost view = { λ o. record { limbo = o.limbo; sections = o.sections; notes = o.notes } };

    ghost invariant = { λ o. length o.sections < 2 ^ 32 };
}

/// What the first phase makes of a web. The names, the occurrences, the section names and the places of section names
/// are fields of their own, so that a caller borrows one for writing beside another.
#[derive(Drop)]
pub struct Book {
    pub names: Names,
    pub xrefs: Xrefs,
    pub sec_names: SecNames,
    /// A pair for each section name in the web that isn't ignored: the place of its first byte, and the name that the
    /// book uses for it.
    pub name_uses: NameUses,
    pub outline: Outline,
}

impl Outline {
    ghost use Rattle.cw_phase1.specs.Changed.{with_last_marked};

    fn mark_last(&mut self)
        ensures { self.new ≡ record self.old { sections = with_last_marked self.old.sections } }
    {
        self.sections.mark_last();
    }

    /// How many sections there are.
    pub fn section_count(&self) -> u32
        ensures { result ≡ length self.now.sections }
    {
        self.sections.len() as u32
    }

    /// The text before the first section.
    pub fn limbo(&self) -> Span
        ensures { result ≡ self.now.limbo }
    {
        self.limbo
    }

    /// The notes of scanning and of section names, in order.
    pub fn notes(&self) -> &[Note]
        ensures { result.now ≡ self.now.notes }
    {
        self.notes.as_slice()
    }

    /// The section of a number, counted from 1.
    pub fn section(&self, n: u32) -> Section
        requires first { 0 < n }
        requires last { n ≤ length self.now.sections }
        ensures { slice_get self.now.sections (n - 1) ≡ Some result }
    {
        self.sections.at(n as usize - 1)
    }
}

impl Book {
    ghost use Rattle.cw_phase1.specs.Changed.{marked_book};

    /// Marks the last section as changed, where any section holds a changed line: the index, with which a book ends,
    /// changes with it.
    pub fn mark_last(&mut self)
        ensures { self.new ≡ marked_book self.old }
    {
        self.outline.mark_last();
    }

    /// How many sections there are.
    pub fn section_count(&self) -> u32
        ensures { result ≡ length self.now.outline.sections }
    {
        self.outline.section_count()
    }

    /// The text before the first section.
    pub fn limbo(&self) -> Span
        ensures { result ≡ self.now.outline.limbo }
    {
        self.outline.limbo()
    }

    /// The notes of scanning and of section names, in order.
    pub fn notes(&self) -> &[Note]
        ensures { result.now ≡ self.now.outline.notes }
    {
        self.outline.notes()
    }

    /// The section of a number, counted from 1.
    pub fn section(&self, n: u32) -> Section
        requires first { 0 < n }
        requires last { n ≤ length self.now.outline.sections }
        ensures { slice_get self.now.outline.sections (n - 1) ≡ Some result }
    {
        self.outline.section(n)
    }
}
