//! The rows of one section.
ghost use Rattle.std.specs.Prelude.{◌≡◌, ◌<◌, [], ◌∷◌, ◌++◌, IfOk, OnOk, Some, length, slice_get};
ghost use Rattle.cw_mini.specs.Marks.{with_marks};
ghost use Rattle.cw_mini.specs.Mini.{MiniRow, defining, mini_rows, numbers};

use crate::marks::SectionMarks;
use crate::places::Places;
use cw_base::Memory;
use cw_index::index_order;
use cw_names::{NameId, SectionRef, Xrefs};
use std::alloc::Global;
use std::marker::Model;

// A name, with the sections that define it.
#[derive(Drop)]
pub(crate) struct KeptRow {
    name: NameId,
    sections: Vec<u32>,
}

/// The small index of a section: names in the order of the index, each with the sections that define it.
#[derive(Drop)]
pub struct MiniRows {
    rows: Vec<KeptRow>,
}

impl Model for MiniRows {
    ghost use Rattle.std.specs.Prelude.{List, map};
    ghost use Rattle.cw_mini.specs.Mini.{MiniRow};
    ghost use Rattle.cw_mini.specs.model.RowForms.{kept_row};

    ghost Value = { List MiniRow };

    ghost view = { λ r. map kept_row r.rows.items };
}

impl MiniRows {
    fn new_in(alloc: Global) -> MiniRows
        ensures { result ≡ [] }
    {
        MiniRows {
            rows: Vec::new(alloc),
        }
    }

    fn push(&mut self, name: NameId, sections: Vec<u32>) -> Result<(), Memory>
        ensures { OnOk result
            (self.new ≡ self.old ++ record { name = name.index; sections = sections.items } ∷ []) }
    {
        self.rows.push(KeptRow { name, sections })?;
        Ok(())
    }

    /// How many rows there are.
    pub fn len(&self) -> usize
        ensures { result ≡ length self.now }
    {
        self.rows.len()
    }

    /// The name of a row, counted from 0.
    pub fn name(&self, i: usize) -> NameId
        requires { i < length self.now }
        ensures { (row : MiniRow) → slice_get self.now i ≡ Some row → result.index ≡ row.name }
    {
        self.rows[i].name
    }

    /// The sections that define it, ascending, each once.
    pub fn sections(&self, i: usize) -> &[u32]
        requires { i < length self.now }
        ensures { (row : MiniRow) → slice_get self.now i ≡ Some row → result.now ≡ row.sections }
    {
        self.rows[i].sections.as_slice()
    }
}

// Adds the marks to occurrences.
pub(crate) fn add_marks(marks: &SectionMarks, occurrences: &mut Xrefs) -> Result<(), Memory>
    ensures { OnOk result (occurrences.new ≡ with_marks occurrences.old marks.now) }
{
    for mark in marks.as_slice() {
        occurrences.note(mark.name, mark.section, true)?;
    }
    Ok(())
}

// A copy of occurrences, in their order.
pub(crate) fn copy_of(alloc: Global, occurrences: &Xrefs) -> Result<Xrefs, Memory>
    ensures { IfOk result (λ copy. copy ≡ occurrences.now) }
{
    let mut copy = Xrefs::new_in(alloc);
    for place in occurrences.occurrences() {
        copy.note(place.name, place.section, place.underlined)?;
    }
    Ok(copy)
}

// The sections that define a name.
fn defining_of(alloc: Global, sections: &[SectionRef]) -> Result<Vec<u32>, Memory>
    ensures { IfOk result (λ found. found.items ≡ numbers (defining sections.now)) }
{
    let mut found = Vec::new(alloc);
    for place in sections {
        if place.underlined {
            found.push(place.section)?;
        }
    }
    Ok(found)
}

// The rows of a section, by the places of names.
pub(crate) fn rows_of(alloc: Global, places: Places, section: u32) -> Result<MiniRows, Memory>
    ensures { IfOk result
        (λ rows. rows ≡ mini_rows section places.entry.names.now places.entry.occurrences.now) }
{
    let order = index_order(alloc, places.names, places.occurrences)?;
    let mut rows = MiniRows::new_in(alloc);
    for id in order.as_slice() {
        if places.lists(section, *id) {
            let sections = defining_of(alloc, places.occurrences.sections_of(*id))?;
            rows.push(*id, sections)?;
        }
    }
    Ok(rows)
}
