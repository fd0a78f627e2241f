//! The names that each section lists, found in one pass over the names in the order of the index.
ghost use Rattle.std.specs.Prelude.{◌≡◌, ◌≢◌, ◌+◌, ◌<◌, ◌++◌, ◌∷◌, [], IfOk, OnOk, Some, ℕ, length, slice_get};
ghost use Rattle.cw_base.specs.Conditions.{list_if};
ghost use Rattle.cw_names.specs.Names.{Entry};
ghost use Rattle.cw_mini.specs.model.RowForms.{IsListingOf, is_listed_by, names_at, positions};

use crate::places::{Places, is_use};
use cw_base::Memory;
use cw_index::index_order;
use cw_names::NameId;
use cw_phase1::Book;
use std::alloc::Global;

/// The names that sections list, in the order of the index, at the number of each section. Limbo has number 0.
#[derive(Drop)]
pub(crate) struct Listing {
    by_section: Vec<Vec<NameId>>,
}

impl Listing {
    // Nothing is listed yet in so many sections.
    fn for_sections(alloc: Global, count: u32) -> Result<Listing, Memory>
        ensures len { IfOk result (λ listing. length listing.by_section.items ≡ count + 1) }
        ensures names { IfOk result (λ listing. (section : ℕ) → names_at section listing.by_section.items ≡ []) }
    {
        let mut by_section = Vec::new(alloc);
        'sections: while by_section.len() <= count as usize {
            by_section.push(Vec::new(alloc))?;
        }
        Ok(Listing { by_section })
    }

    /// The names that the sections of a book list. Of each name only the sections in which it occurs are looked at, and
    /// what is kept is what will be written.
    pub(crate) fn of_book(alloc: Global, book: &Book) -> Result<Listing, Memory>
        ensures { IfOk result (λ listing. IsListingOf book.now listing.by_section.items) }
    {
        let places = Places {
            names: &book.names,
            occurrences: &book.xrefs,
        };
        let mut listing = Listing::for_sections(alloc, book.section_count())?;
        let order = index_order(alloc, &book.names, &book.xrefs)?;
        for id in order.as_slice() {
            listing.add(places, *id)?;
        }
        Ok(listing)
    }

    // Lists a name in the sections that use it.
    fn add(&mut self, places: Places, id: NameId) -> Result<(), Memory>
        requires { id.index < length places.names.now }
        ensures len { length self.new.by_section.items ≡ length self.old.by_section.items }
        ensures listed { OnOk result ((entry : Entry) → slice_get places.entry.names.now id.index ≡ Some entry →
            (section : ℕ) → section < length self.old.by_section.items →
            names_at section self.new.by_section.items ≡ names_at section self.old.by_section.items
            ++ list_if (is_listed_by places.entry section id entry) (id.index ∷ [])) }
    {
        if !places.may_be_listed(id) {
            return Ok(());
        }
        for place in places.occurrences.sections_of(id) {
            if is_use(*place) {
                self.push(place.section, id)?;
            }
        }
        Ok(())
    }

    // Lists a name in a section, if the book has it.
    fn push(&mut self, section: u32, id: NameId) -> Result<(), Memory>
        ensures len { length self.new.by_section.items ≡ length self.old.by_section.items }
        ensures here { OnOk result (section < length self.old.by_section.items →
            names_at section self.new.by_section.items
            ≡ names_at section self.old.by_section.items ++ id.index ∷ []) }
        ensures elsewhere { (other : ℕ) → other ≢ section →
            names_at other self.new.by_section.items ≡ names_at other self.old.by_section.items }
    {
        if let Some(list) = self.by_section.get_mut(section as usize) {
            list.push(id)?;
        }
        Ok(())
    }

    /// The names that a section lists.
    pub(crate) fn names_of(&self, section: u32) -> &[NameId]
        ensures { positions result.now ≡ names_at section self.now.by_section.items }
    {
        match self.by_section.get(section as usize) {
            Some(list) => list.as_slice(),
            None => &[],
        }
    }
}
