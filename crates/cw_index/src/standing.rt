//! The section names that are listed, sorted.
ghost use Rattle.std.specs.Prelude.{
  ◌≡◌,
  ◌<◌,
  ◌⊎◌,
  [],
  ℕ,
  IfOk,
  OnOk,
  Some,
  false,
  get_or,
  length,
  map,
  refl,
  slice_get,
  true,
};
ghost use Rattle.std.specs.BTreeSet.{insert_key};
ghost use Rattle.std.specs.Cmp;
ghost use Rattle.std.specs.Ordering.{as_partial_cmp, eq_by_cmp, on};
ghost use Rattle.cw_secnames.specs.Kept.{SecName};
ghost use Rattle.cw_index.specs.Sorted.{sorted, sorted_on};
ghost use Rattle.cw_index.specs.Standing.{has_any, has_reference, kept_stand, kind_place, listed_names};
ghost use Rattle.cw_index.specs.Standing.{named_stands, stand_cmp};
ghost use Rattle.cw_index.specs.model.StandingForms.{IsSorting, stand_of, stands_of};
ghost use Rattle.cw_index.specs.laws.StandingLaws.{stand_cmp-total};

use cw_base::Memory;
use cw_secnames::{NameUses, SecId, SecKind, SecNames};
use std::alloc::Global;
use std::cmp::Ordering;
use std::collections::BTreeSet;

/// A section name that is listed: which of the kept names it is, and the place of one that stands in the web.
#[derive(Clone, Copy)]
pub(crate) struct Listed {
    pub id: SecId,
    pub place: u32,
}

/// A section name that stands in the web. Names of one kind and one text are equal.
#[derive(Clone, Copy)]
pub(crate) struct Standing<'a> {
    text: &'a [u8],
    id: SecId,
    place: u32,
    kind: SecKind,
}

// The place of a kind among those of one text.
fn kind_place(kind: SecKind) -> u8
    ensures { result ≡ kind_place kind }
{
    match kind {
        SecKind::Named => 0,
        SecKind::File => 1,
    }
}

impl<'a> PartialEq for Standing<'a> {
    ghost eq = { eq_by_cmp (on stand_of stand_cmp) };

    ghost laws = { Cmp.partial_equiv_from_equiv (Cmp.eq_by_cmp_equiv (Cmp.on_total stand_of stand_cmp-total)) };

    fn eq(&self, other: &Standing) -> bool {
        self.cmp(other).is_eq()
    }
}

impl<'a> Eq for Standing<'a> {
    ghost laws = { Cmp.eq_by_cmp_equiv (Cmp.on_total stand_of stand_cmp-total) };
}

impl<'a> PartialOrd for Standing<'a> {
    ghost partial_cmp = { as_partial_cmp (on stand_of stand_cmp) };

    ghost laws = { Cmp.partial_order_from_total (Cmp.on_total stand_of stand_cmp-total) };

    fn partial_cmp(&self, other: &Standing) -> Option<Ordering> {
        Some(self.cmp(other))
    }
}

impl<'a> Ord for Standing<'a> {
    ghost cmp = { on stand_of stand_cmp };

    ghost total = { Cmp.on_total stand_of stand_cmp-total };

    ghost matches_partial_cmp = { λ x y. refl };

    ghost matches_eq = { λ x y. refl };

    fn cmp(&self, other: &Standing) -> Ordering {
        self.text
            .cmp(other.text)
            .then(kind_place(self.kind).cmp(&kind_place(other.kind)))
    }
}

impl<'a> Standing<'a> {
    fn listed(self) -> Listed
        ensures { result ≡ (stand_of self.entry).listed }
    {
        Listed {
            id: self.id,
            place: self.place,
        }
    }
}

fn has_any(sections: &[u32]) -> bool
    ensures { result ≡ has_any sections.now }
{
    match sections {
        [] => false,
        _ => true,
    }
}

// Whether a section refers to a name.
fn has_reference(names: &SecNames, id: SecId) -> bool
    requires { id.index < length names.now }
    ensures { (n : SecName) → slice_get names.now id.index ≡ Some n → result ≡ has_reference n }
{
    has_any(names.defined_in(id)) || has_any(names.used_in(id)) || has_any(names.cited_in(id))
}

// A name that is kept, where a section refers to it.
fn kept_stand<'a>(names: &'a SecNames, listed: Listed) -> Option<Standing<'a>>
    ensures { stands_of result ≡ kept_stand (slice_get names.now listed.id.index) listed }
{
    if listed.id.index >= names.len() {
        return None;
    }
    if !has_reference(names, listed.id) {
        return None;
    }
    Some(Standing {
        text: names.text(listed.id),
        id: listed.id,
        place: listed.place,
        kind: names.kind(listed.id),
    })
}

/// The names that stand in the web, sorted, and which of the kept names they are.
#[derive(Drop)]
pub(crate) struct Sorting<'a> {
    stands: BTreeSet<Standing<'a>>,
    entered: Vec<bool>,
}

impl<'a> Sorting<'a> {
    // No names, of so many that are kept.
    fn of_kept(alloc: Global, count: usize) -> Result<Sorting<'a>, Memory>
        ensures stands { IfOk result (λ sorting. sorting.stands.keys ≡ []) }
        ensures entered { IfOk result (λ sorting. (k : ℕ) → get_or sorting.entered.items k false ≡ false) }
    {
        let entered = vec![in alloc; false; count]?;
        Ok(Sorting {
            stands: BTreeSet::new(alloc),
            entered,
        })
    }

    fn has_entered(&self, index: usize) -> bool
        ensures { result ≡ get_or self.now.entered.items index false }
    {
        index < self.entered.len() && self.entered[index]
    }

    // The name at a position is entered.
    fn mark(&mut self, index: usize)
        ensures stands { self.new.stands ≡ self.old.stands }
        ensures entered { (k : ℕ) → get_or self.new.entered.items k false ≡ true
            → (k ≡ index) ⊎ (get_or self.old.entered.items k false ≡ true) }
    {
        if index < self.entered.len() {
            self.entered[index] = true;
        }
    }

    // Puts a name at its place.
    fn insert(&mut self, stand: Standing<'a>) -> Result<(), Memory>
        ensures stands { OnOk result
            (self.new.stands.keys ≡ insert_key (on stand_of stand_cmp) self.old.stands.keys stand.entry) }
        ensures entered { OnOk result ((k : ℕ) → get_or self.new.entered.items k false ≡ true
            → (k ≡ stand.entry.id.index) ⊎ (get_or self.old.entered.items k false ≡ true)) }
    {
        self.stands.insert(stand)?;
        self.mark(stand.id.index);
        Ok(())
    }

    // Puts a kept name at its place, where a section refers to it, unless it stands there already.
    fn enter(&mut self, names: &'a SecNames, listed: Listed) -> Result<(), Memory>
        requires { IsSorting names.now self.old }
        ensures stands { OnOk result (map stand_of self.new.stands.keys
            ≡ sorted_on stand_cmp (map stand_of self.old.stands.keys)
            (kept_stand (slice_get names.now listed.id.index) listed)) }
        ensures entered { OnOk result (IsSorting names.now self.new) }
    {
        if self.has_entered(listed.id.index) {
            return Ok(());
        }
        match kept_stand(names, listed) {
            Some(stand) => {
                self.insert(stand)?;
                Ok(())
            }
            None => Ok(()),
        }
    }
}

// The names for which section names stand, sorted.
fn sorted_stands<'a>(
    alloc: Global,
    names: &'a SecNames,
    uses: &NameUses,
) -> Result<BTreeSet<Standing<'a>>, Memory>
    ensures { IfOk result (λ stands. map stand_of stands.keys
        ≡ sorted stand_cmp (named_stands names.now uses.now)) }
{
    let mut sorting = Sorting::of_kept(alloc, names.len())?;
    for i in 0..uses.len() {
        let (place, id) = uses.pair(i);
        sorting.enter(names, Listed { id, place })?;
    }
    let Sorting { stands, entered: _ } = sorting;
    Ok(stands)
}

/// The section names that are listed, in their order.
pub(crate) fn listed_names(
    alloc: Global,
    names: &SecNames,
    uses: &NameUses,
) -> Result<Vec<Listed>, Memory>
    ensures { IfOk result (λ listed. listed.items ≡ listed_names names.now uses.now) }
{
    let stands = sorted_stands(alloc, names, uses)?;
    let mut listed = Vec::new(alloc);
    for stand in stands {
        listed.push(stand.listed())?;
    }
    Ok(listed)
}
