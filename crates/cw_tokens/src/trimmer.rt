//! The trimming of items as they come: each is kept, left out, or waits in the gap at the end.
ghost use Rattle.std.specs.Prelude.{◌≡◌, List, [], ◌∷◌, ◌++◌, ◌≤◌, length, take, drop, true, IfOk, OnOk};
ghost use Rattle.cw_trees.specs.Flat.{Item, trimmed_items};
ghost use Rattle.cw_tokens.specs.FlatItems.{item_is, items_are};
ghost use Rattle.cw_tokens.specs.Trimming.{StandsFor};
ghost use Rattle.cw_tokens.specs.model.Trimming.{gap_before, unbroken};

use crate::flat::{FlatItem, FlatTokens};
use crate::trim::{breaks, gaps, inserted};
use cw_base::Memory;
use std::alloc::Global;
use std::marker::Model;

/// The items that stay of those that came, where more may come.
#[derive(Drop)]
pub struct Trimmer {
    items: Vec<FlatItem>,
    // Where the gap begins with which the items end.
    gap: usize,
    // Where the text at hand begins. It only has gaps so far where the gap begins there too.
    text: usize,
}

impl Model for Trimmer {
    ghost use Rattle.std.specs.Prelude.{◌≤◌, nat_eq, length};
    ghost use Rattle.cw_tokens.specs.Trimming.{Trims};
    ghost use Rattle.cw_tokens.specs.model.Trimming.{parted};

    ghost Value = { Trims };

    ghost view = { λ t. parted t.gap t.items.items (nat_eq t.gap t.text) };

    ghost invariant = { λ t. (t.gap ≤ length t.items.items) × (t.text ≤ t.gap) };
}

impl Trimmer {
    /// Nothing has come. There is capacity for so many items.
    pub fn with_room(alloc: Global, n: usize) -> Result<Trimmer, Memory>
        ensures { IfOk result (λ t. StandsFor t []) }
    {
        Ok(Trimmer {
            items: Vec::with_capacity(alloc, n)?,
            gap: 0,
            text: 0,
        })
    }

    /// Takes the item that comes next.
    #[inline(always)]
    pub fn push(&mut self, item: FlatItem) -> Result<(), Memory>
        ensures { OnOk result ((given : List Item) → StandsFor self.old given →
            StandsFor self.new (given ++ item_is item ∷ [])) }
    {
        if gaps(item) {
            // A break with which a text begins is left out.
            if self.gap == self.text && breaks(item) {
                return Ok(());
            }
            self.items.push(item)?;
            return Ok(());
        }
        if inserted(item) {
            return Ok(());
        }
        end_gap(&mut self.items, self.gap, item);
        self.items.push(item)?;
        self.gap = self.items.len();
        if let FlatItem::Open = item {
            self.text = self.gap;
        }
        Ok(())
    }

    /// The items that stay where no more come.
    pub fn done(mut self) -> FlatTokens
        ensures { (given : List Item) → StandsFor self given → items_are result ≡ trimmed_items given }
    {
        take_breaks(&mut self.items, self.gap);
        FlatTokens::of(self.items)
    }
}

// Takes the breaks out of the gap with which the items end, if the item that comes next ends a text.
#[inline(always)]
fn end_gap(items: &mut Vec<FlatItem>, gap: usize, next: FlatItem)
    requires { gap ≤ length items.old.items }
    ensures within { gap ≤ length items.new.items }
    ensures items { items_are items.new.items ≡ items_are (take gap items.old.items) ++
        gap_before (item_is next) (items_are (drop gap items.old.items)) }
{
    if let FlatItem::Close = next {
        take_breaks(items, gap);
    }
}

// Takes the breaks out of the gap with which the items end.
#[inline(always)]
fn take_breaks(items: &mut Vec<FlatItem>, gap: usize)
    requires { gap ≤ length items.old.items }
    ensures within { gap ≤ length items.new.items }
    ensures items { items_are items.new.items ≡ items_are (take gap items.old.items) ++
        unbroken (items_are (drop gap items.old.items)) }
{
    let kept = keep_unbroken(items, gap);
    items.truncate(kept);
}

// Moves the items of a gap to its front that are no breaks, and says where they end.
#[inline(always)]
fn keep_unbroken(items: &mut [FlatItem], gap: usize) -> usize
    requires { gap ≤ length items.old }
    ensures within { result ≤ length items.new }
    ensures behind { gap ≤ result }
    ensures kept { items_are (take result items.new) ≡ items_are (take gap items.old) ++
        unbroken (items_are (drop gap items.old)) }
{
    let mut kept = gap;
    for i in gap..items.len() {
        let item = items[i];
        if !breaks(item) {
            items[kept] = item;
            kept += 1;
        }
    }
    kept
}
