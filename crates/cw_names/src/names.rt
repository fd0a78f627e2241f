//! The list of names: what is found by its kind and text, and the category that it has now.
ghost use Rattle.std.specs.Prelude.{◌≡◌, ◌≢◌, true, ◌<◌, ◌↔◌, length, Some, map, slice_get, IsOk, IsTrue, IfOk, OnOk};
ghost use Rattle.std.specs.Prelude.{IfSome, OnErr};
ghost use Rattle.std.specs.Option.{option_map};
ghost use Rattle.cw_names.specs.Names.{Entry, AreDistinct, place_of, with_entry, with_category};
ghost use Rattle.cw_names.specs.Words.{BeginsWithWords, built_in_words};

use crate::entry::{Key, NameQuery};
use crate::words::{WORDS, built_in_table};
use crate::{EntryKind, NameId};
use cw_base::{Cat, Memory};
use indexmap::IndexMap;
use std::alloc::Global;
use std::marker::Model;

/// Names in order of first appearance, the built-in words first. No two have the same kind and text. An entry is
/// found by its kind and text through a hash table, unless it stands where texts like it were found last.
#[derive(Drop)]
pub struct Names {
    categories: IndexMap<Key, Cat>,
    // The position of a name that was found, for each slot. Whatever it says, the name there is looked at.
    recent: Vec<u32>,
    alloc: Global,
}

// How many slots there are: a power of two.
const SLOTS: usize = 4096;

// The slot of a text: a byte has its own, and a longer text one by its first byte and its last three.
#[inline(always)]
fn slot_of(text: &[u8]) -> usize {
    match text {
        [byte] => *byte as usize,
        _ => slot_of_longer(text),
    }
}

// The slot of a longer text. The factor spreads the bytes: an odd number near 2^32 divided by the golden ratio.
#[inline(always)]
fn slot_of_longer(text: &[u8]) -> usize {
    let count = text.len();
    if count == 0 {
        return 0;
    }
    let first = u32::from(text[0]);
    let third = u32::from(text[count.saturating_sub(3)]);
    let second = u32::from(text[count.saturating_sub(2)]);
    let last = u32::from(text[count - 1]);
    let bytes = first << 24 | third << 16 | second << 8 | last;
    (bytes.wrapping_mul(2654435769) >> 20) as usize
}

// Whether two texts are the same. Names are short, so a walk costs less than a call.
#[inline(always)]
fn are_same(first: &[u8], second: &[u8]) -> bool
    ensures { result ≡ true → first.now ≡ second.now }
{
    if first.len() != second.len() {
        return false;
    }
    let mut k = 0;
    while k < first.len() {
        if first[k] != second[k] {
            return false;
        }
        k += 1;
    }
    true
}

impl Model for Names {
    ghost use Rattle.std.specs.Prelude.{List, map};
    ghost use Rattle.cw_names.specs.Names.{Entry};

    ghost Value = { List Entry };

    ghost use Rattle.cw_names.specs.model.Inside.{entry_of, AreSound};

    ghost view = { λ n. map entry_of n.categories.entries };

    ghost invariant = { λ n. AreSound n.categories.entries };
}

impl Names {
    /// The names that are known from the start: the built-in words.
    pub fn with_words(alloc: Global) -> Result<Names, Memory>
        ensures { IfOk result (λ names. names ≡ built_in_words) }
    {
        let categories = built_in_table(alloc)?;
        let recent = vec![in alloc; 0; SLOTS]?;
        Ok(Names {
            categories,
            recent,
            alloc,
        })
    }

    /// The entry of this kind and text. A new one is last and has the category exp; a present one keeps
    /// its place and takes no memory. After `Memory` the names are as before.
    pub fn find_or_add(&mut self, kind: EntryKind, text: &[u8]) -> Result<NameId, Memory>
        ensures id { IfOk result (λ id. id.index ≡ place_of kind text.now self.old) }
        ensures within { IfOk result (λ id. id.index < length self.new) }
        ensures present { place_of kind text.now self.old < length self.old → IsOk result }
        ensures ok { OnOk result (self.new ≡ with_entry kind text.now self.old) }
        ensures err { OnErr result (self.new ≡ self.old) }
    {
        let slot = slot_of(text);
        match self.recent_at(slot, kind, text) {
            Some(index) => Ok(NameId { index }),
            None => self.look_up(slot, kind, text),
        }
    }

    // The entry of this kind and text, if it was found last among those of its slot.
    #[inline(always)]
    fn recent_at(&self, slot: usize, kind: EntryKind, text: &[u8]) -> Option<usize>
        ensures place { IfSome result (λ index. index ≡ place_of kind text.now self.now) }
        ensures within { IfSome result (λ index. index < length self.now) }
    {
        let index = *self.recent.get(slot)? as usize;
        if index >= self.categories.len() {
            return None;
        }
        let (key, _) = self.categories.get_index(index)?;
        if kind.is(key.kind) && are_same(text, key.text.as_slice()) {
            Some(index)
        } else {
            None
        }
    }

    // The entry of this kind and text, through the hash table.
    #[inline(never)]
    fn look_up(&mut self, slot: usize, kind: EntryKind, text: &[u8]) -> Result<NameId, Memory>
        ensures id { IfOk result (λ id. id.index ≡ place_of kind text.now self.old) }
        ensures within { IfOk result (λ id. id.index < length self.new) }
        ensures present { place_of kind text.now self.old < length self.old → IsOk result }
        ensures ok { OnOk result (self.new ≡ with_entry kind text.now self.old) }
        ensures err { OnErr result (self.new ≡ self.old) }
    {
        match self.categories.get_index_of(NameQuery { kind, text }) {
            Some(index) => {
                self.remember(slot, index);
                Ok(NameId { index })
            }
            None => self.add(kind, text),
        }
    }

    fn remember(&mut self, slot: usize, index: usize)
        ensures { self.new ≡ self.old }
    {
        if index > 4294967295 {
            return;
        }
        if let Some(recent) = self.recent.get_mut(slot) {
            *recent = index as u32;
        }
    }

    /// Adds an entry that isn't there.
    #[inline(never)]
    fn add(&mut self, kind: EntryKind, text: &[u8]) -> Result<NameId, Memory>
        requires new { place_of kind text.now self.old ≡ length self.old }
        ensures id { IfOk result (λ id. id.index ≡ length self.old) }
        ensures within { IfOk result (λ id. id.index < length self.new) }
        ensures ok { OnOk result (self.new ≡ with_entry kind text.now self.old) }
        ensures err { OnErr result (self.new ≡ self.old) }
    {
        let index = self.categories.len();
        let text = Vec::from_slice(self.alloc, text)?;
        self.categories.insert(Key { kind, text }, Cat::Exp)?;
        Ok(NameId { index })
    }

    /// Gives an entry another category.
    pub fn set_category(&mut self, id: NameId, category: Cat)
        requires id { id.index < length self.old }
        requires category { category ≢ Cat.End }
        ensures { self.new ≡ with_category id.index category self.old }
    {
        match self.categories.get_index_mut(id.index) {
            Some(value) => *value = category,
            None => unreachable!(),
        }
    }

    /// The text of an entry.
    pub fn text(&self, id: NameId) -> &[u8]
        requires { id.index < length self.now }
        ensures { option_map (λ entry. entry.text) (slice_get self.now id.index) ≡ Some result.now }
    {
        match self.categories.get_index(id.index) {
            Some((key, _)) => key.text.as_slice(),
            None => unreachable!(),
        }
    }

    /// The kind of an entry.
    pub fn kind(&self, id: NameId) -> EntryKind
        requires { id.index < length self.now }
        ensures { option_map (λ entry. entry.kind) (slice_get self.now id.index) ≡ Some result }
    {
        match self.categories.get_index(id.index) {
            Some((key, _)) => key.kind,
            None => unreachable!(),
        }
    }

    /// The category of an entry.
    pub fn category(&self, id: NameId) -> Cat
        requires { id.index < length self.now }
        ensures value { option_map (λ entry. entry.category) (slice_get self.now id.index) ≡ Some result }
        ensures real { result ≢ Cat.End }
    {
        match self.categories.get_index(id.index) {
            Some((_key, category)) => *category,
            None => unreachable!(),
        }
    }

    /// Whether an entry is one of the words that are known from the start.
    pub fn is_built_in(&self, id: NameId) -> bool
        requires { id.index < length self.now }
        ensures { IsTrue result ↔ (id.index < length built_in_words) }
    {
        id.index < WORDS.len()
    }

    /// How many entries there are. Whoever asks learns what is true of every list of names.
    pub fn len(&self) -> usize
        ensures value { result ≡ length self.now }
        ensures words { BeginsWithWords self.now }
        ensures distinct { AreDistinct self.now }
    {
        self.categories.len()
    }
}
