//! Which name each section name in a web stands for.
ghost use Rattle.std.specs.Prelude.{◌≡◌, ◌<◌, [], ◌∷◌, ◌++◌, All, OnOk, OnErr, Some, length, slice_get};
ghost use Rattle.std.specs.Option.{option_map};
ghost use Rattle.cw_secnames.specs.Kept.{id};
ghost use Rattle.cw_secnames.specs.Uses.{NameUse, name_at};

use crate::SecId;
use cw_base::Memory;
use std::alloc::Global;
use std::marker::Model;

/// A place in the web, and the position of the name that stands there.
#[derive(Clone, Copy)]
pub(crate) struct Pair {
    place: u32,
    name: u32,
}

/// The names that the section names in a web stand for, by ascending place.
#[derive(Drop)]
pub struct NameUses {
    pairs: Vec<Pair>,
}

impl Model for NameUses {
    ghost use Rattle.std.specs.Prelude.{List, map};
    ghost use Rattle.cw_secnames.specs.Uses.{NameUse};
    ghost use Rattle.cw_secnames.specs.model.InsideUses.{AreAscending, use_of};

    ghost Value = { List NameUse };

    ghost view = { λ n. map use_of n.pairs.items };

    ghost invariant = { λ n. AreAscending n.pairs.items };
}

impl NameUses {
    /// No names. It takes no memory.
    pub fn new_in(alloc: Global) -> NameUses
        ensures { result ≡ [] }
    {
        NameUses {
            pairs: Vec::new(alloc),
        }
    }

    /// Appends one pair. After `Memory` the pairs are as before; it is also for a name whose position takes more than
    /// 32 bits.
    pub fn add(&mut self, place: u32, id: SecId) -> Result<(), Memory>
        requires { All (λ u. u.place < place) self.old }
        ensures ok { OnOk result (self.new ≡ self.old ++ record { place = place; name = id.index } ∷ []) }
        ensures err { OnErr result (self.new ≡ self.old) }
    {
        if id.index > 4294967295 {
            return Err(Memory);
        }
        let name = id.index as u32;
        self.pairs.push(Pair { place, name })?;
        Ok(())
    }

    /// How many pairs there are.
    pub fn len(&self) -> usize
        ensures { result ≡ length self.now }
    {
        self.pairs.len()
    }

    /// The place and the name of the pair at this position, counted from 0.
    pub fn pair(&self, i: usize) -> (u32, SecId)
        requires { i < length self.now }
        ensures { slice_get self.now i ≡ Some (record { place = result.0; name = result.1.index }) }
    {
        let pair = self.pairs[i];
        let id = SecId {
            index: pair.name as usize,
        };
        (pair.place, id)
    }

    /// The name that stands at a place. None comes where no pair has it.
    pub fn at(&self, place: u32) -> Option<SecId>
        ensures { result ≡ option_map id (name_at place self.now) }
    {
        let first = self.pairs.partition_point(|pair| pair.place < place);
        if first < self.pairs.len() {
            let pair = self.pairs[first];
            if pair.place == place {
                return Some(SecId {
                    index: pair.name as usize,
                });
            }
        }
        None
    }
}
