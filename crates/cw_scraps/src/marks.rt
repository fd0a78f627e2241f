//! The names that productions underlined.
ghost use Rattle.std.specs.Prelude.{◌≡◌, ◌+◌, ◌-◌, ◌<◌, ◌≤◌, ◌↔◌, [], ◌∷◌, ◌++◌, length, IsTrue, OnOk, OnErr, Some};
ghost use Rattle.std.specs.Prelude.{slice_get};
ghost use Rattle.cw_scraps.specs.Marking.{MarkList};

use cw_base::Memory;
use cw_names::NameId;
use std::alloc::Global;
use std::marker::Model;

/// The names that productions underlined, in order.
#[derive(Drop)]
pub struct Marks {
    names: Vec<NameId>,
}

impl Model for Marks {
    ghost use Rattle.std.specs.Prelude.{◌-◌, vec_capacity, vec_len};
    ghost use Rattle.cw_scraps.specs.Marking.{MarkList};

    ghost Value = { MarkList };

    ghost view = { λ m. record { names = m.names.items; spare = vec_capacity m.names - vec_len m.names } };
}

impl Marks {
    /// No names.
    pub fn new_in(alloc: Global) -> Marks
        ensures { result.names ≡ [] }
    {
        Marks {
            names: Vec::new(alloc),
        }
    }

    /// Makes capacity for `n` more names. After `Memory` nothing has changed.
    pub fn reserve(&mut self, n: usize) -> Result<(), Memory>
        ensures names { self.new.names ≡ self.old.names }
        ensures room { OnOk result (n ≤ self.new.spare) }
        ensures grows { self.old.spare ≤ self.new.spare }
        ensures refused { OnErr result (self.new ≡ self.old) }
    {
        self.names.reserve(n)?;
        Ok(())
    }

    /// The number of names.
    pub fn len(&self) -> usize
        ensures { result ≡ length self.now.names }
    {
        self.names.len()
    }

    /// Whether there is no name.
    pub fn is_empty(&self) -> bool
        ensures { IsTrue result ↔ (length self.now.names ≡ 0) }
    {
        self.names.is_empty()
    }

    /// A name.
    pub fn name(&self, i: usize) -> NameId
        requires { i < length self.now.names }
        ensures { slice_get self.now.names i ≡ Some result }
    {
        self.names[i]
    }

    /// Puts a name behind the others.
    pub(crate) fn push(&mut self, name: NameId)
        requires { 0 < self.old.spare }
        ensures names { self.new.names ≡ self.old.names ++ name ∷ [] }
        ensures spare { self.new.spare + 1 ≡ self.old.spare }
    {
        self.names.push_reserved(name);
    }
}
