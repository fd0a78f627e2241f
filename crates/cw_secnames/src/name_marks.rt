//! The marks of names, until they are given back.
ghost use Rattle.std.specs.Prelude.{◌≡◌, ℕ, ◌<◌, List, true, false, length, IfOk, OnOk};
ghost use Rattle.cw_secnames.specs.Kept.{SecName};
ghost use Rattle.cw_secnames.specs.Marks.{is_one_of};
ghost use Rattle.cw_secnames.specs.model.Marks.{HoldNear};
ghost use Rattle.cw_secnames.specs.model.NameMarks.{AreMarkedNames, IsMarkedName, KeepsNames};

use crate::SecKind;
use crate::marks::Marks;
use cw_base::Memory;
use std::alloc::Global;

/// Marks of names. Where they were given back, no name is marked any more, and each is near every text.
#[derive(Drop)]
pub(crate) struct NameMarks {
    marks: Marks,
    live: bool,
    alloc: Global,
}

// All positions below a count.
fn all_positions(alloc: Global, count: usize) -> Result<Vec<usize>, Memory>
    ensures { IfOk result (λ all. (k : ℕ) → k < count → is_one_of k all.items ≡ true) }
{
    let mut all = Vec::new(alloc);
    for index in 0..count {
        all.push(index)?;
    }
    Ok(all)
}

impl NameMarks {
    pub(crate) fn new_in(alloc: Global) -> NameMarks {
        NameMarks {
            marks: Marks::new_in(alloc),
            live: true,
            alloc,
        }
    }

    // Marks a name. What is marked stays so, also out of memory; it is for a position of more than 32 bits.
    pub(crate) fn enter(&mut self, kind: SecKind, text: &[u8], index: usize) -> Result<(), Memory>
        ensures keeps { KeepsNames self.old self.new }
        ensures ok { OnOk result (IsMarkedName self.new kind text.now index) }
    {
        if !self.live {
            return Ok(());
        }
        self.marks.enter(kind, text, index)
    }

    // The positions of the names of a kind that begin a text or that it begins, among so many, and maybe others.
    pub(crate) fn near(
        &self,
        kind: SecKind,
        text: &[u8],
        count: usize,
    ) -> Result<Vec<usize>, Memory>
        ensures { IfOk result (λ near. (names : List SecName) → length names ≡ count → AreMarkedNames self.now 0 names
            → HoldNear near.items kind text.now 0 names) }
    {
        if !self.live {
            let all = all_positions(self.alloc, count)?;
            return Ok(all);
        }
        let near = self.marks.near(kind, text)?;
        Ok(near)
    }

    // Gives the marks back.
    pub(crate) fn release(&mut self)
        ensures { self.new.live ≡ false }
    {
        self.live = false;
        self.marks = Marks::new_in(self.alloc);
    }
}
