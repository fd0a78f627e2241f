//! What printing counts.
ghost use Rattle.std.specs.Prelude.{◌≡◌, ◌+◌, IfOk};

use cw_base::Memory;

/// The scraps and the productions of all C texts that a call translates, inner ones included.
#[derive(Clone, Copy, PartialEq, Eq, Debug)]
pub struct Counts {
    pub scraps: u64,
    pub productions: u64,
}

impl Counts {
    /// The counts of a call that translates nothing.
    pub fn none() -> Counts
        ensures scraps { result.scraps ≡ 0 }
        ensures productions { result.productions ≡ 0 }
    {
        Counts {
            scraps: 0,
            productions: 0,
        }
    }

    /// The sums of these counts and others; `Memory` where no memory could hold so many scraps.
    pub fn plus(self, more: Counts) -> Result<Counts, Memory>
        ensures scraps { IfOk result (λ sum. sum.scraps ≡ self.scraps + more.scraps) }
        ensures productions { IfOk result (λ sum. sum.productions ≡ self.productions + more.productions) }
    {
        Ok(Counts {
            scraps: self.scraps.checked_add(more.scraps).ok_or(Memory)?,
            productions: self
                .productions
                .checked_add(more.productions)
                .ok_or(Memory)?,
        })
    }
}
