//! Who receives each production before it is done.
ghost use Rattle.std.specs.Prelude.{◌≡◌, Bool, true, false, List, [], ◌∷◌, Option, None, IfOk, OnErr};
ghost use Rattle.cw_table.specs.Normal.{Production};
ghost use Rattle.cw_rewrite.specs.Telling.{WatchState, grown_by};

use cw_base::Memory;
use cw_table::RowNo;

/// Who receives each production before it is done, and may stop the reducer there. Contracts see which productions it
/// has heard of, where it tells them, and which it refuses.
pub trait Watch: Drop {
    ghost told: { Self → Option WatchState };

    ghost refuses: { Self → Production → Bool };

    // What it compares productions with, which stays.
    ghost basis: { Self → List Production };

    /// Hears of the next production; false where it is not to be done. After `Memory` it has heard of no more than
    /// before.
    fn hear(&mut self, row: RowNo, place: usize) -> Result<bool, Memory>
        ensures goes { IfOk result (λ go. go ≡ true →
            told self.new ≡ grown_by (record { number = row.number; place = place } ∷ []) (told self.old)) }
        ensures stays { IfOk result (λ go. go ≡ false → told self.new ≡ told self.old) }
        ensures refused { IfOk result (λ go. go ≡ false →
            refuses self.new (record { number = row.number; place = place }) ≡ true) }
        ensures unheard { OnErr result (told self.new ≡ told self.old) }
        ensures same { basis self.new ≡ basis self.old };
}

/// Nobody: all productions are done, and none is received.
#[derive(Clone, Copy, Debug, PartialEq, Eq)]
pub struct Unwatched;

impl Watch for Unwatched {
    ghost told = { λ u. None };

    ghost refuses = { λ u p. false };

    ghost basis = { λ u. [] };

    #[inline(always)]
    fn hear(&mut self, _row: RowNo, _place: usize) -> Result<bool, Memory> {
        Ok(true)
    }
}
