//! Who receives the texts of a translation, and their productions.
ghost use Rattle.std.specs.Prelude.{◌≡◌, Bool, false, [], ◌∷◌, Option, None, OnOk, OnErr, refl};
ghost use Rattle.cw_table.specs.Normal.{Production};
ghost use Rattle.cw_rewrite.specs.Telling.{WatchState};
ghost use Rattle.cw_scraps.specs.Leaves.{entry_of};
ghost use Rattle.cw_scraps.specs.Lines.{AreRoots, roots_of, scraps_of};
ghost use Rattle.cw_translator.specs.Recording.{begun_over, texts_told, ended_now};

use cw_base::Memory;
use cw_rewrite::Watch;
use cw_scraps::{Leaf, ScrapLine};
use cw_table::RowNo;
use cw_tokens::TokenStore;

/// Who receives each text of a translation when its reduction begins, its productions, and its end.
pub trait Recorder: Watch {
    /// The reduction of a text begins. After `Memory` the texts that have ended are as before.
    fn begin(&mut self, line: &ScrapLine, store: &TokenStore) -> Result<(), Memory>
        requires roots { AreRoots store.now.lists (roots_of line.now) }
        ensures begins { OnOk result (Self.told self.new ≡
            begun_over (scraps_of store.now.lists line.now) (Self.told self.old)) }
        ensures refused { OnErr result (texts_told (Self.told self.new) ≡ texts_told (Self.told self.old)) };

    /// The same of a text with this scrap alone.
    fn begin_alone(&mut self, leaf: &Leaf, store: &TokenStore) -> Result<(), Memory>
        requires roots { AreRoots store.now.lists (roots_of (entry_of leaf.now ∷ [])) }
        ensures begins { OnOk result (Self.told self.new ≡
            begun_over (scraps_of store.now.lists (entry_of leaf.now ∷ [])) (Self.told self.old)) }
        ensures refused { OnErr result (texts_told (Self.told self.new) ≡ texts_told (Self.told self.old)) };

    /// It ends. After `Memory` the texts that have ended are as before.
    fn end(&mut self) -> Result<(), Memory>
        ensures ends { OnOk result (Self.told self.new ≡ ended_now (Self.told self.old)) }
        ensures refused { OnErr result (texts_told (Self.told self.new) ≡ texts_told (Self.told self.old)) };

    // It lets all productions be done.
    ghost goes_on: { (recorder : Self) (p : Production) → Self.refuses recorder p ≡ false };
}

/// A text with this scrap alone, at which no row fits, begins and ends. After `Memory` the texts that have ended are as
/// before.
#[inline(always)]
pub fn record_alone<R: Recorder>(
    recorder: &mut R,
    leaf: &Leaf,
    store: &TokenStore,
) -> Result<(), Memory>
    requires roots { AreRoots store.now.lists (roots_of (entry_of leaf.now ∷ [])) }
    ensures told { OnOk result (R.told recorder.new ≡
        ended_now (begun_over (scraps_of store.now.lists (entry_of leaf.now ∷ [])) (R.told recorder.old))) }
    ensures refused { OnErr result (texts_told (R.told recorder.new) ≡ texts_told (R.told recorder.old)) }
{
    recorder.begin_alone(leaf, store)?;
    recorder.end()
}

/// Nobody: no text is received.
#[derive(Clone, Copy, Debug, PartialEq, Eq)]
pub struct Unrecorded;

impl Watch for Unrecorded {
    ghost told = { λ u. None };

    ghost refuses = { λ u p. false };

    ghost basis = { λ u. [] };

    #[inline(always)]
    fn hear(&mut self, _row: RowNo, _place: usize) -> Result<bool, Memory> {
        Ok(true)
    }
}

impl Recorder for Unrecorded {
    ghost goes_on = { λ u p. refl };

    #[inline(always)]
    fn begin(&mut self, _line: &ScrapLine, _store: &TokenStore) -> Result<(), Memory> {
        Ok(())
    }

    #[inline(always)]
    fn begin_alone(&mut self, _leaf: &Leaf, _store: &TokenStore) -> Result<(), Memory> {
        Ok(())
    }

    #[inline(always)]
    fn end(&mut self) -> Result<(), Memory> {
        Ok(())
    }
}
