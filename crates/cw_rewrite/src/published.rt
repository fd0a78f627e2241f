//! A line of scraps reduced with nobody who receives its productions. No program calls it, users of the
//! library do: a thin call of what programs run.
ghost use Rattle.std.specs.Prelude.{IfOk, None};
ghost use Rattle.cw_scraps.specs.Lines.{IsSoundLine};
ghost use Rattle.cw_rewrite.specs.Reduction.{IsReduced, Reaches, reducer};

use crate::walk::{Reduced, reduce_watched};
use crate::watch::Unwatched;
use cw_base::{Flags, Ledger, Memory, Steps};
use cw_names::Names;
use cw_scraps::{Marks, ScrapLine};
use cw_tokens::TokenStore;

/// Reduces a line as `reduce_watched` does, with nobody who hears of its productions. After `Memory` the line is one
/// that the productions reach, and can be reduced further.
pub fn reduce<L: Ledger>(
    line: &mut ScrapLine,
    store: &mut TokenStore,
    names: &mut Names,
    marks: &mut Marks,
    flags: &Flags,
    steps: &mut Steps<L>,
) -> Result<Reduced, Memory>
    requires sound { IsSoundLine store.old names.old line.old }
    ensures reduced { IfOk result (λ done. IsReduced flags.now
        (reducer store.old line.old names.old marks.old steps.old)
        (reducer store.new line.new names.new marks.new steps.new) done.productions) }
    ensures reaches { Reaches flags.now
        (reducer store.old line.old names.old marks.old steps.old)
        (reducer store.new line.new names.new marks.new steps.new) }
{
    match reduce_watched(line, store, names, marks, flags, &mut Unwatched, steps)? {
        Some(reduced) => Ok(reduced),
        // It refuses no production.
        None => unreachable!(),
    }
}
