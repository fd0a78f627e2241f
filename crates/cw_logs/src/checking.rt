//! A line of scraps is reduced as long as a log has its productions.
ghost use Rattle.std.specs.Prelude.{◌≡◌, ◌+◌, ◌*◌, ◌≤◌, length, map, IfOk, OnErr};
ghost use Rattle.cw_table.specs.Normal.{log as log_of};
ghost use Rattle.cw_table.specs.Productions.{productions};
ghost use Rattle.cw_table.specs.Reaching.{IsAfter};
ghost use Rattle.cw_table.specs.SourceNumbers.{numbers_of};
ghost use Rattle.cw_table.specs.WalkCounts.{reservings, ticks};
ghost use Rattle.cw_scraps.specs.Applying.{state_of};
ghost use Rattle.cw_scraps.specs.Changing.{Keeps};
ghost use Rattle.cw_scraps.specs.Lines.{IsSoundLine, roots_of, scraps_of};
ghost use Rattle.cw_rewrite.specs.Reduction.{GrowsByProductions};
ghost use Rattle.cw_names.specs.Words.{words_of};
ghost use Rattle.cw_leaves.specs.Spelling.{production_of};
ghost use Rattle.cw_logs.specs.Judging.{Judges, StandsAt, StopsWithin};

use crate::against::Against;
use cw_base::{Flags, Ledger, Memory, Steps};
use cw_leaves::LogItem;
use cw_names::Names;
use cw_rewrite::reduce_watched;
use cw_scraps::{Marks, ScrapLine};
use cw_tokens::TokenStore;

/// What is found of a log.
#[derive(Clone, Copy, Debug, PartialEq, Eq)]
pub enum Verdict {
    /// It is the log.
    Accepted,
    /// It isn't, and so many productions at its beginning are those of the log.
    Rejected(u64),
}

/// Reduces a line as long as a log has its productions, and tells whether it is the log of the line. Then the line is
/// reduced as `reduce` does it; else the line is as it is behind the productions that are the same. After `Memory` the
/// line is one that the productions reach, by no more of them than are the same.
pub fn check_line<L: Ledger>(
    line: &mut ScrapLine,
    store: &mut TokenStore,
    names: &mut Names,
    marks: &mut Marks,
    flags: &Flags,
    log: &[LogItem],
    steps: &mut Steps<L>,
) -> Result<Verdict, Memory>
    requires sound { IsSoundLine store.old names.old line.old }
    ensures judges { IfOk result (λ v. Judges (map production_of log.now)
        (log_of productions flags.now (state_of store.old.lists line.old marks.old names.old)) v) }
    ensures stands { IfOk result (λ v. StandsAt flags.now (state_of store.old.lists line.old marks.old names.old)
        (state_of store.new.lists line.new marks.new names.new) v) }
    ensures memory { OnErr result (StopsWithin flags.now (state_of store.old.lists line.old marks.old names.old)
        (state_of store.new.lists line.new marks.new names.new) (map production_of log.now)) }
    ensures after { IsAfter productions flags.now (state_of store.old.lists line.old marks.old names.old)
        (state_of store.new.lists line.new marks.new names.new) }
    ensures words { words_of names.new ≡ words_of names.old }
    ensures numbers { numbers_of (scraps_of store.new.lists line.new) ≡
        numbers_of (scraps_of store.old.lists line.old) }
    ensures sound { IsSoundLine store.new names.new line.new }
    ensures others { Keeps store.old.lists store.new.lists (roots_of line.old) (roots_of line.new) }
    ensures tokens { GrowsByProductions flags.now
        (state_of store.old.lists line.old marks.old names.old) store.old.lists
        (state_of store.new.lists line.new marks.new names.new) store.new.lists }
    ensures no_more { steps.new ≤ steps.old + ticks productions flags.now (state_of store.old.lists line.old marks.old
        names.old) }
    ensures bound { steps.new ≤ steps.old + (132 * length line.old + length line.old * reservings productions flags.now
        (state_of store.old.lists line.old marks.old names.old)) }
{
    let mut against = Against::over(log);
    let reduced = reduce_watched(line, store, names, marks, flags, &mut against, steps)?;
    Ok(against.verdict(reduced.is_some()))
}
