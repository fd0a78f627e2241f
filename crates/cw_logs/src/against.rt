//! Productions that are compared with a log, one after another.
ghost use Rattle.std.specs.Prelude.{◌≡◌, ◌≤◌, length, map, not, take};
ghost use Rattle.cw_leaves.specs.Spelling.{production_of};
ghost use Rattle.cw_logs.specs.Judging.{refused_by, told_alone, verdict_of};

use crate::checking::Verdict;
use cw_base::Memory;
use cw_leaves::LogItem;
use cw_rewrite::Watch;
use cw_table::RowNo;
use std::marker::Model;

/// A log, and how many of its productions were done.
#[derive(Drop)]
pub(crate) struct Against<'a> {
    log: &'a [LogItem],
    at: usize,
}

impl<'a> Model for Against<'a> {
    ghost use Rattle.std.specs.Prelude.{length, map, ◌≤◌};
    ghost use Rattle.cw_leaves.specs.Spelling.{production_of};
    ghost use Rattle.cw_logs.specs.Judging.{LogPosition};

    ghost Value = { LogPosition };

    ghost view = { λ a. record { log = map production_of a.log.now; at = a.at } };

    ghost invariant = { λ a. a.at ≤ length a.log.now };
}

impl<'a> Against<'a> {
    /// None was done.
    pub(crate) fn over(log: &'a [LogItem]) -> Against<'a>
        ensures { result ≡ record { log = map production_of log.now; at = 0 } }
    {
        Against { log, at: 0 }
    }

    /// Whether this is the next one.
    fn is_next(&self, row: RowNo, place: usize) -> bool
        ensures { result ≡ not (refused_by self.now.log self.now.at (record { number = row.number; place = place })) }
    {
        if self.at == self.log.len() {
            return false;
        }
        let item = self.log[self.at];
        item.row.number == row.number && item.place as usize == place
    }

    /// What is found where the walk came to its end, or was stopped.
    pub(crate) fn verdict(&self, ended: bool) -> Verdict
        ensures value { result ≡ verdict_of ended self.now }
        ensures within { self.now.at ≤ length self.now.log }
    {
        if ended && self.at == self.log.len() {
            return Verdict::Accepted;
        }
        Verdict::Rejected(self.at as u64)
    }
}

impl<'a> Watch for Against<'a> {
    ghost told = { λ a. told_alone (take a.at a.log) };

    ghost refuses = { λ a p. refused_by a.log a.at p };

    ghost basis = { λ a. a.log };

    fn hear(&mut self, row: RowNo, place: usize) -> Result<bool, Memory> {
        if self.is_next(row, place) {
            self.at += 1;
            return Ok(true);
        }
        Ok(false)
    }
}
