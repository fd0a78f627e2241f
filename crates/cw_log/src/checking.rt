//! The blocks of a log, checked one after another.
ghost use Rattle.std.specs.Prelude.{◌≤◌, All, IfOk, length, map};
ghost use Rattle.cw_base.specs.Text.{pieces_of};
ghost use Rattle.cw_logs.specs.Judging.{Judges};
ghost use Rattle.cw_leaves.specs.Spelling.{production_of};
ghost use Rattle.cw_logs.specs.Appending.{block_of};
ghost use Rattle.cw_logs.specs.Blocks.{AreIdents};
ghost use Rattle.cw_logs.specs.LogReading.{IsLog};
ghost use Rattle.cw_logs.specs.LogText.{IsFineBlock};
ghost use Rattle.cw_log.specs.Checking.{IsCheckedAs, told};

use crate::file::LOG_LIMIT;
use crate::making::scrap_line;
use cw_base::{Flags, Ledger, Memory, Steps};
use cw_leaves::TextLog;
use cw_logs::{Verdict, check_line, read_block};
use cw_names::Names;
use cw_scraps::Marks;
use cw_tokens::TokenStore;
use std::alloc::Global;

/// What is found of the blocks of a log.
#[derive(Clone, Copy, Debug, PartialEq, Eq)]
pub enum Checked {
    /// Each has the productions that its leaf lines tell: so many blocks, and so many productions.
    Accepted(u64, u64),
    /// The block of this number, from 1 on, is the first that hasn't; so many productions at its beginning are the
    /// same.
    Rejected(u64, u64),
}

// Compares the productions of a block with those that its leaf lines tell. The store is emptied first.
fn check_block<L: Ledger>(
    alloc: Global,
    log: &TextLog,
    names: &mut Names,
    store: &mut TokenStore,
    steps: &mut Steps<L>,
) -> Result<Verdict, Memory>
    requires idents { All (λ leaf. AreIdents names.old leaf.names) log.now.leaves }
    requires fine { IsFineBlock (block_of names.old log.now) }
    ensures { IfOk result (λ verdict. Judges (map production_of log.now.items) (told (block_of names.old log.now))
        verdict) }
{
    store.reset();
    let _distinct = names.len(); // (for the proof)
    let mut line = scrap_line(alloc, log.leaves.as_slice(), names, store)?;
    let mut marks = Marks::new_in(alloc);
    let flags = Flags::start();
    let items = log.items.as_slice();
    check_line(&mut line, store, names, &mut marks, &flags, items, steps)
}

/// Checks the blocks of a log, up to the first that is rejected.
pub(crate) fn check_log<L: Ledger>(
    alloc: Global,
    log: &[u8],
    steps: &mut Steps<L>,
) -> Result<Checked, Memory>
    requires log { IsLog (pieces_of log.now) }
    requires short { length log.now ≤ LOG_LIMIT }
    ensures { IfOk result (λ checked. IsCheckedAs (pieces_of log.now) checked) }
{
    let mut names = Names::with_words(alloc)?;
    let mut store = TokenStore::new_in(alloc);
    let mut rest = log;
    let mut texts = 0;
    let mut productions = 0;
    while !rest.is_empty() {
        let block = read_block(alloc, rest, &mut names)?;
        texts += 1;
        match check_block(alloc, &block.log, &mut names, &mut store, steps)? {
            Verdict::Accepted => productions += block.log.items.as_slice().len() as u64,
            Verdict::Rejected(after) => return Ok(Checked::Rejected(texts, after)),
        }
        rest = block.rest;
    }
    Ok(Checked::Accepted(texts, productions))
}
