//! The logs of texts, written as these are reduced.
ghost use Rattle.std.specs.Prelude.{◌≡◌, ◌<◌, Bool, false, [], length, slice_get, Some, refl};

use crate::telling::{leaf_line, leaf_lines};
use cw_base::Memory;
use cw_leaves::{LeafLines, LogItem, LogItems, TextLog};
use cw_rewrite::Watch;
use cw_scraps::{Leaf, ScrapLine};
use cw_table::RowNo;
use cw_tokens::TokenStore;
use cw_translator::Recorder;
use std::alloc::Global;
use std::marker::Model;
use std::mem;

/// The logs of the texts that have ended, in order; and what is told so far of the text that is reduced.
#[derive(Drop)]
pub struct ProductionLog {
    texts: Vec<TextLog>,
    leaves: LeafLines,
    items: Vec<LogItem>,
    alloc: Global,
}

impl Model for ProductionLog {
    ghost use Rattle.cw_log.specs.Logged.{LoggedTexts};

    ghost Value = { LoggedTexts };

    ghost view = { λ l. record { ended = l.texts.items; leaves = l.leaves; items = l.items.items } };
}

impl ProductionLog {
    /// No text has ended.
    pub fn new_in(alloc: Global) -> ProductionLog
        ensures { result ≡ record { ended = []; leaves = []; items = [] } }
    {
        ProductionLog {
            texts: Vec::new(alloc),
            leaves: LeafLines::from_vec(Vec::new(alloc)),
            items: Vec::new(alloc),
            alloc,
        }
    }

    /// How many texts have ended.
    pub fn len(&self) -> usize
        ensures { result ≡ length self.now.ended }
    {
        self.texts.len()
    }

    /// The log of a text.
    pub fn text_log(&self, i: usize) -> &TextLog
        requires { i < length self.now.ended }
        ensures { slice_get self.now.ended i ≡ Some result.now }
    {
        &self.texts[i]
    }
}

impl Watch for ProductionLog {
    ghost use Rattle.std.specs.Prelude.{Some, map};
    ghost use Rattle.cw_leaves.specs.Spelling.{production_of};

    ghost told = { λ l. Some (record { items = map production_of l.items; begun = l.leaves; ended = l.ended }) };

    ghost refuses = { λ l p. false };

    ghost basis = { λ l. [] };

    fn hear(&mut self, row: RowNo, place: usize) -> Result<bool, Memory> {
        let Ok(place) = u32::try_from(place) else {
            return Err(Memory);
        };
        self.items.push(LogItem { row, place })?;
        Ok(true)
    }
}

impl Recorder for ProductionLog {
    ghost goes_on = { λ l p. refl };

    fn begin(&mut self, line: &ScrapLine, store: &TokenStore) -> Result<(), Memory> {
        self.leaves = leaf_lines(self.alloc, line, store)?;
        self.items.clear();
        Ok(())
    }

    fn begin_alone(&mut self, leaf: &Leaf, store: &TokenStore) -> Result<(), Memory> {
        let line = leaf_line(self.alloc, leaf.cat, leaf.list, store)?;
        let mut lines = Vec::with_capacity(self.alloc, 1)?;
        lines.push(line)?;
        self.leaves = LeafLines::from_vec(lines);
        self.items.clear();
        Ok(())
    }

    fn end(&mut self) -> Result<(), Memory> {
        let leaves = mem::replace(&mut self.leaves, LeafLines::from_vec(Vec::new(self.alloc)));
        let items = mem::replace(&mut self.items, Vec::new(self.alloc));
        let items = LogItems::from_vec(items);
        self.texts.push(TextLog { leaves, items })?;
        Ok(())
    }
}
