//! The blocks of a log, read one after another. Their names are added to a list of names.
ghost use Rattle.std.specs.Prelude.{◌≡◌, ◌≢◌, [], ◌≤◌, IfOk, length};
ghost use Rattle.cw_base.specs.Text.{pieces_of};
ghost use Rattle.cw_logs.specs.Blocks.{HasBlock, IsExtended};
ghost use Rattle.cw_logs.specs.model.Blocks.{HasItems, HasLeafLine, HasLeaves, HasNames};
ghost use Rattle.cw_logs.specs.model.Blocks.{IsLeafLine};
ghost use Rattle.cw_logs.specs.LogReading.{IsLog, Reads};
ghost use Rattle.cw_logs.specs.declared.reading.Spot.TheVariants.{Outside, Inside};

use crate::items::{head_in, item_in};
use crate::leaves::leaf_in;
use crate::reading::cut_line;
use crate::words::next_name;
use cw_base::Memory;
use cw_leaves::{LeafLine, LeafLines, LogItems, NameList, TextLog};
use cw_names::{EntryKind, Names};
use std::alloc::Global;

/// The log of one text, and what stands behind its block.
#[derive(Drop)]
pub struct ReadBlock<'a> {
    pub log: TextLog,
    pub rest: &'a [u8],
}

// Leaf lines, and what stands behind them.
#[derive(Drop)]
pub(crate) struct ReadLeaves<'a> {
    pub leaves: LeafLines,
    pub rest: &'a [u8],
}

// Productions, and what stands behind the end of their block.
#[derive(Drop)]
pub(crate) struct ReadItems<'a> {
    pub items: LogItems,
    pub rest: &'a [u8],
}

// Adds identifiers that stand each behind a blank.
fn read_names(alloc: Global, text: &[u8], names: &mut Names) -> Result<NameList, Memory>
    ensures kept { IsExtended names.old names.new }
    ensures ok { IfOk result (λ ids. HasNames names.old names.new text.now ids) }
{
    let mut ids = Vec::new(alloc);
    let mut rest = text;
    while let Some(cut) = next_name(rest) {
        let id = names.find_or_add(EntryKind::Ident, cut.word)?;
        ids.push(id)?;
        rest = cut.rest;
    }
    Ok(NameList::from_vec(ids))
}

// The leaf line that a line is.
fn read_leaf(alloc: Global, line: &[u8], names: &mut Names) -> Result<LeafLine, Memory>
    requires { IsLeafLine line.now }
    ensures kept { IsExtended names.old names.new }
    ensures ok { IfOk result (λ leaf. HasLeafLine names.old names.new line.now leaf) }
{
    let Some(leaf) = leaf_in(line) else {
        unreachable!()
    };
    let ids = read_names(alloc, leaf.names, names)?;
    Ok(LeafLine {
        kind: leaf.kind,
        cat: leaf.cat,
        names: ids,
    })
}

// The leaf lines of a block.
fn read_leaves<'a>(
    alloc: Global,
    text: &'a [u8],
    count: u32,
    names: &mut Names,
) -> Result<ReadLeaves<'a>, Memory>
    requires { Reads (Inside count) (pieces_of text.now) Outside }
    ensures kept { IsExtended names.old names.new }
    ensures ok { IfOk result (λ read. HasLeaves names.old names.new count text.now read) }
{
    let mut leaves = Vec::new(alloc);
    let mut rest = text;
    for _ in 0..count {
        let cut = cut_line(rest);
        let leaf = read_leaf(alloc, cut.word, names)?;
        leaves.push(leaf)?;
        rest = cut.rest;
    }
    Ok(ReadLeaves {
        leaves: LeafLines::from_vec(leaves),
        rest,
    })
}

// The productions of a block, up to its end.
fn read_items(alloc: Global, text: &[u8]) -> Result<ReadItems<'_>, Memory>
    requires { Reads (Inside 0) (pieces_of text.now) Outside }
    ensures { IfOk result (λ read. HasItems text.now read) }
{
    let mut items = Vec::new(alloc);
    let mut cut = cut_line(text);
    while let Some(item) = item_in(cut.word) {
        items.push(item)?;
        cut = cut_line(cut.rest);
    }
    Ok(ReadItems {
        items: LogItems::from_vec(items),
        rest: cut.rest,
    })
}

/// Reads the first block of a log that isn't empty. Its identifiers are added to the names; after `Memory` some of
/// them may be.
pub fn read_block<'a>(
    alloc: Global,
    log: &'a [u8],
    names: &mut Names,
) -> Result<ReadBlock<'a>, Memory>
    requires some { log.now ≢ [] }
    requires log { IsLog (pieces_of log.now) }
    ensures kept { IsExtended names.old names.new }
    ensures ok { IfOk result (λ read. HasBlock names.old names.new log.now read) }
{
    let head = cut_line(log);
    let Some(count) = head_in(head.word) else {
        unreachable!()
    };
    let leaves = read_leaves(alloc, head.rest, count, names)?;
    let items = read_items(alloc, leaves.rest)?;
    let log = TextLog {
        leaves: leaves.leaves,
        items: items.items,
    };
    Ok(ReadBlock {
        log,
        rest: items.rest,
    })
}
