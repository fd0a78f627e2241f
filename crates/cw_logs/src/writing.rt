//! The text of a log, appended to a buffer block by block.
ghost use Rattle.std.specs.Prelude.{◌≡◌, ◌∷◌, [], ◌++◌, OnOk, OnErr, decimal, length, map};
ghost use Rattle.std.specs.List.{flat_map};
ghost use Rattle.cw_leaves.specs.LeafLines.{text_at};
ghost use Rattle.cw_leaves.specs.Spelling.{production_of, spelled};
ghost use Rattle.cw_logs.specs.Appending.{Appends, block_of};
ghost use Rattle.cw_logs.specs.LogText.{blank_and, block_lines, ended, head_text, item_text, letter, line_text};

use crate::categories::cat_text;
use cw_base::{Bytes, Memory};
use cw_leaves::{LeafKind, LeafLine, LogItem, TextLog};
use cw_names::{NameId, Names};
use itoa::Buffer;

// The letter of a kind, and a blank.
fn kind_text(kind: LeafKind) -> &'static [u8]
    ensures { result.now ≡ letter kind ∷ 32 ∷ [] }
{
    match kind {
        LeafKind::B => b"b ",
        LeafKind::C => b"c ",
        LeafKind::I => b"i ",
        LeafKind::S => b"s ",
    }
}

// Appends a number in decimal digits. Most numbers have one or two, which cost less by themselves.
fn append_number(text: &mut Bytes, number: u64) -> Result<(), Memory>
    ensures ok { OnOk result (text.new ≡ text.old ++ decimal number) }
    ensures err { OnErr result (text.new ≡ text.old) }
{
    if number < 10 {
        return text.push(b'0' + number as u8);
    }
    if number < 100 {
        return text.append(&[b'0' + (number / 10) as u8, b'0' + (number % 10) as u8]);
    }
    text.append(Buffer::new().format(number).as_bytes())
}

// The text of a name; empty where there is no such name.
fn name_text(names: &Names, id: NameId) -> &[u8]
    ensures { result.now ≡ text_at names.now id.index }
{
    if id.index >= names.len() {
        return b"";
    }
    names.text(id)
}

// Appends names, each behind a blank.
fn append_names(text: &mut Bytes, names: &Names, ids: &[NameId]) -> Result<(), Memory>
    ensures { Appends (flat_map blank_and (map (λ id. text_at names.now id.index) ids.now)) text.old text.new result }
{
    for id in ids {
        text.push(b' ')?;
        text.append(name_text(names, *id))?;
    }
    Ok(())
}

// Appends the leaf line of a scrap.
fn append_leaf(text: &mut Bytes, names: &Names, leaf: &LeafLine) -> Result<(), Memory>
    ensures { Appends (ended (line_text (spelled names.now leaf.now))) text.old text.new result }
{
    text.append(kind_text(leaf.kind))?;
    text.append(cat_text(leaf.cat))?;
    append_names(text, names, leaf.names.as_slice())?;
    text.push(b'\n')
}

// Appends leaf lines.
fn append_leaves(text: &mut Bytes, names: &Names, leaves: &[LeafLine]) -> Result<(), Memory>
    ensures { Appends (flat_map ended (map line_text (map (spelled names.now) leaves.now))) text.old text.new result }
{
    for leaf in leaves {
        append_leaf(text, names, leaf)?;
    }
    Ok(())
}

// Appends the line of a production.
fn append_item(text: &mut Bytes, item: LogItem) -> Result<(), Memory>
    ensures { Appends (ended (item_text (production_of item))) text.old text.new result }
{
    text.push(b'P')?;
    append_number(text, u64::from(item.row.number))?;
    text.push(b' ')?;
    append_number(text, u64::from(item.place))?;
    text.push(b'\n')
}

// Appends the lines of productions.
fn append_items(text: &mut Bytes, items: &[LogItem]) -> Result<(), Memory>
    ensures { Appends (flat_map ended (map item_text (map production_of items.now))) text.old text.new result }
{
    for item in items {
        append_item(text, *item)?;
    }
    Ok(())
}

// Appends the head of a block of so many leaf lines.
fn append_head(text: &mut Bytes, count: usize) -> Result<(), Memory>
    ensures { Appends (ended (head_text count)) text.old text.new result }
{
    text.append(b"text ")?;
    append_number(text, count as u64)?;
    text.push(b'\n')
}

/// Appends the block of one text. A name that isn't among these is written as an empty one. After `Memory` a beginning
/// of the block is appended.
pub fn append_block(text: &mut Bytes, names: &Names, log: &TextLog) -> Result<(), Memory>
    ensures { Appends (flat_map ended (block_lines (block_of names.now log.now))) text.old text.new result }
{
    let leaves = log.leaves.as_slice();
    append_head(text, leaves.len())?;
    append_leaves(text, names, leaves)?;
    append_items(text, log.items.as_slice())?;
    text.append(b"end\n")
}
