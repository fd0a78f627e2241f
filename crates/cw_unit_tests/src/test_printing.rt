//! How tests print a flattened translation: the rules of runs and of trimming, for texts whose inner texts have
//! no runs.
use cw_base::{Bytes, Memory};
use cw_tokens::{FlatItem, FlatTokens};
use cw_trees::Control;
use std::alloc::Global;

/// The control of an item that goes into a run.
pub fn run_control(item: FlatItem) -> Option<Control> {
    match item {
        FlatItem::Control(control) if is_of_runs(control) => Some(control),
        _ => None,
    }
}

fn is_of_runs(control: Control) -> bool {
    is_break(control)
        || matches!(
            control,
            Control::Cancel | Control::Backup | Control::Indent | Control::Outdent
        )
}

fn is_break(control: Control) -> bool {
    matches!(
        control,
        Control::Blank | Control::OptionalBreak | Control::Break | Control::BigBreak
    )
}

fn breaks(item: FlatItem) -> bool {
    matches!(item, FlatItem::Control(control) if is_break(control))
}

fn gaps(item: FlatItem) -> bool {
    matches!(item, FlatItem::Control(control) if is_of_runs(control) || control == Control::Wall)
}

/// The items without marks that print nothing, and without the breaks with which they begin.
fn without_first_breaks(alloc: Global, items: &FlatTokens) -> Result<Vec<FlatItem>, Memory> {
    let mut kept = Vec::new(alloc);
    let mut begins = true;
    for i in 0..items.len() {
        let item = items.item(i);
        if item != FlatItem::Control(Control::Inserted) && !(begins && breaks(item)) {
            kept.push(item)?;
            begins = begins && gaps(item);
        }
    }
    Ok(kept)
}

/// How many of the items stand before the gap with which they end.
fn before_last_gap(items: &[FlatItem]) -> usize {
    let mut end = 0;
    for (i, item) in items.iter().enumerate() {
        if !gaps(*item) {
            end = i + 1;
        }
    }
    end
}

/// The items without marks that print nothing, and without the breaks with which they begin or end.
pub fn trimmed(alloc: Global, items: &FlatTokens) -> Result<Vec<FlatItem>, Memory> {
    let begun = without_first_breaks(alloc, items)?;
    let end = before_last_gap(&begun);
    let mut kept = Vec::new(alloc);
    for (i, item) in begun.iter().enumerate() {
        if i < end || !breaks(*item) {
            kept.push(*item)?;
        }
    }
    Ok(kept)
}

/// A run: its indents, and without a Cancel its strongest break and its backup.
pub fn put_run(out: &mut Bytes, run: &[Control]) -> Result<(), Memory> {
    let mut bytes: &[u8] = b"";
    let mut strength = 0;
    let mut backs_up = false;
    let mut cancels = false;
    for control in run {
        match *control {
            Control::Indent => out.append(b"\\1")?,
            Control::Outdent => out.append(b"\\2")?,
            Control::Cancel => cancels = true,
            Control::Backup => backs_up = true,
            other => {
                let (next, text) = break_of(other);
                if next > strength {
                    strength = next;
                    bytes = text;
                }
            }
        }
    }
    if cancels {
        return Ok(());
    }
    out.append(bytes)?;
    if backs_up {
        out.append(b"\\4")?;
    }
    Ok(())
}

/// The strength of a break, and what it prints.
fn break_of(control: Control) -> (u8, &'static [u8]) {
    match control {
        Control::BigBreak => (4, b"\\7\n"),
        Control::Break => (3, b"\\6\n"),
        Control::OptionalBreak => (2, b"\\5"),
        Control::Blank => (1, b" "),
        _ => (0, b""),
    }
}

/// What a control prints outside of runs.
pub fn put_sign(out: &mut Bytes, control: Control) -> Result<(), Memory> {
    match control {
        Control::OptionalLineBreak0 => out.append(b"\\30"),
        Control::OptionalLineBreak9 => out.append(b"\\39"),
        Control::ThinSpace => out.append(b"\\,"),
        Control::OpenBrace => out.append(b"{"),
        Control::CloseBrace => out.append(b"}"),
        Control::OpenRelation => out.append(b"\\MRL{"),
        Control::ToMath => out.append(b"${}"),
        Control::ToText => out.append(b"{}$"),
        Control::Dollar => out.append(b"$"),
        Control::CommentEnd => out.append(b"}"),
        _ => Ok(()),
    }
}
