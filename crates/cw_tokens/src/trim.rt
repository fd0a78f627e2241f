//! The trimming of a flat list in its own place.
ghost use Rattle.std.specs.Prelude.{◌≡◌, ◌&&◌, ◌||◌, ◌≤◌, length, reverse, take, true};
ghost use Rattle.cw_trees.specs.Flat.{begins_after, is_break, is_gap, is_inserted};
ghost use Rattle.cw_trees.specs.Flat.{trim_back, trim_front, trimmed_items, without_inserted};
ghost use Rattle.cw_tokens.specs.FlatItems.{item_is, items_are};
ghost use Rattle.cw_tokens.specs.model.Trimming.{ends_before};

use crate::flat::FlatItem;
use cw_trees::Control;

/// Leaves out the marks that print nothing, and the breaks and blanks with which the text and its inner texts begin
/// or end.
pub(crate) fn trim_items(items: &mut Vec<FlatItem>)
    ensures { items_are items.new.items ≡ trimmed_items (items_are items.old.items) }
{
    let begun = keep_from_front(items);
    items.truncate(begun);
    items.reverse();
    let kept = keep_from_back(items);
    items.truncate(kept);
    items.reverse();
}

// Moves the items to the front that stay when the breaks with which texts begin are left out, and says how many stay.
fn keep_from_front(items: &mut [FlatItem]) -> usize
    ensures within { result ≤ length items.new }
    ensures kept { items_are (take result items.new) ≡ trim_front true (without_inserted (items_are items.old)) }
{
    let mut begins = true;
    let mut kept = 0;
    for i in 0..items.len() {
        let item = items[i];
        if !drops(begins, item) {
            items[kept] = item;
            kept += 1;
            begins = still_begins(begins, item);
        }
    }
    kept
}

// The same for the breaks with which texts end, in a list whose last item is first.
fn keep_from_back(items: &mut [FlatItem]) -> usize
    ensures within { result ≤ length items.new }
    ensures kept { reverse (items_are (take result items.new)) ≡ trim_back (reverse (items_are items.old)) }
{
    let mut ends = true;
    let mut kept = 0;
    for i in 0..items.len() {
        let item = items[i];
        if !drops_last(ends, item) {
            items[kept] = item;
            kept += 1;
        }
        ends = already_ends(ends, item);
    }
    kept
}

#[inline(always)]
pub(crate) fn inserted(item: FlatItem) -> bool
    ensures { result ≡ is_inserted (item_is item) }
{
    match item {
        FlatItem::Control(Control::Inserted) => true,
        _ => false,
    }
}

#[inline(always)]
pub(crate) fn breaks(item: FlatItem) -> bool
    ensures { result ≡ is_break (item_is item) }
{
    match item {
        FlatItem::Control(
            Control::Blank | Control::OptionalBreak | Control::Break | Control::BigBreak,
        ) => true,
        _ => false,
    }
}

// Walls and the controls of runs.
#[inline(always)]
pub(crate) fn gaps(item: FlatItem) -> bool
    ensures { result ≡ is_gap (item_is item) }
{
    match item {
        FlatItem::Control(
            Control::Blank
            | Control::OptionalBreak
            | Control::Break
            | Control::BigBreak
            | Control::Cancel
            | Control::Backup
            | Control::Indent
            | Control::Outdent
            | Control::Wall,
        ) => true,
        _ => false,
    }
}

// Whether an item is left out from the front.
#[inline(always)]
pub(crate) fn drops(begins: bool, item: FlatItem) -> bool
    ensures { result ≡ (is_inserted (item_is item) || (begins && is_break (item_is item))) }
{
    inserted(item) || (begins && breaks(item))
}

// Whether an item is left out from the back.
fn drops_last(ends: bool, item: FlatItem) -> bool
    ensures { result ≡ (is_break (item_is item) && ends) }
{
    breaks(item) && ends
}

// Whether a text only has gaps up to behind this item.
#[inline(always)]
pub(crate) fn still_begins(begins: bool, item: FlatItem) -> bool
    ensures { result ≡ begins_after begins (item_is item) }
{
    match item {
        FlatItem::Open => true,
        _ => begins && gaps(item),
    }
}

// Whether a text only has gaps from this item on.
fn already_ends(ends: bool, item: FlatItem) -> bool
    ensures { result ≡ ends_before ends (item_is item) }
{
    match item {
        FlatItem::Close => true,
        _ => gaps(item) && ends,
    }
}
