//! A flattened tree: its items in order, as they stand or trimmed in the same walk.
ghost use Rattle.std.specs.Prelude.{◌≡◌, ◌+◌, ◌-◌, ◌<◌, ◌≤◌, List, ◌++◌, length, IfOk, IfSome, OnOk, Some, IsTrue};
ghost use Rattle.std.specs.Prelude.{◌↔◌};
ghost use Rattle.std.specs.Prelude.{[], reverse, slice_get};
ghost use Rattle.cw_trees.specs.Flat.{Item, flat, trimmed_items};
ghost use Rattle.cw_tokens.specs.Shapes.{shape, unfolded};
ghost use Rattle.cw_tokens.specs.model.Stored.{cut, last_end, IsAscending, IsLinked};
ghost use Rattle.cw_tokens.specs.FlatItems.{items_are};
ghost use Rattle.cw_tokens.specs.model.FlatItems.{closing};
ghost use Rattle.cw_tokens.specs.model.Ahead.{GoesAbove, IsLoneWord, Lays, ReferWithin, closing_of};
ghost use Rattle.cw_tokens.specs.References.{IsTied};
ghost use Rattle.cw_tokens.specs.Trimming.{StandsFor};

use crate::store::Link;
use crate::token::Token;
use crate::trim::trim_items;
use crate::trimmer::Trimmer;
use crate::walk::{FlatPart, link_at, list_at, part_of, token_before};
use cw_base::Memory;
use cw_names::NameId;
use cw_trees::Control;
use std::alloc::Global;
use std::marker::Model;

/// An item of a flattened translation.
#[derive(Clone, Copy, PartialEq, Eq, Debug)]
pub enum FlatItem {
    /// A token of the text.
    Source(u32),
    /// An identifier.
    Ident(NameId, u32),
    /// A reserved word.
    Reserved(NameId, u32),
    /// What is printed beside the tokens of the text.
    Control(Control),
    /// The beginning of an inner text.
    Open,
    /// The end of an inner text.
    Close,
}

/// A flattened translation: its items in order.
#[derive(Drop)]
pub struct FlatTokens {
    items: Vec<FlatItem>,
}

impl Model for FlatTokens {
    ghost use Rattle.std.specs.Prelude.{List};
    ghost use Rattle.cw_tokens.specs.declared.flat.FlatItem.{FlatItem};

    ghost Value = { List FlatItem };

    ghost view = { λ f. f.items.items };
}

impl FlatTokens {
    pub(crate) fn of(items: Vec<FlatItem>) -> FlatTokens
        ensures { result ≡ items.items }
    {
        FlatTokens { items }
    }

    /// The number of items.
    pub fn len(&self) -> usize
        ensures { result ≡ length self.now }
    {
        self.items.len()
    }

    /// Whether there is no item.
    pub fn is_empty(&self) -> bool
        ensures { IsTrue result ↔ (length self.now ≡ 0) }
    {
        self.items.is_empty()
    }

    /// An item.
    pub fn item(&self, i: usize) -> FlatItem
        requires { i < length self.now }
        ensures { slice_get self.now i ≡ Some result }
    {
        self.items[i]
    }

    /// All items.
    #[inline(always)]
    pub fn items(&self) -> &[FlatItem]
        ensures { result.now ≡ self.now }
    {
        self.items.as_slice()
    }

    /// Leaves out the marks that print nothing, and the breaks and blanks with which the text and its inner texts begin
    /// or end. It takes no memory.
    pub fn trim(&mut self)
        ensures { items_are self.new ≡ trimmed_items (items_are self.old) }
    {
        trim_items(&mut self.items);
    }
}

/// Flattens the tree of a list, behind the items that `out` holds.
pub fn flatten(
    tokens: &[Token],
    ends: &[usize],
    links: &[Link],
    root: usize,
    out: &mut Vec<FlatItem>,
) -> Result<(), Memory>
    requires ascending { IsAscending 0 ends.now }
    requires within { last_end 0 ends.now ≤ length tokens.now }
    requires linked { IsLinked (cut 0 ends.now tokens.now) links.now }
    requires links { length links.now ≡ length ends.now }
    requires root { root < length ends.now }
    ensures { OnOk result (items_are out.new.items ≡ items_are out.old.items ++
        flat (unfolded (cut 0 ends.now tokens.now) root)) }
{
    let mut list = root;
    let mut place = 0;
    let mut items = list_at(tokens, ends, list);
    loop {
        if place < items.len() {
            match part_of(items[place]) {
                FlatPart::Leaf(item) => {
                    out.push(item)?;
                    place += 1;
                }
                FlatPart::Below(below) => {
                    list = below;
                    place = 0;
                    items = list_at(tokens, ends, list);
                }
                FlatPart::InnerBelow(below) => {
                    out.push(FlatItem::Open)?;
                    list = below;
                    place = 0;
                    items = list_at(tokens, ends, list);
                }
            }
        } else if list == root {
            return Ok(());
        } else {
            let up = link_at(links, list);
            close(token_before(tokens, ends, up), out)?;
            list = up.list;
            place = up.place;
            items = list_at(tokens, ends, list);
        }
    }
}

/// Closes the bracket of an inner text, if this token refers to one.
fn close(token: Token, out: &mut Vec<FlatItem>) -> Result<(), Memory>
    ensures { OnOk result (items_are out.new.items ≡ items_are out.old.items ++ closing (shape token)) }
{
    if let Token::Inner(_) = token {
        out.push(FlatItem::Close)?;
    }
    Ok(())
}

// What is still to come of a list while one below it is walked: the tokens behind the one that refers to that list, and
// how many inner texts end before them, none or one. A number, since a bool is copied with bytes that mean nothing.
#[derive(Clone, Copy)]
struct Above<'a> {
    rest: &'a [Token],
    closes: usize,
}

// Most trees are less deep.
const DEEP: usize = 32;

/// Flattens the tree of a list and trims it in the same walk.
pub fn flatten_trimmed(
    tokens: &[Token],
    ends: &[usize],
    root: usize,
    alloc: Global,
) -> Result<FlatTokens, Memory>
    requires ascending { IsAscending 0 ends.now }
    requires within { last_end 0 ends.now ≤ length tokens.now }
    requires tied { IsTied (cut 0 ends.now tokens.now) }
    requires root { root < length ends.now }
    ensures { IfOk result (λ items.
        items_are items ≡ trimmed_items (flat (unfolded (cut 0 ends.now tokens.now) root))) }
{
    let mut out = Trimmer::with_room(alloc, tokens.len())?;
    let mut above: Vec<Above> = Vec::new(alloc);
    let mut rest = list_at(tokens, ends, root);
    loop {
        lay_rest(tokens, ends, rest, &mut above, &mut out)?;
        match above.pop() {
            Some(up) => {
                close_trimmed(up.closes, &mut out)?;
                rest = up.rest;
            }
            None => return Ok(out.done()),
        }
    }
}

/// Flattens what is to come of a list, and goes into the lists below it on the way, up to where one ends. What is then
/// still to come of the others stands above.
#[inline(always)]
fn lay_rest<'a>(
    tokens: &'a [Token],
    ends: &[usize],
    first: &'a [Token],
    above: &mut Vec<Above<'a>>,
    out: &mut Trimmer,
) -> Result<(), Memory>
    requires ascending { IsAscending 0 ends.now }
    requires within { last_end 0 ends.now ≤ length tokens.now }
    requires tied { IsTied (cut 0 ends.now tokens.now) }
    requires refer { ReferWithin (length (cut 0 ends.now tokens.now)) first.now }
    ensures { OnOk result (Lays (cut 0 ends.now tokens.now) first.now (reverse above.old.items) out.old
        [] (reverse above.new.items) out.new) }
{
    let mut rest = first;
    while let [token, behind @ ..] = rest {
        // An arm for each kind, so that the trimmer needn't ask for it again.
        match *token {
            Token::Source(number, _) => {
                out.push(FlatItem::Source(number))?;
                rest = behind;
            }
            Token::Ident(name, number) => {
                out.push(FlatItem::Ident(name, number))?;
                rest = behind;
            }
            Token::Reserved(name, number, _) => {
                out.push(FlatItem::Reserved(name, number))?;
                rest = behind;
            }
            Token::Control(control) => {
                out.push(FlatItem::Control(control))?;
                rest = behind;
            }
            Token::List(below) => {
                let list = list_at(tokens, ends, below.index);
                match lone_word(list) {
                    Some(word) => {
                        out.push(word)?;
                        rest = behind;
                    }
                    None => {
                        put_above(above, behind, 0)?;
                        rest = list;
                    }
                }
            }
            Token::Inner(below) => {
                out.push(FlatItem::Open)?;
                put_above(above, behind, 1)?;
                rest = list_at(tokens, ends, below.index);
            }
        }
    }
    Ok(())
}

/// The item of a list of one token that refers to none and is no control, as most lists are.
#[inline(always)]
fn lone_word(list: &[Token]) -> Option<FlatItem>
    ensures { IfSome result (IsLoneWord list.now) }
{
    let [only] = list else {
        return None;
    };
    match *only {
        Token::Source(number, _) => Some(FlatItem::Source(number)),
        Token::Ident(name, number) => Some(FlatItem::Ident(name, number)),
        Token::Reserved(name, number, _) => Some(FlatItem::Reserved(name, number)),
        Token::Control(_) | Token::List(_) | Token::Inner(_) => None,
    }
}

/// Puts what is still to come of a list above the one below it. Of a list that ends with that one nothing is to come.
#[inline(always)]
fn put_above<'a>(above: &mut Vec<Above<'a>>, rest: &'a [Token], closes: usize) -> Result<(), Memory>
    ensures { OnOk result (GoesAbove rest.now closes (reverse above.old.items) (reverse above.new.items)) }
{
    if closes == 0 && rest.is_empty() {
        return Ok(());
    }
    if above.len() == above.capacity() {
        above.reserve(DEEP)?;
    }
    above.push_reserved(Above { rest, closes });
    Ok(())
}

/// Closes the bracket of an inner text that has ended, where the items are trimmed.
fn close_trimmed(closes: usize, out: &mut Trimmer) -> Result<(), Memory>
    ensures { OnOk result ((given : List Item) → StandsFor out.old given
        → StandsFor out.new (given ++ closing_of closes)) }
{
    if closes == 0 {
        return Ok(());
    }
    out.push(FlatItem::Close)
}
