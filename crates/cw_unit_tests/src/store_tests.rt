//! Tests of the store: lists in lists, inner texts, searches, trimming, and capacity that is refused.
ghost use Rattle.std.specs.Prelude.{◌≡◌, ℕ, ◌+◌, ◌<◌, ◌≤◌, ◌++◌, ◌∷◌, [], length};
ghost use Rattle.cw_trees.specs.declared.Control.TheVariants as controls;
ghost use Rattle.cw_tokens.specs.declared.token.Token.TheVariants as tokens;
ghost use Rattle.cw_base.specs.declared.mode.MathMode.TheVariants as MathModes;
ghost use Rattle.cw_tokens.specs.References.{IsUnreferred};
ghost use Rattle.cw_tokens.specs.Shapes.{shape, ref_of};

use cw_base::{Cat, MathMode, Memory};
use cw_names::{NameId, Names};
use cw_tokens::{FlatItem, FlatTokens, ListId, Token, TokenStore};
use cw_trees::Control;
use std::alloc::Global;
use std::test::Fail;

// A list of a break and an identifier.
fn word(store: &mut TokenStore, name: NameId) -> ListId
    requires idle { store.old.building ≡ None }
    requires room { 3 ≤ store.old.spare }
    ensures lists { store.new.lists ≡ store.old.lists ++ (tokens.Control controls.Break ∷ tokens.Ident name 7 ∷ []) ∷
        [] }
    ensures list { result.index ≡ length store.old.lists }
    ensures idle { store.new.building ≡ None }
    ensures spare { store.new.spare + 3 ≡ store.old.spare }
{
    store.begin();
    store.push(Token::Control(Control::Break));
    store.push(Token::Ident(name, 7));
    store.finish()
}

// A list that holds another, and a source token behind it.
fn around(store: &mut TokenStore, below: Token) -> ListId
    requires idle { store.old.building ≡ None }
    requires room { 3 ≤ store.old.spare }
    requires below { (x : ℕ) → ref_of (shape below) ≡ Some x → (x < length store.old.lists) ×
        IsUnreferred store.old.lists x }
    ensures list { result.index ≡ length store.old.lists }
    ensures lists { store.new.lists ≡ store.old.lists ++ (below ∷ tokens.Source 9 MathModes.Math ∷ []) ∷ [] }
    ensures idle { store.new.building ≡ None }
    ensures spare { store.new.spare + 3 ≡ store.old.spare }
{
    store.begin();
    store.push(below);
    store.push(Token::Source(9, MathMode::Math));
    store.finish()
}

// A list of two tokens that refer to none.
fn pair(store: &mut TokenStore, first: Token, second: Token) -> ListId
    requires idle { store.old.building ≡ None }
    requires room { 3 ≤ store.old.spare }
    requires first { ref_of (shape first) ≡ None }
    requires second { ref_of (shape second) ≡ None }
    ensures list { result.index ≡ length store.old.lists }
    ensures lists { length store.new.lists ≡ length store.old.lists + 1 }
    ensures idle { store.new.building ≡ None }
    ensures spare { store.new.spare + 3 ≡ store.old.spare }
{
    store.begin();
    store.push(first);
    store.push(second);
    store.finish()
}

// Whether a flattened list has these items.
fn has_items(flat: &FlatTokens, wanted: &[FlatItem]) -> bool {
    if flat.len() != wanted.len() {
        return false;
    }
    for (i, item) in wanted.iter().enumerate() {
        if flat.item(i) != *item {
            return false;
        }
    }
    true
}

// Whether a list has these items when it is flattened.
pub(crate) fn is_flat(
    alloc: Global,
    store: &TokenStore,
    id: ListId,
    wanted: &[FlatItem],
) -> Result<bool, Memory>
    requires list { id.index < length store.now.lists }
{
    let flat = store.flat(alloc, id)?;
    Ok(has_items(&flat, wanted))
}

// The capacity that two lists take, what searches answer and reservings, and whether the outer list is flattened.
fn list_in_list(
    alloc: Global,
    store: &mut TokenStore,
    names: &Names,
    name: NameId,
) -> Result<(usize, [Option<NameId>; 4], bool), Memory>
    requires empty { store.old.lists ≡ [] }
    requires idle { store.old.building ≡ None }
{
    store.reserve(6)?;
    let room = store.spare();
    let inside = word(store, name);
    let outside = around(store, Token::List(inside));
    let taken = room - store.spare();
    let found = [
        store.first_ident(outside, names),
        store.bare_name(outside),
        store.reserve_ident(outside, names),
        store.first_ident(outside, names),
    ];
    let wanted = [
        FlatItem::Control(Control::Break),
        FlatItem::Reserved(name, 7),
        FlatItem::Source(9),
    ];
    Ok((taken, found, is_flat(alloc, store, outside, &wanted)?))
}

fn list_inside_another(
    alloc: Global,
    name: NameId,
) -> Result<(usize, [Option<NameId>; 4], bool), Memory> {
    let names = Names::with_words(alloc)?;
    let mut store = TokenStore::new_in(alloc);
    list_in_list(alloc, &mut store, &names, name)
}

#[test]
fn a_list_inside_another_is_laid_flat_and_reserved_in_place(rt: HostRuntime) -> Result<(), Fail> {
    let name = NameId { index: 50 };
    let seen = list_inside_another(rt.alloc(), name)?;
    assert_eq!(rt; seen, (6, [Some(name), None, Some(name), None], true));
    Ok(())
}

// What is found in a list around an inner text, whether it is empty when it is flattened, and whether it has its items
// then.
fn inner_in_list(
    alloc: Global,
    store: &mut TokenStore,
    names: &Names,
) -> Result<(Option<NameId>, bool, bool), Memory>
    requires empty { store.old.lists ≡ [] }
    requires idle { store.old.building ≡ None }
{
    store.reserve(6)?;
    let inside = word(store, NameId { index: 50 });
    let outside = around(store, Token::Inner(inside));
    let found = store.first_ident(outside, names);
    let wanted = [
        FlatItem::Open,
        FlatItem::Control(Control::Break),
        FlatItem::Ident(NameId { index: 50 }, 7),
        FlatItem::Close,
        FlatItem::Source(9),
    ];
    let is_empty = store.flat(alloc, outside)?.is_empty();
    Ok((found, is_empty, is_flat(alloc, store, outside, &wanted)?))
}

fn list_around_inner_text(alloc: Global) -> Result<(Option<NameId>, bool, bool), Memory> {
    let names = Names::with_words(alloc)?;
    let mut store = TokenStore::new_in(alloc);
    inner_in_list(alloc, &mut store, &names)
}

#[test]
fn an_inner_text_stands_between_brackets_and_is_not_searched(rt: HostRuntime) -> Result<(), Fail> {
    let seen = list_around_inner_text(rt.alloc())?;
    assert_eq!(rt; seen, (None, false, true));
    Ok(())
}

// What is found behind a word like `case`, behind the mark, behind a word like `int` and behind a wall.
fn found_in(
    store: &mut TokenStore,
    names: &Names,
    name: NameId,
) -> Result<[Option<NameId>; 4], Memory>
    requires idle { store.old.building ≡ None }
{
    store.reserve(12)?;
    let word = Token::Ident(name, 2);
    let case = pair(store, Token::Reserved(name, 1, Cat::CaseLike), word);
    let mark = pair(store, Token::Control(Control::Inserted), word);
    let kind = pair(store, Token::Reserved(name, 1, Cat::RawInt), word);
    let wall = pair(store, Token::Control(Control::Wall), word);
    Ok([
        store.first_ident(case, names),
        store.first_ident(mark, names),
        store.first_ident(kind, names),
        store.first_ident(wall, names),
    ])
}

fn first_idents(alloc: Global, name: NameId) -> Result<[Option<NameId>; 4], Memory> {
    let names = Names::with_words(alloc)?;
    let mut store = TokenStore::new_in(alloc);
    found_in(&mut store, &names, name)
}

#[test]
fn a_search_stops_at_a_word_like_case_and_at_the_mark(rt: HostRuntime) -> Result<(), Fail> {
    let name = NameId { index: 50 };
    let found = first_idents(rt.alloc(), name)?;
    assert_eq!(rt; found, [None, None, Some(name), Some(name)]);
    Ok(())
}

// Whether too much capacity is refused, whether a store that is emptied has all of it but for one list's beginning, and
// whether it has it behind the refusal.
fn empty(store: &mut TokenStore) -> Result<[bool; 3], Memory>
    requires idle { store.old.building ≡ None }
{
    store.reserve(5)?;
    let room = store.spare();
    let _list = word(store, NameId { index: 50 });
    store.begin();
    store.reset();
    let emptied = store.spare();
    let refused = store.reserve(usize::MAX) == Err(Memory);
    Ok([refused, emptied + 4 == room, store.spare() == emptied])
}

fn emptied(alloc: Global) -> Result<[bool; 3], Memory> {
    let mut store = TokenStore::new_in(alloc);
    empty(&mut store)
}

#[test]
fn a_store_that_is_emptied_keeps_its_room(rt: HostRuntime) -> Result<(), Fail> {
    assert_eq!(rt; emptied(rt.alloc())?, [true; 3]);
    Ok(())
}

// The capacity of a store that was refused more, the first list of a store that asks again, and what it takes.
fn ask_again(store: &mut TokenStore) -> Result<[usize; 3], Memory>
    requires idle { store.old.building ≡ None }
{
    let refused = if store.reserve(3).is_err() {
        store.spare()
    } else {
        0
    };
    store.reserve(3)?;
    let room = store.spare();
    let list = word(store, NameId { index: 50 });
    Ok([refused, list.index, room - store.spare()])
}

fn asked_again(alloc: Global) -> Result<[usize; 3], Memory> {
    let mut store = TokenStore::new_in(alloc);
    ask_again(&mut store)
}

// Run with `rt try --test --fail-alloc N` for N from 1 to 3, each of the three vectors is refused once.
#[test]
fn a_store_that_was_refused_room_is_as_before_and_can_ask_again(
    rt: HostRuntime,
) -> Result<(), Fail> {
    assert_eq!(rt; asked_again(rt.alloc())?, [0, 0, 3]);
    Ok(())
}

// Whether a list has these items when it is flattened and trimmed.
fn is_trimmed(
    alloc: Global,
    store: &TokenStore,
    id: ListId,
    wanted: &[FlatItem],
) -> Result<bool, Memory>
    requires list { id.index < length store.now.lists }
{
    let mut flat = store.flat(alloc, id)?;
    flat.trim();
    Ok(has_items(&flat, wanted))
}

// Whether a list around an inner text has its items when it is trimmed.
fn trim_around_inner_text(alloc: Global, store: &mut TokenStore) -> Result<bool, Memory>
    requires empty { store.old.lists ≡ [] }
    requires idle { store.old.building ≡ None }
{
    store.reserve(6)?;
    let inside = word(store, NameId { index: 50 });
    let outside = around(store, Token::Inner(inside));
    let wanted = [
        FlatItem::Open,
        FlatItem::Ident(NameId { index: 50 }, 7),
        FlatItem::Close,
        FlatItem::Source(9),
    ];
    is_trimmed(alloc, store, outside, &wanted)
}

fn is_trimmed_around_inner_text(alloc: Global) -> Result<bool, Memory> {
    let mut store = TokenStore::new_in(alloc);
    trim_around_inner_text(alloc, &mut store)
}

#[test]
fn an_inner_text_is_trimmed_by_itself(rt: HostRuntime) -> Result<(), Fail> {
    assert!(rt; is_trimmed_around_inner_text(rt.alloc())?);
    Ok(())
}

// Whether two flattened lists have the same items.
fn are_alike(one: &FlatTokens, other: &FlatTokens) -> bool {
    if one.len() != other.len() {
        return false;
    }
    for i in 0..one.len() {
        if one.item(i) != other.item(i) {
            return false;
        }
    }
    true
}

// Whether the one walk gives what the others give one after the other.
fn is_trimmed_alike(store: &TokenStore, alloc: Global, id: ListId) -> Result<bool, Memory>
    requires list { id.index < length store.now.lists }
{
    let mut flat = store.flat(alloc, id)?;
    flat.trim();
    let trimmed = store.flat_trimmed(alloc, id)?;
    Ok(are_alike(&trimmed, &flat))
}

// Whether one walk trims an inner text, a list around it and a list around another as two walks do; and whether it
// gives the items of the last.
fn trim_alike(alloc: Global, store: &mut TokenStore) -> Result<[bool; 4], Memory>
    requires empty { store.old.lists ≡ [] }
    requires idle { store.old.building ≡ None }
{
    let name = NameId { index: 50 };
    store.reserve(12)?;
    let inside = word(store, name);
    let outside = around(store, Token::Inner(inside));
    let inner = is_trimmed_alike(store, alloc, inside)?;
    let around_inner = is_trimmed_alike(store, alloc, outside)?;
    store.reset();
    let inside = word(store, name);
    let outside = around(store, Token::List(inside));
    let around_list = is_trimmed_alike(store, alloc, outside)?;
    let wanted = [FlatItem::Ident(name, 7), FlatItem::Source(9)];
    let has_wanted = has_items(&store.flat_trimmed(alloc, outside)?, &wanted);
    Ok([inner, around_inner, around_list, has_wanted])
}

fn are_trimmed_alike(alloc: Global) -> Result<[bool; 4], Memory> {
    let mut store = TokenStore::new_in(alloc);
    trim_alike(alloc, &mut store)
}

#[test]
fn one_walk_trims_as_two_do(rt: HostRuntime) -> Result<(), Fail> {
    assert_eq!(rt; are_trimmed_alike(rt.alloc())?, [true; 4]);
    Ok(())
}
