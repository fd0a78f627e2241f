//! The list that a production joins of its pieces.
ghost use Rattle.std.specs.Prelude.{◌≡◌, ◌+◌, ◌-◌, ◌<◌, ◌≤◌, ◌++◌, [], ◌∷◌, length, drop, map, IsSome, option_map};
ghost use Rattle.cw_base.specs.declared.mode.MathMode.TheVariants.{Maybe};
ghost use Rattle.cw_table.specs.Rows.{pieces_for};
ghost use Rattle.cw_tokens.specs.declared.token.Token.TheVariants.{Control as ControlOf};
ghost use Rattle.cw_tokens.specs.Stored.{MayBePushed};
ghost use Rattle.cw_scraps.specs.Lines.{roots_of, AreRoots};
ghost use Rattle.cw_trees.specs.Joining.{after, first_mode};
ghost use Rattle.cw_scraps.specs.model.Inserting.{inserted_by, inserting, toggle, toggled, tokens_of, left_of};
ghost use Rattle.cw_scraps.specs.model.Inserting.{right_after};
ghost use Rattle.cw_scraps.specs.model.Inserting.{IsInsertionWithin, IsRun};

use crate::PRODUCTION_TOKENS;
use crate::line::{Part, ScrapLine};
use crate::pieces::{Insert, first_mode, scrap_insert, scrap_insert_in};
use cw_base::MathMode;
use cw_table::{Insertion, RowAtHand};
use cw_tokens::{Token, TokenStore};
use cw_trees::Control;

/// Joins the pieces of a production at a place, the usual ones or the others, into a new list.
#[inline(always)]
pub fn join(
    line: &ScrapLine,
    place: usize,
    row: &RowAtHand,
    other: bool,
    store: &mut TokenStore,
) -> Part
    requires idle { store.old.building ≡ None }
    requires room { PRODUCTION_TOKENS ≤ store.old.spare }
    requires place { place ≤ length line.now }
    requires run { IsRun (pieces_for other row.now) (length (drop place line.now)) }
    requires roots { AreRoots store.old.lists (roots_of (drop place line.now)) }
    ensures lists { store.new.lists ≡ store.old.lists ++ tokens_of Maybe (map (inserting (drop place line.now))
        (pieces_for other row.now)) ∷ [] }
    ensures idle { store.new.building ≡ None }
    ensures spare { store.old.spare ≤ store.new.spare + PRODUCTION_TOKENS }
    ensures list { result.list.index ≡ length store.old.lists }
    ensures left { result.left ≡ left_of (map (inserting (drop place line.now)) (pieces_for other row.now)) }
    ensures right { result.right
        ≡ right_after Maybe (map (inserting (drop place line.now)) (pieces_for other row.now)) }
{
    store.begin();
    let mut modes = Modes {
        left: MathMode::Maybe,
        right: MathMode::Maybe,
    };
    for i in 0..row.piece_count(other) {
        modes = put_piece(line, place, row.insertion(other, i), modes, store);
    }
    let list = store.finish();
    Part {
        list,
        left: modes.left,
        right: modes.right,
    }
}

/// The modes in which what was put into a list so far begins and ends.
#[derive(Clone, Copy)]
struct Modes {
    left: MathMode,
    right: MathMode,
}

/// Puts what a piece inserts into the list that is being built, and before it the toggle that it needs.
#[inline(always)]
fn put_piece(
    line: &ScrapLine,
    place: usize,
    insertion: Insertion,
    modes: Modes,
    store: &mut TokenStore,
) -> Modes
    requires within { IsInsertionWithin place (length line.now) insertion }
    requires begun { modes.left ≡ Maybe → modes.right ≡ Maybe }
    requires building { IsSome store.old.building }
    requires room { 2 ≤ store.old.spare }
    requires reference { MayBePushed
        (toggled modes.right (inserted_by (drop place line.now) insertion).left store.old)
        (inserted_by (drop place line.now) insertion).token }
    ensures left { result.left ≡ first_mode modes.left (inserted_by (drop place line.now) insertion).left }
    ensures right { result.right ≡ after modes.right (inserted_by (drop place line.now) insertion).left
        (inserted_by (drop place line.now) insertion).right }
    ensures building { store.new.building ≡ option_map (λ tokens. tokens ++
        (inserted_by (drop place line.now) insertion).token ∷ [])
        (toggled modes.right (inserted_by (drop place line.now) insertion).left store.old).building }
    ensures lists { store.new.lists ≡ store.old.lists }
    ensures spare { store.new.spare + 1 +
        length (toggle modes.right (inserted_by (drop place line.now) insertion).left) ≡ store.old.spare }
{
    match insertion {
        Insertion::Sign(control, mode) => put_sign(control, mode, modes, store),
        Insertion::Scrap(k, MathMode::Maybe) => put_scrap(
            scrap_insert(line, place, k),
            modes,
            store,
        ),
        Insertion::Scrap(k, mode) => put_scrap(scrap_insert_in(mode, line, place, k), modes, store),
    }
}

/// Puts a control that needs a mode into the list that is being built, and before it the toggle that it needs. Mostly
/// the mode is the one so far, which stays.
#[inline(always)]
fn put_sign(control: Control, mode: MathMode, modes: Modes, store: &mut TokenStore) -> Modes
    requires begun { modes.left ≡ Maybe → modes.right ≡ Maybe }
    requires building { IsSome store.old.building }
    requires room { 2 ≤ store.old.spare }
    ensures left { result.left ≡ first_mode modes.left mode }
    ensures right { result.right ≡ after modes.right mode mode }
    ensures building { store.new.building ≡ option_map (λ tokens. tokens ++ ControlOf control ∷
        []) (toggled modes.right mode store.old).building }
    ensures lists { store.new.lists ≡ store.old.lists }
    ensures spare { store.new.spare + 1 + length (toggle modes.right mode) ≡ store.old.spare }
{
    if mode == modes.right {
        store.push(Token::Control(control));
        return modes;
    }
    let modes = put_toggle(mode, mode, modes, store);
    store.push(Token::Control(control));
    modes
}

/// Puts the token of a scrap into the list that is being built, and before it the toggle that it needs.
#[inline(always)]
fn put_scrap(insert: Insert, modes: Modes, store: &mut TokenStore) -> Modes
    requires begun { modes.left ≡ Maybe → modes.right ≡ Maybe }
    requires building { IsSome store.old.building }
    requires room { 2 ≤ store.old.spare }
    requires reference { MayBePushed (toggled modes.right insert.left store.old) insert.token }
    ensures left { result.left ≡ first_mode modes.left insert.left }
    ensures right { result.right ≡ after modes.right insert.left insert.right }
    ensures building { store.new.building ≡ option_map (λ tokens. tokens ++ insert.token ∷
        []) (toggled modes.right insert.left store.old).building }
    ensures lists { store.new.lists ≡ store.old.lists }
    ensures spare { store.new.spare + 1 + length (toggle modes.right insert.left) ≡ store.old.spare }
{
    let modes = put_toggle(insert.left, insert.right, modes, store);
    store.push(insert.token);
    modes
}

/// Puts the toggle that a piece with these two modes needs, and answers the modes behind the piece.
#[inline(always)]
fn put_toggle(left: MathMode, right: MathMode, modes: Modes, store: &mut TokenStore) -> Modes
    requires begun { modes.left ≡ Maybe → modes.right ≡ Maybe }
    requires building { IsSome store.old.building }
    requires room { 0 < store.old.spare }
    ensures left { result.left ≡ first_mode modes.left left }
    ensures right { result.right ≡ after modes.right left right }
    ensures building { store.new.building ≡
        option_map (λ tokens. tokens ++ toggle modes.right left) store.old.building }
    ensures lists { store.new.lists ≡ store.old.lists }
    ensures spare { store.new.spare + length (toggle modes.right left) ≡ store.old.spare }
{
    if left == MathMode::Maybe {
        return modes;
    }
    if left == modes.right {
        return Modes {
            left: modes.left,
            right,
        };
    }
    push_toggle(modes.right, left, store);
    Modes {
        left: first_mode(modes.left, left),
        right,
    }
}

/// Puts the toggle between the mode so far and the left mode of the next piece, if one is needed.
#[inline]
fn push_toggle(mode: MathMode, left: MathMode, store: &mut TokenStore)
    requires building { IsSome store.old.building }
    requires room { 0 < store.old.spare }
    ensures building { store.new.building ≡ option_map (λ tokens. tokens ++ toggle mode left) store.old.building }
    ensures lists { store.new.lists ≡ store.old.lists }
    ensures spare { store.new.spare + length (toggle mode left) ≡ store.old.spare }
{
    match (mode, left) {
        (MathMode::Math, MathMode::Text) => store.push(Token::Control(Control::ToText)),
        (MathMode::Text, MathMode::Math) => store.push(Token::Control(Control::ToMath)),
        _ => {}
    }
}
