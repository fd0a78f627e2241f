//! A line of scraps that have given leaf lines.
ghost use Rattle.std.specs.Prelude.{◌≡◌, ◌+◌, ◌≤◌, [], Some, None, All, IfOk, OnErr, length, map};
ghost use Rattle.std.specs.Option.{option_to_list};
ghost use Rattle.cw_leaves.specs.LeafLines.{IsTold};
ghost use Rattle.cw_leaves.specs.Spelling.{spelled};
ghost use Rattle.cw_logs.specs.Blocks.{AreIdents};
ghost use Rattle.cw_logs.specs.LogText.{IsFineLine};
ghost use Rattle.cw_scraps.specs.Leaves.{HasForm};
ghost use Rattle.cw_scraps.specs.Lines.{IsSoundLine, scraps_of};
ghost use Rattle.cw_log.specs.Making.{ident_token, last_tokens, made_form};
ghost use Rattle.cw_leaves.specs.Spelling.{line_of};

use cw_base::{Cat, MathMode, Memory};
use cw_leaves::{LeafKind, LeafLine};
use cw_names::{NameId, Names};
use cw_scraps::{Leaf, ScrapLine};
use cw_tokens::{Token, TokenStore};
use cw_trees::Control;
use std::alloc::Global;

// Puts identifiers into the list that was begun.
fn push_names(names: &[NameId], store: &mut TokenStore)
    requires begun { store.old.building ≡ Some [] }
    requires room { length names.now ≤ store.old.spare }
    ensures lists { store.new.lists ≡ store.old.lists }
    ensures tokens { store.new.building ≡ Some (map ident_token names.now) }
    ensures spare { store.new.spare + length names.now ≡ store.old.spare }
{
    for name in names {
        store.push(Token::Ident(*name, 0));
    }
}

// The token behind the names of a leaf of this kind.
fn last_token(kind: LeafKind, word: NameId) -> Option<Token>
    ensures { option_to_list result ≡ last_tokens word kind }
{
    match kind {
        LeafKind::C => Some(Token::Reserved(word, 0, Cat::CaseLike)),
        LeafKind::I => Some(Token::Control(Control::ThinSpace)),
        LeafKind::B | LeafKind::S => None,
    }
}

// The scrap that has a leaf line; its list is new in the store.
fn put_leaf(leaf: &LeafLine, word: NameId, store: &mut TokenStore) -> Result<Leaf, Memory>
    requires { store.old.building ≡ None }
    ensures form { IfOk result (λ made. HasForm (made_form word leaf.now) made store.old.lists store.new.lists) }
    ensures idle { store.new.building ≡ None }
    ensures refused { OnErr result (store.new.lists ≡ store.old.lists) }
{
    let names = leaf.names.as_slice();
    store.reserve(names.len() + 2)?;
    store.begin();
    push_names(names, store);
    if let Some(token) = last_token(leaf.kind, word) {
        store.push(token);
    }
    Ok(Leaf {
        list: store.finish(),
        cat: leaf.cat,
        left: MathMode::Maybe,
        right: MathMode::Maybe,
    })
}

/// A line of scraps with these leaf lines, each of which may stand in a log: so it has the log that they tell. Its
/// lists are new in the store, behind those that are there.
pub fn scrap_line(
    alloc: Global,
    leaves: &[LeafLine],
    names: &Names,
    store: &mut TokenStore,
) -> Result<ScrapLine, Memory>
    requires idle { store.old.building ≡ None }
    requires idents { All (λ leaf. AreIdents names.now leaf.names) leaves.now }
    requires fine { All IsFineLine (map (spelled names.now) leaves.now) }
    ensures leaves { IfOk result (λ line. map line_of (scraps_of store.new.lists line) ≡ leaves.now) }
    ensures told { IfOk result (λ line. All (IsTold names.now) (scraps_of store.new.lists line)) }
    ensures sound { IfOk result (λ line. IsSoundLine store.new names.now line) }
    ensures idle { store.new.building ≡ None }
{
    let _words = names.len(); // (for the proof)
    let word = NameId { index: 0 };
    let mut line = ScrapLine::with_room(alloc, leaves.len())?;
    for leaf in leaves {
        store.tied_law(); // (for the proof)
        let made = put_leaf(leaf, word, store)?;
        line.add(made.cat, made.list, made.left, made.right)?;
    }
    Ok(line)
}
