//! What holds inner texts: a comment and a section name. Each makes a list of its own.
ghost use Rattle.std.specs.Prelude.{◌≡◌, ◌≢◌, ◌+◌, ◌<◌, ◌≤◌, ◌++◌, length, map, IsSome, None, IfOk, OnErr, option_map};
ghost use Rattle.cw_base.specs.declared.category.Cat.TheVariants.{End};
ghost use Rattle.cw_tokens.specs.Shapes.{unfolded};
ghost use Rattle.cw_tokens.specs.Stored.{MayBePushed};
ghost use Rattle.cw_scraps.specs.Lines.{AreRoots};
ghost use Rattle.cw_rewrite.specs.Gathering.{Gathers};
ghost use Rattle.cw_translator.specs.Commenting.{inner_lists, part_seen, token_of};
ghost use Rattle.cw_translator.specs.Holders.{held_tree, name_tree};
ghost use Rattle.cw_translator.specs.model.Holders.{behind_name, held_leaf, name_part, sign_tokens};

use crate::comments::{CommentPart, comment_list};
use cw_base::{Cat, MathMode, Memory};
use cw_scraps::Leaf;
use cw_tokens::{ListId, Token, TokenStore};
use cw_trees::Control;

/// What holds inner texts, by the place of its first byte.
#[derive(Clone, Copy)]
pub enum Holder {
    /// A comment.
    Comment(u32),
    /// A section name.
    Name(u32),
    /// The name at the head of a C part, and its sign.
    Head(u32, u32),
}

impl Holder {
    /// The leaf that is made of its list.
    pub(crate) fn leaf(self, list: ListId) -> Leaf
        ensures value { result ≡ held_leaf self list }
        ensures cat { result.cat ≢ End }
    {
        let (cat, mode) = match self {
            Holder::Comment(_) => (Cat::Insert, MathMode::Text),
            Holder::Name(_) => (Cat::SectionScrap, MathMode::Maybe),
            Holder::Head(..) => (Cat::Dead, MathMode::Text),
        };
        Leaf {
            cat,
            list,
            left: mode,
            right: mode,
        }
    }
}

/// Makes the list of what holds these inner texts.
pub(crate) fn held_list(
    holder: Holder,
    parts: &[CommentPart],
    store: &mut TokenStore,
) -> Result<ListId, Memory>
    requires idle { store.old.building ≡ None }
    requires roots { AreRoots store.old.lists (inner_lists parts.now) }
    ensures tree { IfOk result (λ list. unfolded store.new.lists list.index ≡
        held_tree holder (map (part_seen store.old.lists) parts.now)) }
    ensures gathers { IfOk result (λ list. Gathers store.old.lists store.new.lists (inner_lists parts.now) list.index) }
    ensures idle { store.new.building ≡ None }
    ensures refused { OnErr result (store.new.lists ≡ store.old.lists) }
{
    match holder {
        Holder::Comment(number) => comment_list(number, parts, store),
        Holder::Name(number) => name_list(number, parts, None, store),
        Holder::Head(number, sign) => name_list(number, parts, Some(sign), store),
    }
}

/// Makes the list of a section name, with its sign where it is the head of a C part.
fn name_list(
    number: u32,
    parts: &[CommentPart],
    sign: Option<u32>,
    store: &mut TokenStore,
) -> Result<ListId, Memory>
    requires idle { store.old.building ≡ None }
    requires roots { AreRoots store.old.lists (inner_lists parts.now) }
    ensures tree { IfOk result (λ list. unfolded store.new.lists list.index ≡
        name_tree number (behind_name sign) (map (part_seen store.old.lists) parts.now)) }
    ensures gathers { IfOk result (λ list. Gathers store.old.lists store.new.lists (inner_lists parts.now) list.index) }
    ensures idle { store.new.building ≡ None }
    ensures refused { OnErr result (store.new.lists ≡ store.old.lists) }
{
    store.reserve(2 * parts.len() + 5)?;
    store.begin();
    store.push(Token::Source(number, MathMode::Maybe));
    for part in parts {
        push_part(*part, store);
    }
    store.push(Token::Control(Control::NameEnd));
    push_sign(sign, store);
    Ok(store.finish())
}

/// Puts an inner text, and the control for the text behind it.
fn push_part(part: CommentPart, store: &mut TokenStore)
    requires building { IsSome store.old.building }
    requires room { 2 ≤ store.old.spare }
    requires reference { MayBePushed store.old (token_of part) }
    ensures building { store.new.building ≡ option_map (λ tokens. tokens ++ name_part part) store.old.building }
    ensures lists { store.new.lists ≡ store.old.lists }
    ensures spare { store.new.spare + length (name_part part) ≡ store.old.spare }
{
    if let CommentPart::InnerText(list) = part {
        store.push(Token::Inner(list));
        store.push(Token::Control(Control::NameText));
    }
}

/// Puts the sign of a head and the break behind it.
fn push_sign(sign: Option<u32>, store: &mut TokenStore)
    requires building { IsSome store.old.building }
    requires room { 2 ≤ store.old.spare }
    ensures building { store.new.building ≡ option_map (λ tokens. tokens ++ sign_tokens sign) store.old.building }
    ensures lists { store.new.lists ≡ store.old.lists }
    ensures spare { store.new.spare + length (sign_tokens sign) ≡ store.old.spare }
{
    if let Some(number) = sign {
        store.push(Token::Source(number, MathMode::Text));
        store.push(Token::Control(Control::Break));
    }
}
