//! The list of a comment: its pieces and the C texts between bars.
ghost use Rattle.std.specs.Prelude.{◌≡◌, map, None, IfOk, OnErr};
ghost use Rattle.cw_tokens.specs.Shapes.{unfolded};
ghost use Rattle.cw_scraps.specs.Lines.{AreRoots};
ghost use Rattle.cw_rewrite.specs.Gathering.{Gathers};
ghost use Rattle.cw_translator.specs.Translating.{comment_tree};
ghost use Rattle.cw_translator.specs.Commenting.{part_seen, inner_lists, token_of};

use cw_base::{MathMode, Memory};
use cw_tokens::{ListId, Token, TokenStore};
use cw_trees::Control;

/// What stands in the text of a comment.
#[derive(Clone, Copy)]
pub enum CommentPart {
    /// A piece of the text, by the place of its first byte.
    Piece(u32),
    /// The C text between bars.
    InnerText(ListId),
}

/// Makes the list of a comment, which begins at this place.
pub(crate) fn comment_list(
    number: u32,
    parts: &[CommentPart],
    store: &mut TokenStore,
) -> Result<ListId, Memory>
    requires idle { store.old.building ≡ None }
    requires roots { AreRoots store.old.lists (inner_lists parts.now) }
    ensures tree { IfOk result (λ list. unfolded store.new.lists list.index ≡
        comment_tree number (map (part_seen store.old.lists) parts.now)) }
    ensures gathers { IfOk result (λ list. Gathers store.old.lists store.new.lists (inner_lists parts.now) list.index) }
    ensures idle { store.new.building ≡ None }
    ensures refused { OnErr result (store.new.lists ≡ store.old.lists) }
{
    store.reserve(parts.len() + 5)?;
    store.begin();
    store.push(Token::Control(Control::Cancel));
    store.push(Token::Source(number, MathMode::Text));
    for part in parts {
        store.push(token_of(*part));
    }
    store.push(Token::Control(Control::CommentEnd));
    store.push(Token::Control(Control::Break));
    Ok(store.finish())
}

/// The token of what stands in a comment.
fn token_of(part: CommentPart) -> Token
    ensures { result ≡ token_of part }
{
    match part {
        CommentPart::Piece(number) => Token::Source(number, MathMode::Text),
        CommentPart::InnerText(list) => Token::Inner(list),
    }
}
