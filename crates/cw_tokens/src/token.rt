//! The items of a list of tokens, and the place of a list in its store.
use cw_base::{Cat, MathMode};
use cw_names::NameId;
use cw_trees::Control;

/// The place of a list in its store.
#[derive(Clone, Copy, PartialEq, Eq, Debug)]
pub struct ListId {
    /// How many lists of the store were finished before it.
    pub index: usize,
}

/// An item of a list of tokens. A number is the place of a token's first byte in the text that holds it.
#[derive(Clone, Copy, PartialEq, Eq, Debug)]
pub enum Token {
    /// A token of the text that is printed as the scanner reads it, and the mode that it needs.
    Source(u32, MathMode),
    /// An identifier.
    Ident(NameId, u32),
    /// A reserved word, and the category that it was made with.
    Reserved(NameId, u32, Cat),
    /// What is printed beside the tokens of the text.
    Control(Control),
    /// An inner text: the C text between bars in a comment or in the name of a section.
    Inner(ListId),
    /// A translation inside this one.
    List(ListId),
}
