//! The controls of a translation, and in `specs/` the definitions of trees: their items, how scraps are
//! joined, what a tree is when it is flattened, and the bytes that it prints.
#![tactic(auto)]

/// A sign of a translation that is not taken from the source text.
///
/// The first sixteen are written by productions and by leaves; the toggles and the dollar are put by
/// joining; the last three stand in the leaves of comments and of section names only.
#[derive(Clone, Copy, PartialEq, Eq, Debug)]
pub enum Control {
    /// A blank between two scraps.
    Blank,
    /// A place where TeX may break the line, a blank otherwise: `\5`.
    OptionalBreak,
    /// A line break: `\6`.
    Break,
    /// A line break with some vertical space: `\7`.
    BigBreak,
    /// Takes away the breaks and blanks next to it.
    Cancel,
    /// Moves the line one step to the left: `\4`.
    Backup,
    /// Prints nothing and keeps the breaks on its two sides apart.
    Wall,
    /// Begins an indented piece: `\1`.
    Indent,
    /// Ends an indented piece: `\2`.
    Outdent,
    /// A cheap place for a line break in a formula: `\30`.
    OptionalLineBreak0,
    /// A dear place for a line break in a formula: `\39`.
    OptionalLineBreak9,
    /// A thin space: `\,`.
    ThinSpace,
    /// The brace `{`, which makes an operator an ordinary symbol.
    OpenBrace,
    /// The brace `}`.
    CloseBrace,
    /// Begins a relation that is made of several signs: `\MRL{`.
    OpenRelation,
    /// Prints nothing; a search for the first identifier stops at it.
    Inserted,
    /// Leads from text to math: `${}`.
    ToMath,
    /// Leads from math to text: `{}$`.
    ToText,
    /// Leads from text to math or from math to text: `$`.
    Dollar,
    /// The brace that ends a comment.
    CommentEnd,
    /// The text of a section name up to its next inner text, or to its end.
    NameText,
    /// The end of a section name.
    NameEnd,
}
