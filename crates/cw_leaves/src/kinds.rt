//! The kinds of leaf lines.

/// What a leaf line says of its scrap: the first of these that holds.
#[derive(Clone, Copy, PartialEq, Eq, Debug)]
pub enum LeafKind {
    /// The scrap is exactly one identifier.
    B,
    /// A word like `case` stands in it.
    C,
    /// It has identifiers.
    I,
    /// None of these.
    S,
}
