//! A part of a text, by the places where it begins and ends.
/// A part of a text: the bytes from `start` on, up to and without `end`.
#[derive(Clone, Copy, Debug, PartialEq, Eq)]
pub struct Span {
    pub start: usize,
    pub end: usize,
}
