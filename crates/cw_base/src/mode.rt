//! The modes in which TeX is where a piece of a translation begins or ends.
/// The mode that TeX is in where a piece of a translation begins or ends.
#[derive(Clone, Copy, PartialEq, Eq, Debug)]
pub enum MathMode {
    /// Text.
    Text,
    /// Math.
    Math,
    /// Either will do, or it isn't known yet.
    Maybe,
}
