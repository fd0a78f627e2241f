//! What the scraps of a text say of its log: a leaf line each, from which the productions follow.
#![tactic(auto)]

mod kinds;
mod laws;
mod lines;

pub use kinds::LeafKind;
pub use laws::leaf_line_law;
pub use lines::{LeafLine, LeafLines, LogItem, LogItems, NameList, TextLog};
