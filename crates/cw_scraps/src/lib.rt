//! Scraps of C text: the scrap of a token, a line of scraps, and one production on a line.
#![tactic(auto)]

mod applying;
mod joining;
mod kinds;
mod laws;
mod leaves;
mod line;
mod making;
mod marks;
mod pieces;
mod producing;
mod reserving;
mod words;

/// The most tokens that a production adds to the store of a line, whatever its scraps are.
pub const PRODUCTION_TOKENS: usize = 24;

pub use applying::Production;
pub use kinds::makes_leaf;
pub use laws::mode_law;
pub use leaves::{Leaf, scrap_of};
pub use line::{LineEntry, Part, ScrapLine};
pub use marks::Marks;
pub use words::word_token;
