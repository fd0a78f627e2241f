//! The items of a flat translation, joined and printed: breaks, blanks and indents that follow one another print as one
//! run, and every other item prints its own bytes.
#![tactic(auto)]

mod appending;
mod joiner;
mod names_behind;
mod naming;
mod pieces;
mod published;
mod run;
mod short_names;
mod token;

pub use joiner::Joiner;
pub use naming::{put_ident_of, put_reserved_of};
pub use token::FlatToken;
