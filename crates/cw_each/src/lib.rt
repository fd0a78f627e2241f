//! The C texts of a book, each of which can be translated by itself, translated one after another in one store.
#![tactic(auto)]

mod each;
mod laws;
mod rooms;

pub use each::{EachText, NextText};
pub use laws::whole_texts_law;
