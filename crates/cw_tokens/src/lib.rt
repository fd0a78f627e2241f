//! Lists of tokens in one store, changed in place.
#![tactic(auto)]

mod flat;
mod store;
mod token;
mod trim;
mod trimmer;
mod walk;

pub use flat::{FlatItem, FlatTokens};
pub use store::TokenStore;
pub use token::{ListId, Token};
