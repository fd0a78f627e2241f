//! Laws of plain text: whose bytes stand in it, and what a scan of it gives.
#![tactic(auto)]

mod laws;

pub use laws::{again_law, tokens_law};
