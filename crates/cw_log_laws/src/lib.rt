//! Laws of the logs of a book: what is written of its C texts is what a check finds right.
#![tactic(auto)]

mod laws;

pub use laws::{accepted_law, logged_law};
