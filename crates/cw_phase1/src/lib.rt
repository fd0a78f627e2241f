//! The first phase: the sections of a web, its names, its section names and its notes.
#![tactic(auto)]

mod book;
mod entering;
mod laws;
mod missing;
mod name_lists;
mod note_list;
mod packed;
mod pass_state;
mod phase;
mod places;
mod placing;
mod roles;
mod sections;
mod texts;
mod token_lists;
mod words;

pub use book::{Book, Outline};
pub use laws::whole_law;
pub use phase::phase_one;
pub use roles::{Part, Role, Standing};
pub use sections::{Depth, Section};
