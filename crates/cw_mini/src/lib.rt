//! A small index for each section: the names that it uses and others define.
#![tactic(auto)]

mod laws;
mod lines;
mod listing;
mod marks;
mod mini;
mod names;
mod places;
mod published;
mod rows;
mod sections;
mod texts;

pub use laws::mini_law;
pub use marks::{SectionMark, SectionMarks};
pub use mini::{Mini, mini_command, mini_files};
pub use published::mini_rows;
pub use rows::MiniRows;
