//! Woven C as indented plain text: that of a C part from its translation, and the command that writes all of a web.
#![tactic(auto)]

mod blanks;
mod comments;
mod file;
mod lines;
mod plainer;
mod published;
mod run;
mod translated;

pub use file::{Plain, plain_command, plain_files};
pub use published::plain_text;
