//! What tests of several crates share: desks in memory, words, small webs, what a journal tells, and folders of real
//! files.
#![tactic(auto)]

mod desks;
mod folders;
mod told;
mod webs;

pub use desks::{desk_making, desk_with, words_of};
pub use folders::{enter_new_folder, has_bytes, write_files};
pub use told::written;
pub use webs::web_of;
