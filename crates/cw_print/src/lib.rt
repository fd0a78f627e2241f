//! The printing of C texts: the bytes of each token, of comments and of section names, and those of whole lists.
#![tactic(auto)]

mod book_titles;
mod braces;
mod comments;
mod constants;
mod dividing;
mod escaping;
mod name_walk;
mod printing;
mod published;
mod scan;
mod showing;
mod signs;
mod texts;
mod title;
mod tokens;
mod walk;

pub use book_titles::{defines_first, is_changed};
pub use printing::{KeptText, print_answers};
pub use published::print_list;
pub use scan::Finder;
pub use tokens::put_code_text;
