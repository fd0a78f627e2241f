//! Laws that a reader expects of the scanner's answers, of the book, of what is printed, of the files of a run and of
//! what the C texts of a book leave, whichever program translates them, over the definitions of the crates below.
#![tactic(auto)]

mod book;
mod files;
mod greeting;
mod left;
mod scanner;
mod tex;
mod texts;

pub use book::book_law;
pub use files::files_law;
pub use greeting::greeting_law;
pub use left::{left_law, mini_book_law};
pub use scanner::{ends_law, longest_law, notes_law, white_space_law};
pub use tex::tex_text_law;
pub use texts::texts_law;
