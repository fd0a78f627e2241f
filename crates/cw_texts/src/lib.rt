//! Where the C texts of a web stand: those in TeX parts, definitions and C parts, found by a second scan, and all of a
//! book's sections in the order in which they are woven.
#![tactic(auto)]

mod book_texts;
mod definitions;
mod laws;
mod pieces;
mod printed;
mod published;
mod scans;
mod text_list;

pub use book_texts::BookTexts;
pub use definitions::{Definition, Definitions, OpenDefinition};
pub use laws::{whole_pieces_law, whole_rest_law};
pub use pieces::{Piece, Pieces};
pub use printed::is_printed;
pub use published::texts;
pub use scans::scan;
pub use text_list::{TextList, TextRef};
