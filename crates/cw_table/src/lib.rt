//! The production table: which scraps are rewritten, into what, and how far a reducer steps back.
#![tactic(auto)]

mod at_hand;
mod back;
mod checks;
mod distance;
mod hazard;
mod laws;
mod masks;
mod productions;
mod ranks;
mod types;

pub use at_hand::RowAtHand;
pub use back::step_back;
pub use laws::{braces_law, distance_laws, reserving_law, rewriting_laws, walk_laws};
pub use masks::{first_of_four, first_production, may_fit};
pub use productions::{ROW_COUNT, table};
pub use ranks::rank;
pub use types::{Action, Choice, Insertion, Piece, Pieces, Row, RowNo, RowResult, Table};
