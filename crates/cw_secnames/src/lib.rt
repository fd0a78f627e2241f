//! The names of sections: which names are kept, and where each is defined, used and cited.
#![tactic(auto)]

mod kinds;
mod marks;
mod name_marks;
mod name_uses;
mod parts;
mod referrers;
mod sec_names;
mod tables;

pub use kinds::{Earliest, Entered, RefKind, SecId, SecKind};
pub use name_uses::NameUses;
pub use parts::next_part;
pub use sec_names::SecNames;
