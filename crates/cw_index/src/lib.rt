//! The index of a book, its section list, and the lines with which its TeX file closes.
#![tactic(auto)]

mod closing;
mod collation;
mod heading;
mod headings;
mod index;
mod laws;
mod names;
mod published;
mod standing;
mod whole;

pub use closing::print_closing;
pub use headings::index_order;
pub use index::{is_exp, is_tex_like, write_index};
pub use laws::{index_law, whole_names_law};
pub use names::write_names;
pub use published::{compare_entries, write_closing};
pub use whole::are_names_whole;
