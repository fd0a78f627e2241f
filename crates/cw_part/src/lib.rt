//! Sections behind their TeX parts: definitions and C parts with their footnotes, as they are printed.
#![tactic(auto)]

mod paragraphs;
mod published;
mod sections;
mod whole;

pub use published::weave_section;
pub use sections::print_rest;
pub use whole::is_whole_rest;
