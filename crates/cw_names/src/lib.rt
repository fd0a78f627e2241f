//! The names of a web, numbered in order of first appearance, with their categories and the sections in which they
//! occur.
#![tactic(auto)]

mod entry;
mod names;
mod words;
mod xrefs;

pub use entry::{EntryKind, NameId};
pub use names::Names;
pub use words::WORD_COUNT;
pub use xrefs::{Occurrence, SectionRef, Xrefs};
