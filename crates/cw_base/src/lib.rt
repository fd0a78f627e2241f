//! The types that every crate of `cweave` shares: texts, words, flags, events, notes and counters.
#![tactic(auto)]

mod bytes;
mod category;
mod event;
mod exit;
mod flags;
mod limits;
mod memory;
mod mode;
mod notes;
mod span;
mod steps;
mod web;
mod words;

pub use bytes::Bytes;
pub use category::{ALL_CATS, Cat, CatSet};
pub use event::{Event, Out};
pub use exit::Exit;
pub use flags::Flags;
pub use limits::{INPUT_LIMIT, TEXT_LIMIT};
pub use memory::Memory;
pub use mode::MathMode;
pub use notes::{Grade, Note, NoteKind, Place};
pub use span::Span;
pub use steps::{Kept, Ledger, Silent, Steps};
pub use web::{LineInfo, Web};
pub use words::Words;
