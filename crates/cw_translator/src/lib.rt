//! A C text is translated answer by answer: what is open, how each answer goes on, and how a text ends.
#![tactic(auto)]

mod comments;
mod holders;
mod nesting;
mod recorder;
mod translator;
mod work;

pub use comments::CommentPart;
pub use holders::Holder;
pub use nesting::{CommentText, Nesting, Open};
pub use recorder::{Recorder, Unrecorded, record_alone};
pub use translator::{Translated, Translator};
pub use work::{Context, Work};
