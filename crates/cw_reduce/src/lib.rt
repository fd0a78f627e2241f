//! `translate` makes the tree of a whole C text: of its head, of its section names, and of all that stands behind them.
#![tactic(auto)]

mod alone;
mod headed;
mod heads;
mod laws;
mod naming;
mod published;
mod translating;
mod uncut;

pub use cw_rewrite::{Reduced, reduce};
pub use cw_translator::{Context, Recorder, Translated, Unrecorded, Work};
pub use laws::translation_laws;
pub use published::translate;
pub use translating::{translate_read, translate_recorded};
pub use uncut::{is_plain_c, is_uncut};
