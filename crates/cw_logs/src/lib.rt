//! Logs of productions: their text, with its blocks and lines, when a file is a log, and how a log is compared with the
//! productions of a line of scraps.
#![tactic(auto)]

mod against;
mod blocks;
mod categories;
mod checking;
mod items;
mod laws;
mod leaves;
mod numbers;
mod reading;
mod words;
mod writing;

pub use blocks::{ReadBlock, read_block};
pub use checking::{Verdict, check_line};
pub use items::GREATEST;
pub use laws::log_laws;
pub use reading::{NotALog, Spot, judge};
pub use writing::append_block;
