//! Logs of productions: what they say of the scraps of a text, and of its productions; how the log of a web is written,
//! and how one is checked.
#![tactic(auto)]

mod checking;
mod command;
mod file;
mod laws;
mod logs;
mod making;
mod program;
mod published;
mod telling;
mod writing;

pub use checking::Checked;
pub use command::check;
pub use file::LOG_LIMIT;
pub use laws::line_law;
pub use logs::ProductionLog;
pub use making::scrap_line;
pub use program::{LogProgram, log_command, log_files};
pub use published::translate_logged;
pub use telling::{leaf_line, leaf_lines};
