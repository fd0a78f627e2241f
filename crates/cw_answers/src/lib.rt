//! All answers of a scan, kept so that they can be gone through again without another scan.
#![tactic(auto)]

mod answers;
mod kept_answer;
mod reader;

pub use answers::Answers;
pub use reader::Reader;
