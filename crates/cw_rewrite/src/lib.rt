//! `reduce` stands here: it rewrites a line of scraps by the productions until none fits. What is left is put together.
#![tactic(auto)]

mod gathering;
mod published;
mod walk;
mod watch;

pub use gathering::{put_alone, put_together};
pub use published::reduce;
pub use walk::{Reduced, reduce_watched};
pub use watch::{Unwatched, Watch};
