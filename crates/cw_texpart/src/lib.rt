//! Limbo, and the heads and TeX parts of sections, as they are printed.
#![tactic(auto)]

mod copying;
mod heads;
mod inks;
mod limbo;
mod published;
mod tex_parts;
mod whole;

pub use limbo::print_limbo;
pub use published::{copy_limbo, copy_tex};
pub use tex_parts::print_tex;
pub use whole::is_whole;
