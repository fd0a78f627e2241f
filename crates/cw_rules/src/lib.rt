//! The rules of tokens: what begins at a place of a web's text, how many bytes it takes, and its notes.
#![tactic(auto)]

pub mod bodies;
pub mod classes;
pub mod codes;
pub mod constants;
pub mod cuttings;
pub mod directives;
mod names;
pub mod parts;
pub mod pending;
pub mod prefixes;
pub mod signs;
pub mod tokens;

pub use codes::Code;
pub use signs::Sign;
pub use tokens::{Directive, Lexed, Mode, Tok, TokKind};
