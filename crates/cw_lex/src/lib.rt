//! The scanner: a web's text cut into tokens, with the notes on what is wrong in it.
#![tactic(auto)]

mod code_text;
mod comment_text;
mod comments;
mod ends;
mod giving;
mod heads;
mod kinds;
mod laws;
mod lexer;
mod plain;
mod short;
mod state;

pub use cw_rules::{Code, Directive, Lexed, Mode, Sign, Tok, TokKind};
pub use heads::Expectation;
pub use kinds::is_section_name;
pub use laws::{limbo_law, nest_law, nesting_law, openings_law, parts_law, tex_texts_law};
pub use lexer::Lexer;
