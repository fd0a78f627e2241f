//! Laws of braces: those that productions put in pair, and no text stands between them.
#![tactic(auto)]

mod laws;

pub use laws::{
    leaf_law, plain_text_law, printing_law, production_law, reduction_law, translation_law,
};
