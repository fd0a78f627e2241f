//! The comments that are open.
ghost use Rattle.std.specs.Prelude.{◌≡◌, [], ◌∷◌, Bool, OnOk, drop};
ghost use Rattle.cw_plain.specs.Pieces.{comment_end};

use cw_base::Memory;
use std::alloc::Global;
use std::marker::Model;

/// Of each comment that is open whether it is long: the innermost comment first.
#[derive(Drop)]
pub(crate) struct OpenComments {
    // The innermost comment last.
    long: Vec<bool>,
}

impl Model for OpenComments {
    ghost use Rattle.std.specs.Prelude.{Bool, List, reverse};

    ghost Value = { List Bool };

    ghost view = { λ c. reverse c.long.items };
}

impl OpenComments {
    /// No comment is open.
    pub(crate) fn new_in(alloc: Global) -> OpenComments
        ensures { result ≡ [] }
    {
        OpenComments {
            long: Vec::new(alloc),
        }
    }

    /// A comment begins.
    pub(crate) fn begin(&mut self, long: bool) -> Result<(), Memory>
        ensures { OnOk result (self.new ≡ long ∷ self.old) }
    {
        self.long.push(long)?;
        Ok(())
    }

    /// The innermost comment ends. Answers what it prints at its end.
    pub(crate) fn end(&mut self) -> &'static [u8]
        ensures end_text { result.now ≡ comment_end self.old }
        ensures others { self.new ≡ drop 1 self.old }
    {
        match self.long.pop() {
            Some(true) => b"*/",
            Some(false) | None => b"",
        }
    }
}
