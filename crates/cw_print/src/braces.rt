//! The braces that are open in comments.
ghost use Rattle.std.specs.Prelude.{◌≡◌, [], ◌∷◌, OnOk};
ghost use Rattle.cw_print.specs.Showing.{innermost, others};

use cw_base::Memory;
use std::alloc::Global;
use std::marker::Model;

/// How many braces are open in each comment that is open: the innermost comment first.
#[derive(Drop)]
pub(crate) struct OpenBraces {
    // The innermost comment last.
    counts: Vec<usize>,
}

impl Model for OpenBraces {
    ghost use Rattle.std.specs.Prelude.{List, ℕ, reverse};

    ghost Value = { List ℕ };

    ghost view = { λ b. reverse b.counts.items };
}

impl OpenBraces {
    /// No comment is open.
    pub(crate) fn new_in(alloc: Global) -> OpenBraces
        ensures { result ≡ [] }
    {
        OpenBraces {
            counts: Vec::new(alloc),
        }
    }

    /// How many braces are open in the innermost comment; none outside comments.
    pub(crate) fn innermost(&self) -> usize
        ensures { result ≡ innermost self.now }
    {
        match self.counts.last() {
            Some(count) => *count,
            None => 0,
        }
    }

    /// A comment begins.
    pub(crate) fn begin(&mut self) -> Result<(), Memory>
        ensures { OnOk result (self.new ≡ 0 ∷ self.old) }
    {
        self.counts.push(0)?;
        Ok(())
    }

    /// The innermost comment ends.
    pub(crate) fn end(&mut self)
        ensures { self.new ≡ others self.old }
    {
        self.counts.pop();
    }

    /// So many braces are now open in the innermost comment.
    pub(crate) fn set_innermost(&mut self, count: usize) -> Result<(), Memory>
        ensures { OnOk result (self.new ≡ count ∷ others self.old) }
    {
        self.counts.pop();
        self.counts.push(count)?;
        Ok(())
    }
}
