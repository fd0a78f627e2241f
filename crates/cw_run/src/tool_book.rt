//! The book that a tool is given.
ghost use Rattle.std.specs.Prelude.{IfOk};
ghost use Rattle.cw_run.specs.Given.{IsBookOf};

use cw_base::{Memory, Web};
use cw_phase1::{Book, phase_one};
use std::alloc::Global;

/// The book that the first phase makes of a web.
pub(crate) fn read_book(alloc: Global, web: &Web) -> Result<Book, Memory>
    ensures { IfOk result (λ b. IsBookOf web.now.lines b) }
{
    phase_one(alloc, web)
}
