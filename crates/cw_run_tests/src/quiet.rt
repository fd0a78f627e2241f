//! Runs over a desk on which nothing fails.
ghost use Rattle.std.specs.Prelude.{◌≢◌};

use cw_base::{Exit, Silent, Steps, Words};
use cw_desk::QuietDesk;
use cw_weave::weave_command;
use std::alloc::Global;

/// How a run ends over a desk on which nothing fails: a fault can't come.
pub fn weave_quietly(alloc: Global, words: &Words, desk: &mut QuietDesk) -> Exit
    ensures { result ≢ Exit.Fault }
{
    weave_command(alloc, words, desk, &mut Steps::<Silent>::new())
}
