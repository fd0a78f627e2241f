//! The words that a program was given.
ghost use Rattle.std.specs.Prelude.{◌≡◌, IfOk};
ghost use Rattle.cw_run.specs.Program.{words_of};

use cw_base::{Memory, Words};
use std::alloc::Global;

/// The words behind the program's name.
pub(crate) fn words_behind(alloc: Global, line: &Words) -> Result<Words, Memory>
    ensures { IfOk result (λ words. words ≡ words_of line.now) }
{
    let mut words = Words::new_in(alloc);
    for i in 1..line.len() {
        words.push(line.word(i))?;
    }
    Ok(words)
}
