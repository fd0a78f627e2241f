//! Outputs that would overwrite an input, or an output before them.

ghost use Rattle.std.specs.Prelude.{◌≡◌, ◌≤◌, ◌||◌, ◌++◌, IfOk, OnOk, length, option_copied, take};
ghost use Rattle.cw_input.specs.Overwriting.{first_overwriting, is_among, names_written, outputs_of};

use crate::words::CommandLine;
use cw_base::{Memory, Web, Words};
use cw_desk::draft_name;
use std::alloc::Global;

/// The first of these outputs that has the name of a file of this web, or of an output before it: to make it would
/// destroy what was read, or written. Names are compared as they are given, so `./foo.w` is another one than `foo.w`.
pub fn first_overwriting<'a>(web: &Web, outputs: &'a Words) -> Option<&'a [u8]>
    ensures { option_copied result ≡ first_overwriting web.now.files outputs.now }
{
    for number in 0..outputs.len() {
        let name = outputs.word(number);
        if is_taken(web, outputs, number, name) {
            return Some(name);
        }
    }
    None
}

// Whether a name is that of a file of this web, or of one of the first so many outputs.
fn is_taken(web: &Web, outputs: &Words, count: usize, name: &[u8]) -> bool
    requires { count ≤ length outputs.now }
    ensures { result ≡ (is_among web.now.files name.now || is_among (take count outputs.now) name.now) }
{
    web.has_file(name) || is_before(outputs, count, name)
}

// Whether one of the first so many names is this one.
fn is_before(names: &Words, count: usize, name: &[u8]) -> bool
    requires { count ≤ length names.now }
    ensures { result ≡ is_among (take count names.now) name.now }
{
    for number in 0..count {
        if names.word(number) == name {
            return true;
        }
    }
    false
}

/// The names under which the run of a command line writes: those of the outputs, and with flag k those of their drafts.
pub fn outputs_of(alloc: Global, line: &CommandLine) -> Result<Words, Memory>
    ensures { IfOk result (λ outputs. outputs ≡ outputs_of line.now) }
{
    let mut outputs = Words::new_in(alloc);
    push_output(alloc, &mut outputs, line, line.outputs.tex.as_slice())?;
    if line.flags.index {
        push_output(alloc, &mut outputs, line, line.outputs.idx.as_slice())?;
        push_output(alloc, &mut outputs, line, line.outputs.scn.as_slice())?;
    }
    Ok(outputs)
}

// Appends the name of an output, and with flag k that of its draft.
fn push_output(
    alloc: Global,
    outputs: &mut Words,
    line: &CommandLine,
    name: &[u8],
) -> Result<(), Memory>
    ensures { OnOk result (outputs.new ≡ outputs.old ++ names_written line.now.flags.keep name.now) }
{
    outputs.push(name)?;
    if line.flags.keep {
        outputs.push(draft_name(alloc, name)?.as_slice())?;
    }
    Ok(())
}
