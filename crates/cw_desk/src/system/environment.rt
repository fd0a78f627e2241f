//! What the process was given: its arguments and variables, as bytes.
use cw_base::{Bytes, Memory, Words};
use std::alloc::Global;
use std::env::{Env, FillError};

/// How many bytes are asked for at first.
const SHORT: usize = 256;

/// How often more is asked for, each time twice as much.
const MOST_TURNS: u8 = 40;

/// What is asked of the environment.
#[derive(Clone, Copy)]
enum Asked<'a> {
    Argument(usize),
    Variable(&'a str),
}

fn fill<E: Env>(env: &E, asked: Asked<'_>, buffer: &mut [u8]) -> Result<usize, FillError> {
    match asked {
        Asked::Argument(number) => env.arg(number, buffer),
        Asked::Variable(name) => env.var(name, buffer),
    }
}

// The bytes of what was asked for, whatever their number.
fn bytes_of<E: Env>(env: &E, alloc: Global, asked: Asked<'_>) -> Result<Option<Bytes>, Memory> {
    let mut buffer = vec![in alloc; 0; SHORT]?;
    for _ in 0..MOST_TURNS {
        match fill(env, asked, buffer.as_mut_slice()) {
            Ok(count) => {
                buffer.truncate(count);
                return Ok(Some(Bytes::from_vec(buffer)));
            }
            Err(FillError::NotPresent) => return Ok(None),
            Err(FillError::TooLong) => {
                let more = buffer.len();
                buffer.resize(more * 2, 0)?;
            }
        }
    }
    Err(Memory)
}

/// A variable of the process; none where it isn't set.
pub(super) fn variable<E: Env>(
    env: &E,
    alloc: Global,
    name: &str,
) -> Result<Option<Bytes>, Memory> {
    bytes_of(env, alloc, Asked::Variable(name))
}

/// The whole command line, the program's own name first. Each word is the bytes that the system gives, whatever they
/// are.
pub fn command_line<E: Env>(env: &E, alloc: Global) -> Result<Words, Memory> {
    let mut line = Words::new_in(alloc);
    add_words(env, alloc, &mut line).and(Ok(line))
}

// Adds all words of the command line.
fn add_words<E: Env>(env: &E, alloc: Global, line: &mut Words) -> Result<(), Memory> {
    for number in 0..usize::MAX {
        let Some(word) = bytes_of(env, alloc, Asked::Argument(number))? else {
            return Ok(());
        };
        let added = line.push(word.as_slice());
        drop(word);
        added?;
    }
    Ok(())
}
