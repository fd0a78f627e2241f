//! That a program's words are the bytes that it was given, whatever they are and however many.
use cw_base::{Memory, Words};
use cw_run::command_line;
use std::alloc::Global;
use std::env::{Env, FillError};
use std::test::Fail;

/// A command line that is given.
struct Given;

/// More bytes than are asked for at first.
const LONG: [u8; 700] = [b'a'; 700];

const WORDS: [&[u8]; 4] = [b"cweave", b"\xff", b"", &LONG];

impl Env for Given {
    fn arg(&self, i: usize, buf: &mut [u8]) -> Result<usize, FillError> {
        let Some(word) = WORDS.get(i) else {
            return Err(FillError::NotPresent);
        };
        let count = word.len();
        if count > buf.len() {
            return Err(FillError::TooLong);
        }
        buf[..count].copy_from_slice(word);
        Ok(count)
    }

    fn var(&self, _name: &str, _buf: &mut [u8]) -> Result<usize, FillError> {
        Err(FillError::NotPresent)
    }

    fn var_at(&self, _i: usize, _buf: &mut [u8]) -> Result<usize, FillError> {
        Err(FillError::NotPresent)
    }
}

fn has_words(line: &Words) -> bool {
    if line.len() != WORDS.len() {
        return false;
    }
    let mut same = true;
    for (i, word) in WORDS.iter().enumerate() {
        same = same && i < line.len() && line.word(i) == *word;
    }
    same
}

fn are_words(alloc: Global) -> Result<bool, Memory> {
    let line = command_line(&Given, alloc)?;
    Ok(has_words(&line))
}

#[test]
fn words_are_the_bytes_that_were_given(rt: HostRuntime) -> Result<(), Fail> {
    assert!(rt; are_words(rt.alloc())?);
    Ok(())
}
