//! Why a desk of real files failed: what the call was about, and what the system said.
use cw_base::{Bytes, Memory};
use std::alloc::Global;
use std::io::{self, Write};

/// What stands behind the system's words where an error is printed.
const NUMBER: &[u8] = b" (os error ";

/// A call that the system refused.
#[derive(Drop)]
pub(super) struct Failure {
    // The file's name; empty where memory for it was wanting.
    name: Bytes,
    error: io::Error,
}

impl Failure {
    /// That the system gave this error for the file of this name.
    pub(super) fn new(alloc: Global, name: &[u8], error: io::Error) -> Failure {
        let name = match Bytes::from_slice(alloc, name) {
            Ok(name) => name,
            Err(Memory) => Bytes::new_in(alloc),
        };
        Failure { name, error }
    }

    /// Writes it to standard error as a line: the program, the file's name and the system's words. What standard error
    /// doesn't take is lost.
    pub(super) fn tell(&self, rt: &HostRuntime, alloc: Global, program: &str) {
        if let Ok(line) = self.line(alloc, program) {
            let _ = rt.stderr().write_all(line.as_slice());
        }
    }

    fn line(&self, alloc: Global, program: &str) -> Result<Bytes, Memory> {
        let mut line = Bytes::from_slice(alloc, program.as_bytes())?;
        line.append(b": ")?;
        if !self.name.is_empty() {
            line.append(self.name.as_slice())?;
            line.append(b": ")?;
        }
        let said = self.error.to_string(alloc)?;
        line.append(words_of(said.as_bytes()))?;
        line.push(b'\n')?;
        Ok(line)
    }
}

// The system's words: all before the error's number.
fn words_of(said: &[u8]) -> &[u8] {
    let number = said
        .windows(NUMBER.len())
        .position(|window| window == NUMBER);
    match number {
        Some(at) if at < said.len() => &said[..at],
        _ => said,
    }
}
