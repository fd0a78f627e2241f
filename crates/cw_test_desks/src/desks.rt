//! Desks in memory, and the words of command lines.
ghost use Rattle.std.specs.Prelude.{◌≡◌, [], IfOk, IsTrue, OnOk};
ghost use Rattle.cw_desk.specs.Meaning.{is_open};

use cw_base::{Memory, Out, Words};
use cw_desk::{Desk, MadeOut, MemDesk};
use std::alloc::Global;

fn add_files(desk: &mut MemDesk, files: &[(&[u8], &[u8])]) -> Result<(), Memory>
    requires unread { desk.old.rests ≡ [] }
    ensures unread { OnOk result (desk.new.rests ≡ []) }
{
    for (name, bytes) in files {
        desk.add_file(name, bytes)?;
    }
    Ok(())
}

/// A desk with these files, of which none is opened.
pub fn desk_with(alloc: Global, files: &[(&[u8], &[u8])]) -> Result<MemDesk, Memory>
    ensures unread { IfOk result (λ desk. desk.rests ≡ []) }
{
    let mut desk = MemDesk::new_in(alloc);
    add_files(&mut desk, files).and(Ok(desk))
}

/// A desk on which an output is made.
pub fn desk_making(alloc: Global, out: Out) -> Result<MemDesk, Memory>
    ensures made { IfOk result (λ desk. IsTrue (is_open desk.outputs out)) }
{
    let mut desk = MemDesk::new_in(alloc);
    match desk.make(out, b"made") {
        MadeOut::Done => Ok(desk),
        _ => Err(Memory),
    }
}

fn push_all(list: &mut Words, words: &[&[u8]]) -> Result<(), Memory> {
    for word in words {
        list.push(word)?;
    }
    Ok(())
}

/// The words of a command line.
pub fn words_of(alloc: Global, words: &[&[u8]]) -> Result<Words, Memory> {
    let mut list = Words::new_in(alloc);
    push_all(&mut list, words).and(Ok(list))
}
