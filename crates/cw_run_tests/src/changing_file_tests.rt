//! A real file that is read in part, or changed while it is read, beside one in memory.
ghost use Rattle.std.specs.Prelude.{◌<◌, IfSome};

use crate::recording::{Heard, Recording};
use cw_desk::{Desk, FileDesk, FileId, Opened};
use cw_test_desks::{desk_with, enter_new_folder};
use std::alloc::Global;
use std::fs;
use std::test::Fail;

/// The name of the file.
const NAME: &[u8] = b"a";

/// Opens the file, and reads two bytes of it.
fn begin<D: Desk>(desk: &mut D) -> Option<FileId>
    ensures { IfSome result (λ id. id.index < (D.told desk.new).opened) }
{
    let Opened::File(id) = desk.open(NAME) else {
        return None;
    };
    let _ = desk.read(id, &mut [0; 2]);
    Some(id)
}

/// Reads on, 64 bytes at a time.
fn go_on<D: Desk>(desk: &mut D, id: FileId)
    requires { id.index < (D.told desk.old).opened }
{
    let _ = desk.read(id, &mut [0; 64]);
    let _ = desk.read(id, &mut [0; 64]);
}

/// What is heard where two bytes are read and no more.
fn heard_of_part<D: Desk + Drop>(alloc: Global, desk: D) -> Vec<Heard> {
    let mut desk = Recording::of(alloc, desk);
    let _ = begin(&mut desk);
    let (_, heard) = desk.into_parts();
    heard
}

/// What is heard where the file is read to its end, and the system's file gets these bytes when two were read.
fn heard_in_turns<D: Desk + Drop>(
    rt: HostRuntime,
    desk: D,
    bytes: &[u8],
) -> Result<Vec<Heard>, Fail> {
    let mut desk = Recording::of(rt.alloc(), desk);
    if let Some(id) = begin(&mut desk) {
        fs::write(&rt, "a", bytes)?;
        go_on(&mut desk, id);
    }
    let (_, heard) = desk.into_parts();
    Ok(heard)
}

/// Whether a file of which two bytes are read may be "one" or "on".
fn has_any_rest(rt: HostRuntime) -> Result<[bool; 2], Fail> {
    let alloc = rt.alloc();
    let real = heard_of_part(alloc, FileDesk::new_in(rt, alloc));
    let one = heard_of_part(alloc, desk_with(alloc, &[(NAME, b"one")])?);
    let on = heard_of_part(alloc, desk_with(alloc, &[(NAME, b"on")])?);
    Ok([real == one, real == on])
}

/// Whether a file that is changed while it is read is the text that came.
fn is_what_came(rt: HostRuntime) -> Result<bool, Fail> {
    let alloc = rt.alloc();
    let real = heard_in_turns(rt, FileDesk::new_in(rt, alloc), b"an answer")?;
    let came = heard_in_turns(rt, desk_with(alloc, &[(NAME, b"on answer")])?, b"one")?;
    Ok(real == came)
}

#[test]
fn a_file_is_read_in_part_or_changed(rt: HostRuntime) -> Result<(), Fail> {
    enter_new_folder(rt)?;
    fs::write(&rt, "a", b"one")?;
    assert_eq!(rt; (has_any_rest(rt)?, is_what_came(rt)?), ([true; 2], true));
    Ok(())
}
