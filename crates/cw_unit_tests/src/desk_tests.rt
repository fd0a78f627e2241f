//! What no clause says of desks: that calls succeed, and what the system answers.
ghost use Rattle.std.specs.Prelude.{◌≡◌, ◌<◌, [], length};

use crate::told::{Told, tells};
use cw_base::{Memory, Out};
use cw_desk::{
    Batch, CountDesk, Desk, Fetched, FileDesk, Flushed, MadeOut, MemDesk, Opened, QuietDesk, Taken,
};
use cw_test_desks::desk_with;
use std::alloc::Global;
use std::test::Fail;

/// Makes an output and puts bytes to it. The answer is that of the put, or that of a making that did not succeed.
fn make_and_put<D: Desk>(
    desk: &mut D,
    out: Out,
    name: &[u8],
    bytes: &[u8],
) -> Result<Taken, MadeOut>
    requires some { 0 < length bytes.now }
{
    match desk.make(out, name) {
        MadeOut::Done => Ok(desk.put(out, bytes)),
        made => Err(made),
    }
}

/// What a desk answers that has no file `b`, and whose file `a` is read until a call fails; and the bytes of the first
/// read.
fn read_until_failing(desk: &mut MemDesk) -> Result<(Opened, [Fetched; 4], [u8; 3]), Fail> {
    let missing = desk.open(b"b");
    let Opened::File(id) = desk.open(b"a") else {
        return Err(Fail::from("it has no file"));
    };
    let mut buffer = [0u8; 8];
    let first = desk.read(id, &mut buffer);
    let bytes = [buffer[0], buffer[1], buffer[2]];
    let second = desk.read(id, &mut buffer);
    let third = desk.read(id, &mut buffer);
    let fourth = desk.read(id, &mut buffer);
    Ok((missing, [first, second, third, fourth], bytes))
}

/// The desk gives three bytes at first, and its fifth call fails.
fn set_failing(desk: &mut MemDesk) -> Result<(), Memory> {
    desk.limit(3)?;
    desk.limit(9)?;
    desk.fail_at(5)
}

/// What its journal has then.
static WRITTEN: [Told<'static>; 2] = [Told::Made(Out::Tex, b"a.tex"), Told::Byte(Out::Tex, b'x')];

/// The answer of a desk that is written to, how often it was called, and whether its journal has that and no more.
fn write_in_memory(desk: &mut MemDesk) -> (Result<Taken, MadeOut>, u64, bool) {
    let taken = make_and_put(desk, Out::Tex, b"a.tex", b"x");
    (taken, desk.calls(), tells(desk.journal(), &WRITTEN))
}

/// What the desk answers that is read and then written to.
type Used = (
    (Opened, [Fetched; 4], [u8; 3]),
    (Result<Taken, MadeOut>, u64, bool),
);

fn use_until_failing(desk: &mut MemDesk) -> Result<Used, Fail> {
    set_failing(desk)?;
    Ok((read_until_failing(desk)?, write_in_memory(desk)))
}

/// The same on a desk with two files of one name.
fn used_until_failing(alloc: Global) -> Result<Used, Fail> {
    let mut desk = desk_with(alloc, &[(b"a", b"old"), (b"a", b"bytes")])?;
    use_until_failing(&mut desk)
}

#[test]
fn a_desk_in_memory(rt: HostRuntime) -> Result<(), Fail> {
    let (read, written) = used_until_failing(rt.alloc())?;
    let reads = [
        Fetched::Got(3),
        Fetched::Got(2),
        Fetched::Failed,
        Fetched::End,
    ];
    assert_eq!(rt; read, (Opened::Missing, reads, *b"byt"));
    assert_eq!(rt; written, (Ok(Taken::Bytes(1)), 8, true));
    Ok(())
}

#[test]
fn a_desk_that_keeps_nothing(rt: HostRuntime) -> Result<(), Fail> {
    let mut desk = CountDesk::new();
    let missing = desk.open(b"a");
    let tex = make_and_put(&mut desk, Out::Tex, b"a.tex", b"xyz");
    let term = desk.put(Out::Term, b"!");
    let wanted = [Ok(Taken::Bytes(3)), Ok(Taken::Bytes(1))];
    assert_eq!(rt; (missing, [tex, Ok(term)]), (Opened::Missing, wanted));
    Ok(())
}

/// What a desk answers that has no file `b`, and whose file `a` is read once; and the bytes of that read.
fn read_quietly(desk: &mut QuietDesk) -> Result<(Opened, Fetched, [u8; 2]), Fail> {
    let missing = desk.open(b"b");
    let Opened::File(id) = desk.open(b"a") else {
        return Err(Fail::from("it has no file"));
    };
    let mut buffer = [0u8; 8];
    let fetched = desk.read(id, &mut buffer);
    Ok((missing, fetched, [buffer[0], buffer[1]]))
}

/// The desk has a file then, and gives and takes two bytes at a time.
fn set_slow(desk: &mut QuietDesk) -> Result<(), Memory>
    requires { desk.old.rests ≡ [] }
{
    desk.add_file(b"a", b"bytes")?;
    desk.limit(2)
}

/// The answer of a desk that is written to, how often it was called, and how long its journal is.
fn write_quietly(desk: &mut QuietDesk) -> (Result<Taken, MadeOut>, u64, usize) {
    let taken = make_and_put(desk, Out::Tex, b"a.tex", b"xyz");
    (taken, desk.calls(), desk.journal().len())
}

/// What the desk answers that is read and then written to.
type UsedQuietly = (
    (Opened, Fetched, [u8; 2]),
    (Result<Taken, MadeOut>, u64, usize),
);

fn use_quietly(desk: &mut QuietDesk) -> Result<UsedQuietly, Fail>
    requires { desk.old.rests ≡ [] }
{
    set_slow(desk)?;
    Ok((read_quietly(desk)?, write_quietly(desk)))
}

fn used_quietly(alloc: Global) -> Result<UsedQuietly, Fail> {
    let mut desk = QuietDesk::new_in(alloc);
    use_quietly(&mut desk)
}

#[test]
fn a_desk_on_which_nothing_fails(rt: HostRuntime) -> Result<(), Fail> {
    let (read, written) = used_quietly(rt.alloc())?;
    assert_eq!(rt; read, (Opened::Missing, Fetched::Got(2), *b"by"));
    assert_eq!(rt; written, (Ok(Taken::Bytes(2)), 5, 3));
    Ok(())
}

/// What two reads of a file answer; nothing if there is no such file.
fn read_twice(desk: &mut FileDesk, path: &[u8]) -> Option<[Fetched; 2]> {
    let Opened::File(file) = desk.open(path) else {
        return None;
    };
    let mut buffer = [0u8; 8];
    Some([desk.read(file, &mut buffer), desk.read(file, &mut buffer)])
}

/// What is answered for two paths that lead nowhere, to two reads of an empty file, and to two of a file of zeros.
fn read_files(desk: &mut FileDesk) -> ([Opened; 2], [Option<[Fetched; 2]>; 2]) {
    let missing = [desk.open(b"/no/such/file"), desk.open(b"\xff")];
    let empty = read_twice(desk, b"/dev/null");
    (missing, [empty, read_twice(desk, b"/dev/zero")])
}

/// What is answered where bytes are put to a file that takes all, to one of no path, and to one that takes none.
fn write_files(desk: &mut FileDesk) -> [Result<Taken, MadeOut>; 3] {
    [
        make_and_put(desk, Out::Tex, b"/dev/null", b"x"),
        make_and_put(desk, Out::Idx, b"\xff", b"x"),
        make_and_put(desk, Out::Idx, b"/dev/full", b"x"),
    ]
}

/// All that is answered for real files.
fn used_files(
    rt: HostRuntime,
) -> (
    ([Opened; 2], [Option<[Fetched; 2]>; 2]),
    [Result<Taken, MadeOut>; 3],
) {
    let mut desk = FileDesk::new_in(rt, rt.alloc());
    (read_files(&mut desk), write_files(&mut desk))
}

#[test]
fn a_desk_of_real_files(rt: HostRuntime) -> Result<(), Fail> {
    let (read, written) = used_files(rt);
    let reads = [Some([Fetched::End; 2]), Some([Fetched::Got(8); 2])];
    assert_eq!(rt; read, ([Opened::Missing; 2], reads));
    let writes = [Ok(Taken::Bytes(1)), Err(MadeOut::Failed), Ok(Taken::Failed)];
    assert_eq!(rt; written, writes);
    Ok(())
}

/// Opens and reads a file, and writes to three outputs. It stops at the first call that fails.
fn read_and_write<D: Desk>(desk: &mut D) -> bool {
    let Opened::File(id) = desk.open(b"a") else {
        return false;
    };
    if desk.make(Out::Tex, b"a.tex") != MadeOut::Done {
        return false;
    }
    let mut buffer = [0u8; 8];
    desk.put(Out::Tex, b"x") == Taken::Bytes(1)
        && desk.put(Out::Tex, b"y") == Taken::Bytes(1)
        && desk.read(id, &mut buffer) == Fetched::Got(5)
        && desk.put(Out::Tex, b"z") == Taken::Bytes(1)
        && desk.put(Out::Term, b"!") == Taken::Bytes(1)
        && desk.put(Out::Tex, b"w") == Taken::Bytes(1)
        && desk.make(Out::Idx, b"a.idx") == MadeOut::Done
        && desk.put(Out::Idx, b"i") == Taken::Bytes(1)
        && desk.put(Out::Tex, b"v") == Taken::Bytes(1)
}

fn desk_with_a_file(alloc: Global) -> Result<MemDesk, Memory> {
    desk_with(alloc, &[(b"a", b"bytes")])
}

/// What the journal has then.
const READ_AND_WRITTEN: [Told<'static>; 9] = [
    Told::Made(Out::Tex, b"a.tex"),
    Told::Byte(Out::Tex, b'x'),
    Told::Byte(Out::Tex, b'y'),
    Told::Byte(Out::Tex, b'z'),
    Told::Byte(Out::Term, b'!'),
    Told::Byte(Out::Tex, b'w'),
    Told::Made(Out::Idx, b"a.idx"),
    Told::Byte(Out::Idx, b'i'),
    Told::Byte(Out::Tex, b'v'),
];

/// Reads and writes through a batch, and tells whether each call succeeded, that at its end included.
fn read_and_write_in_batch(alloc: Global, below: &mut MemDesk) -> bool {
    let mut batch = Batch::new_in(alloc, below);
    let succeeded = read_and_write(&mut batch);
    let (flushed, _below) = batch.finish();
    succeeded && flushed == Flushed::Done
}

/// Whether the calls succeed without a batch and through one, and whether both write the same; and how many calls there
/// are.
fn used_alike(alloc: Global, plain: &mut MemDesk, below: &mut MemDesk) -> ([bool; 4], [u64; 2]) {
    let succeeded = [
        read_and_write(plain),
        read_and_write_in_batch(alloc, below),
        tells(plain.journal(), &READ_AND_WRITTEN),
        tells(below.journal(), &READ_AND_WRITTEN),
    ];
    (succeeded, [plain.calls(), below.calls()])
}

/// The same on two desks with a file.
fn both_ways(alloc: Global) -> Result<([bool; 4], [u64; 2]), Memory> {
    let mut plain = desk_with_a_file(alloc)?;
    let mut below = desk_with_a_file(alloc)?;
    Ok(used_alike(alloc, &mut plain, &mut below))
}

#[test]
fn a_batch_writes_the_same_in_fewer_calls(rt: HostRuntime) -> Result<(), Fail> {
    assert_eq!(rt; both_ways(rt.alloc())?, ([true; 4], [11, 10]));
    Ok(())
}

/// Reads and writes through a batch, up to a call that does not succeed, and tells how its last flush ends.
fn flushed_at_end(alloc: Global, below: &mut MemDesk) -> Flushed {
    let mut batch = Batch::new_in(alloc, below);
    if read_and_write(&mut batch) {
        let (flushed, _below) = batch.finish();
        return flushed;
    }
    let _below = batch.discard();
    Flushed::Failed
}

/// The same where a call of the desk below fails, and how many calls of it there are.
fn fail_below(alloc: Global, below: &mut MemDesk, call: u64) -> Result<(Flushed, u64), Memory> {
    below.fail_at(call)?;
    let flushed = flushed_at_end(alloc, below);
    Ok((flushed, below.calls()))
}

fn flushed_where_call_fails(alloc: Global, call: u64) -> Result<(Flushed, u64), Memory> {
    let mut below = desk_with_a_file(alloc)?;
    fail_below(alloc, &mut below, call)
}

#[test]
fn nothing_follows_a_flush_that_failed(rt: HostRuntime) -> Result<(), Fail> {
    for call in 1..=10u64 {
        let seen = flushed_where_call_fails(rt.alloc(), call)?;
        assert_eq!(rt; seen, (Flushed::Failed, call));
    }
    Ok(())
}

/// Puts bytes to an output three times.
fn put_thrice<D: Desk>(desk: &mut D, bytes: &[u8]) -> Result<[Taken; 3], MadeOut>
    requires some { 0 < length bytes.now }
{
    match desk.make(Out::Tex, b"a.tex") {
        MadeOut::Done => Ok([
            desk.put(Out::Tex, bytes),
            desk.put(Out::Tex, bytes),
            desk.put(Out::Tex, bytes),
        ]),
        made => Err(made),
    }
}

/// The same through a batch that is not ended.
fn put_thrice_in_batch(alloc: Global, below: &mut MemDesk) -> Result<[Taken; 3], MadeOut> {
    let mut batch = Batch::new_in(alloc, below);
    let taken = put_thrice(&mut batch, &[b'x'; 20000]);
    let _below = batch.discard();
    taken
}

/// What the batch answers, and how many calls and events there are below it.
fn filled(alloc: Global) -> (Result<[Taken; 3], MadeOut>, u64, usize) {
    let mut below = MemDesk::new_in(alloc);
    let taken = put_thrice_in_batch(alloc, &mut below);
    (taken, below.calls(), below.journal().len())
}

#[test]
fn a_full_buffer_is_handed_on(rt: HostRuntime) -> Result<(), Fail> {
    let wanted = [20000, 12768, 20000].map(Taken::Bytes);
    assert_eq!(rt; filled(rt.alloc()), (Ok(wanted), 2, 32769));
    Ok(())
}

/// What a batch answers over a device that takes nothing, and how its end does.
fn put_to_full_device(rt: HostRuntime) -> (Result<Taken, MadeOut>, Flushed) {
    let mut batch = Batch::new_in(rt.alloc(), FileDesk::new_in(rt, rt.alloc()));
    let taken = make_and_put(&mut batch, Out::Tex, b"/dev/full", b"x");
    let (flushed, _) = batch.finish();
    (taken, flushed)
}

#[test]
fn a_full_device_fails_at_the_end(rt: HostRuntime) -> Result<(), Fail> {
    let wanted = (Ok(Taken::Bytes(1)), Flushed::Failed);
    assert_eq!(rt; put_to_full_device(rt), wanted);
    Ok(())
}
