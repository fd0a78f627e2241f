//! Tests of lines: a long name is cut, a put that fails is a fault, and a byte that ends no line is pending.
ghost use Rattle.std.specs.Prelude.{IsTrue, OnOk};
ghost use Rattle.cw_base.specs.declared.event.Out.TheVariants.{Tex};
ghost use Rattle.cw_desk.specs.Meaning.{is_open};
ghost use Rattle.cw_desk.specs.model.Mem.{tell_mem};
ghost use Rattle.cw_lines.specs.Writes.{CanWrite};

use crate::told::expect;
use cw_base::{Bytes, Memory, Out};
use cw_desk::MemDesk;
use cw_lines::{LineOut, PutError, write_all};
use cw_test_desks::{desk_making, written};
use std::alloc::Global;
use std::test::Fail;

/// Puts bytes on a line, which can be written on afterwards.
fn put_bytes(line: &mut LineOut, bytes: &[u8], desk: &mut MemDesk) -> Result<(), PutError>
    requires can { CanWrite (tell_mem desk.old) line.old }
    ensures again { OnOk result (CanWrite (tell_mem desk.new) line.new) }
{
    line.put_all(bytes, desk)?;
    Ok(())
}

/// Puts a long name on a line, ends the line, and tells whether it had begun before.
fn put_long_name(line: &mut LineOut, desk: &mut MemDesk) -> Result<bool, PutError>
    requires can { CanWrite (tell_mem desk.old) line.old }
{
    put_bytes(line, b"\\M{1}\n\\Y\\B\\\\{", desk)?;
    put_bytes(line, &[b'a'; 200], desk)?;
    put_bytes(line, b"}\\par\n\\fi", desk)?;
    let begun = !line.is_empty();
    line.end_line(desk)?;
    write_all(desk, Out::Term, b"Done.\n")?;
    Ok(begun)
}

/// Whether the third and the fourth line are broken then, and whether the line was begun and is ended; and the number
/// of lines.
fn shape_of_long_name(line: &mut LineOut, desk: &mut MemDesk) -> Result<([bool; 3], u64), PutError>
    requires can { CanWrite (tell_mem desk.old) line.old }
{
    let begun = put_long_name(line, desk)?;
    let broken = line.broken() == [3, 4].as_slice();
    Ok(([broken, begun, line.is_empty()], line.lines()))
}

/// The same on a line of its own, and all that is written then.
fn long_name_on(alloc: Global, desk: &mut MemDesk) -> Result<(Bytes, ([bool; 3], u64)), Fail>
    requires { IsTrue (is_open desk.old.outputs Tex) }
{
    let mut line = LineOut::new_in(alloc, Out::Tex);
    let shape = shape_of_long_name(&mut line, desk)?;
    Ok((written(alloc, desk.journal())?, shape))
}

fn long_name(alloc: Global) -> Result<(Bytes, ([bool; 3], u64)), Fail> {
    let mut desk = desk_making(alloc, Out::Tex)?;
    long_name_on(alloc, &mut desk)
}

#[test]
fn a_long_name_is_cut(rt: HostRuntime) -> Result<(), Fail> {
    let (text, shape) = long_name(rt.alloc())?;
    expect(
        &rt,
        &text,
        b"\\M{1}
\\Y\\B%
\\\\{aaaaaaaaaaaaaaaaaaaaaaaaaaaaaaaaaaaaaaaaaaaaaaaaaaaaaaaaaaaaaaaaaaaaaaaaaaaa%
aaaaaaaaaaaaaaaaaaaaaaaaaaaaaaaaaaaaaaaaaaaaaaaaaaaaaaaaaaaaaaaaaaaaaaaaaaaaaaa%
aaaaaaaaaaaaaaaaaaaaaaaaaaaaaaaaaaaaaaaaaaaaa}\\par
\\fi
Done.
",
    );
    assert_eq!(rt; shape, ([true; 3], 6));
    Ok(())
}

/// Whether a put is a fault.
fn put_fails(alloc: Global, desk: &mut MemDesk) -> bool
    requires { IsTrue (is_open desk.old.outputs Tex) }
{
    let mut line = LineOut::new_in(alloc, Out::Tex);
    line.put_all(b"abc\nd\n", desk) == Err(PutError::Fault)
}

/// The same where the third call fails; how many calls there are, and what is written.
fn put_with_fault_on(alloc: Global, desk: &mut MemDesk) -> Result<(bool, u64, Bytes), Memory>
    requires { IsTrue (is_open desk.old.outputs Tex) }
{
    desk.limit(2)?;
    desk.fail_at(3)?;
    let failed = put_fails(alloc, desk);
    Ok((failed, desk.calls(), written(alloc, desk.journal())?))
}

fn put_with_fault(alloc: Global) -> Result<(bool, u64, Bytes), Memory> {
    let mut desk = desk_making(alloc, Out::Tex)?;
    put_with_fault_on(alloc, &mut desk)
}

#[test]
fn a_failing_put_is_a_fault(rt: HostRuntime) -> Result<(), Fail> {
    let (failed, calls, text) = put_with_fault(rt.alloc())?;
    expect(&rt, &text, b"ab");
    assert!(rt; failed && calls == 3, "no call follows");
    Ok(())
}

/// Whether a line has begun by its first byte, and how many calls there were.
fn put_one_byte_on(alloc: Global, desk: &mut MemDesk) -> Result<(bool, u64), PutError>
    requires { IsTrue (is_open desk.old.outputs Tex) }
{
    let mut line = LineOut::new_in(alloc, Out::Tex);
    line.put(b'a', desk)?;
    Ok((!line.is_empty(), desk.calls()))
}

fn put_one_byte(alloc: Global) -> Result<(bool, u64), Fail> {
    let mut desk = desk_making(alloc, Out::Tex)?;
    Ok(put_one_byte_on(alloc, &mut desk)?)
}

#[test]
fn one_byte_is_pending(rt: HostRuntime) -> Result<(), Fail> {
    let seen = put_one_byte(rt.alloc())?;
    assert_eq!(rt; seen, (true, 1), "no line is ended");
    Ok(())
}
