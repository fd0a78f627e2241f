//! What no clause says of drafts: that the calls succeed, and what becomes of real files.

use crate::told::{Told, tells};
use cw_base::{Memory, Out};
use cw_desk::{Batch, CountDesk, Desk, FileDesk, Flushed, MadeOut, MemDesk, QuietDesk, Taken};
use cw_test_desks::has_bytes;
use std::alloc::Global;
use std::fs;
use std::test::Fail;
use std::time::{SystemTime, UNIX_EPOCH};

/// Drafts an output twice, keeps one draft and replaces the other, and tells whether each call succeeded.
fn draft_twice<D: Desk>(desk: &mut D) -> bool {
    desk.draft(Out::Tex, b"a.tex") == MadeOut::Done
        && desk.put(Out::Tex, b"x") == Taken::Bytes(1)
        && desk.keep(Out::Tex) == MadeOut::Done
        && desk.draft(Out::Tex, b"a.tex") == MadeOut::Done
        && desk.replace(Out::Tex) == MadeOut::Done
}

/// What the journal has then.
const DRAFTED: [Told<'static>; 5] = [
    Told::Drafted(Out::Tex, b"a.tex"),
    Told::Byte(Out::Tex, b'x'),
    Told::Kept(Out::Tex),
    Told::Drafted(Out::Tex, b"a.tex"),
    Told::Replaced(Out::Tex),
];

/// Whether the calls succeed on a desk in memory, and whether its journal has them.
fn in_memory(alloc: Global) -> [bool; 2] {
    let mut desk = MemDesk::new_in(alloc);
    let succeeded = draft_twice(&mut desk);
    [succeeded, tells(desk.journal(), &DRAFTED)]
}

/// The same of a desk on which nothing fails.
fn quietly(alloc: Global) -> [bool; 2] {
    let mut desk = QuietDesk::new_in(alloc);
    let succeeded = draft_twice(&mut desk);
    [succeeded, tells(desk.journal(), &DRAFTED)]
}

/// Whether the calls succeed through a batch, that at its end included.
fn draft_in_batch(alloc: Global, below: &mut MemDesk) -> bool {
    let mut batch = Batch::new_in(alloc, below);
    let succeeded = draft_twice(&mut batch);
    let (flushed, _below) = batch.finish();
    succeeded && flushed == Flushed::Done
}

/// The same, and whether the journal of the desk below has them.
fn through_batch(alloc: Global) -> [bool; 2] {
    let mut below = MemDesk::new_in(alloc);
    let succeeded = draft_in_batch(alloc, &mut below);
    [succeeded, tells(below.journal(), &DRAFTED)]
}

#[test]
fn drafts_in_memory(rt: HostRuntime) {
    let counted = draft_twice(&mut CountDesk::new());
    let seen = [
        in_memory(rt.alloc()),
        quietly(rt.alloc()),
        through_batch(rt.alloc()),
        [counted, true],
    ];
    assert_eq!(rt; seen, [[true; 2]; 4]);
}

/// Whether drafts succeed where a call fails, and how many calls and events there are.
fn fail_on(desk: &mut MemDesk, call: u64) -> Result<(bool, u64, u64), Memory> {
    desk.fail_at(call)?;
    let succeeded = draft_twice(desk);
    Ok((succeeded, desk.calls(), desk.journal().len() as u64))
}

fn where_call_fails(alloc: Global, call: u64) -> Result<(bool, u64, u64), Memory> {
    let mut desk = MemDesk::new_in(alloc);
    fail_on(&mut desk, call)
}

#[test]
fn each_call_on_a_draft_fails(rt: HostRuntime) -> Result<(), Fail> {
    for call in 1..=5u64 {
        let seen = where_call_fails(rt.alloc(), call)?;
        assert_eq!(rt; seen, (false, call, call - 1));
    }
    Ok(())
}

/// A path of its own for a file of a test.
fn new_path(rt: HostRuntime, name: &str) -> Result<String, Fail> {
    let now = SystemTime::now(&rt)?.duration_since(UNIX_EPOCH)?.as_nanos();
    let folder = std::env::temp_dir(&rt)?;
    Ok(format!(in rt.alloc(); "{}/cw_desk-{now}-{name}", folder.as_str())?)
}

/// The answers to a put and to the end of a draft, and whether a file had the bytes that it should between them.
type Ended = (Taken, bool, MadeOut);

/// Drafts the bytes that a file has, and keeps the file. The draft has them before.
fn keep(rt: HostRuntime, desk: &mut FileDesk, path: &str, draft: &str) -> Result<Ended, Fail> {
    if desk.draft(Out::Tex, path.as_bytes()) != MadeOut::Done {
        return Err(Fail::from("there is no draft to keep the file"));
    }
    let taken = desk.put(Out::Tex, b"old");
    let drafted = has_bytes(rt, draft, b"old")?;
    Ok((taken, drafted, desk.keep(Out::Tex)))
}

/// Drafts other bytes, and replaces the file, which is as it was until then.
fn replace(rt: HostRuntime, desk: &mut FileDesk, path: &str) -> Result<Ended, Fail> {
    if desk.draft(Out::Tex, path.as_bytes()) != MadeOut::Done {
        return Err(Fail::from("there is no draft to replace the file"));
    }
    let taken = desk.put(Out::Tex, b"new text");
    let unchanged = has_bytes(rt, path, b"old")?;
    Ok((taken, unchanged, desk.replace(Out::Tex)))
}

/// What keeping a file answers; that no draft stays behind, and that the file's time stamp stays.
fn keep_file(
    rt: HostRuntime,
    desk: &mut FileDesk,
    path: &str,
    draft: &str,
) -> Result<(Ended, [bool; 2]), Fail> {
    let before = fs::metadata(&rt, path)?.modified()?;
    let kept = keep(rt, desk, path, draft)?;
    let gone = !fs::exists(&rt, draft)?;
    let after = fs::metadata(&rt, path)?.modified()?;
    Ok((kept, [gone, after == before]))
}

/// What replacing a file answers; that it has the new bytes, and that no draft stays behind.
fn replace_file(
    rt: HostRuntime,
    desk: &mut FileDesk,
    path: &str,
    draft: &str,
) -> Result<(Ended, [bool; 2]), Fail> {
    let replaced = replace(rt, desk, path)?;
    let renewed = has_bytes(rt, path, b"new text")?;
    Ok((replaced, [renewed, !fs::exists(&rt, draft)?]))
}

/// What keeping a file and then replacing it answer.
fn end_both(
    rt: HostRuntime,
    desk: &mut FileDesk,
    path: &str,
    draft: &str,
) -> Result<[(Ended, [bool; 2]); 2], Fail> {
    let kept = keep_file(rt, desk, path, draft)?;
    Ok([kept, replace_file(rt, desk, path, draft)?])
}

/// The same for one desk.
fn keep_and_replace(
    rt: HostRuntime,
    path: &str,
    draft: &str,
) -> Result<[(Ended, [bool; 2]); 2], Fail> {
    let mut desk = FileDesk::new_in(rt, rt.alloc());
    end_both(rt, &mut desk, path, draft)
}

/// The same for a file of the old bytes, which is gone behind it.
fn keep_and_replace_old(
    rt: HostRuntime,
    path: &str,
    draft: &str,
) -> Result<[(Ended, [bool; 2]); 2], Fail> {
    fs::write(&rt, path, "old")?;
    let ended = keep_and_replace(rt, path, draft)?;
    fs::remove_file(&rt, path)?;
    Ok(ended)
}

/// The path of a draft.
fn draft_of(rt: HostRuntime, path: &str) -> Result<String, Fail> {
    Ok(format!(in rt.alloc(); "{path}.new")?)
}

#[test]
fn drafts_of_real_files(rt: HostRuntime) -> Result<(), Fail> {
    let path = new_path(rt, "a.tex")?;
    let draft = draft_of(rt, path.as_str())?;
    let seen = keep_and_replace_old(rt, path.as_str(), draft.as_str())?;
    let wanted = [3, 8].map(|size| ((Taken::Bytes(size), true, MadeOut::Done), [true; 2]));
    assert_eq!(rt; seen, wanted);
    Ok(())
}

/// The answers for a folder that is missing, and for a path that is none.
fn refused_paths(desk: &mut FileDesk) -> [MadeOut; 2] {
    [
        desk.draft(Out::Idx, b"/no/such/folder/b"),
        desk.draft(Out::Idx, b"\xff"),
    ]
}

/// The answers for a draft that is gone before it is kept or replaces its file.
fn lost_draft(
    rt: HostRuntime,
    desk: &mut FileDesk,
    path: &str,
    draft: &str,
) -> Result<[MadeOut; 3], Fail> {
    let drafted = desk.draft(Out::Scn, path.as_bytes());
    if drafted != MadeOut::Done {
        return Ok([drafted; 3]);
    }
    fs::remove_file(&rt, draft)?;
    let kept = desk.keep(Out::Scn);
    if kept == MadeOut::Done {
        return Ok([kept; 3]);
    }
    Ok([drafted, kept, desk.replace(Out::Scn)])
}

/// All these answers.
fn refused_on(
    rt: HostRuntime,
    desk: &mut FileDesk,
    path: &str,
    draft: &str,
) -> Result<([MadeOut; 2], [MadeOut; 3]), Fail> {
    let paths = refused_paths(desk);
    Ok((paths, lost_draft(rt, desk, path, draft)?))
}

fn refused_drafts(
    rt: HostRuntime,
    path: &str,
    draft: &str,
) -> Result<([MadeOut; 2], [MadeOut; 3]), Fail> {
    let mut desk = FileDesk::new_in(rt, rt.alloc());
    refused_on(rt, &mut desk, path, draft)
}

#[test]
fn drafts_that_the_system_refuses(rt: HostRuntime) -> Result<(), Fail> {
    let path = new_path(rt, "b.tex")?;
    let draft = draft_of(rt, path.as_str())?;
    let seen = refused_drafts(rt, path.as_str(), draft.as_str())?;
    let lost = [MadeOut::Done, MadeOut::Failed, MadeOut::Failed];
    assert_eq!(rt; seen, ([MadeOut::Failed; 2], lost));
    Ok(())
}
