//! Whole runs of `check`: what is printed of a file, and the status.
use crate::programs::journal_text;
use cw_base::{Bytes, Exit, Memory, Silent, Steps};
use cw_desk::MemDesk;
use cw_log::{LOG_LIMIT, check};
use cw_run::status_of;
use cw_test_desks::desk_with;
use std::alloc::Global;
use std::test::Fail;

// Files, what is printed of each, and the status.
static RUNS: [(&str, &str, Exit); 15] = [
    ("", "accepted: 0 texts, 0 productions\n", Exit::Clean),
    (
        "text 0\nend",
        "accepted: 1 texts, 0 productions\n",
        Exit::Clean,
    ),
    (
        "text 6\nb exp i\ns binop\nb exp i\ns ubinop\ns exp\ns semi\nP6 0\nP6 0\nP8 0\nend\n",
        "accepted: 1 texts, 3 productions\n",
        Exit::Clean,
    ),
    // A production lacks.
    (
        "text 6\nb exp i\ns binop\nb exp i\ns ubinop\ns exp\ns semi\nP6 0\nP8 0\nend\n",
        "rejected: text 1 after 1 productions\n",
        Exit::Errors,
    ),
    // There is one too many.
    (
        "text 6\nb exp i\ns binop\nb exp i\ns ubinop\ns exp\ns semi\nP6 0\nP6 0\nP8 0\nP8 0\nend\n",
        "rejected: text 1 after 3 productions\n",
        Exit::Errors,
    ),
    (
        "text 6\nb exp i\ns binop\nb exp i\ns ubinop\ns exp\ns semi\nP6 0\nP6 0\nP8 0\n",
        "! Not a log (line 11)\n",
        Exit::Errors,
    ),
    // Productions are counted in their own text.
    (
        "text 1\ns dot\nP97 0\nend\ntext 2\ns exp\ns semi\nP97 0\nP8 0\nend\n",
        "rejected: text 2 after 0 productions\n",
        Exit::Errors,
    ),
    // What is no log is told, though a text before it is wrong.
    (
        "text 0\nP6 0\nend\nend\n",
        "! Not a log (line 4)\n",
        Exit::Errors,
    ),
    (
        "text 4\nb exp f\ns lpar\nb exp x\ns rpar\nP12 1\nP11 0\nend\ntext 1\ns section_scrap\nP80 0\nend\n\
         text 3\ns dead\nb exp x\ns semi\nP8 1\nend\n",
        "accepted: 3 texts, 4 productions\n",
        Exit::Clean,
    ),
    // A word like `case` hides what stands behind it, and a leaf of one name isn't that name.
    (
        "text 2\nc dead f\nb exp b\nend\ntext 2\ni dead g x\nb exp x\nend\ntext 1\ns dead\nend\n",
        "accepted: 3 texts, 0 productions\n",
        Exit::Clean,
    ),
    (
        "text 3\ns raw_int\nb exp x\ns semi\nP89 0\nP29 0\nP33 0\nP37 0\nend\n",
        "accepted: 1 texts, 4 productions\n",
        Exit::Clean,
    ),
    // A name becomes a type in its own text.
    (
        "text 13\ns typedef_like\ns struct_like\nb exp foo\ns lbrace\ns raw_int\nb exp x\ns semi\ns rbrace\nb exp bar\n\
         s semi\nb exp bar\nb exp y\ns semi\nP42 1\nP89 2\nP29 2\nP33 2\nP37 2\nP44 1\nP83 0\nP84 0\nP86 0\nP89 1\n\
         P29 1\nP33 1\nP37 1\nP38 0\nend\n",
        "accepted: 1 texts, 14 productions\n",
        Exit::Clean,
    ),
    // Behind `struct` it becomes none.
    (
        "text 6\ns struct_like\nb exp foo\ns semi\nb exp foo\nb exp x\ns semi\nP41 0\nP37 0\nP136 1\nP8 1\nP39 0\n\
         end\n",
        "accepted: 1 texts, 5 productions\n",
        Exit::Clean,
    ),
    ("text 0\nend\nx", "! Not a log (line 3)\n", Exit::Errors),
    ("text 01\n", "! Not a log (line 1)\n", Exit::Errors),
];

// A part of a log that is too long for its line, and for a log.
const PORTION: [u8; 4096] = [b'x'; 4096];

// What `check` prints of the file `foo.log` over a desk, and the status.
fn checked(alloc: Global, mut desk: MemDesk) -> Result<(Bytes, Exit), Memory> {
    let exit = status_of(check(alloc, b"foo.log", &mut desk, &mut Steps::<Silent>::new()));
    Ok((journal_text(alloc, desk.journal())?, exit))
}

// The same where the file has these bytes.
fn seen(alloc: Global, log: &[u8]) -> Result<(Bytes, Exit), Memory> {
    checked(alloc, desk_with(alloc, &[(b"foo.log", log)])?)
}

#[test]
fn logs_are_checked(rt: HostRuntime) -> Result<(), Fail> {
    for (log, told, status) in &RUNS {
        let (text, exit) = seen(rt.alloc(), log.as_bytes())?;
        assert_eq!(rt; text.as_slice(), told.as_bytes());
        assert_eq!(rt; exit, *status);
    }
    Ok(())
}

#[test]
fn a_log_that_is_missing(rt: HostRuntime) -> Result<(), Fail> {
    let (text, exit) = checked(rt.alloc(), MemDesk::new_in(rt.alloc()))?;
    let told = b"! Cannot open log foo.log\n".as_slice();
    assert_eq!(rt; (text.as_slice(), exit), (told, Exit::Errors));
    Ok(())
}

// What `check` prints of a file of so many bytes more than a log may have, none of which ends a line; and the status.
fn seen_of_long(alloc: Global, more: usize) -> Result<(Bytes, Exit), Memory> {
    let mut log = Bytes::new_in(alloc);
    for _ in 0..LOG_LIMIT / 4096 {
        log.append(&PORTION)?;
    }
    log.append(&PORTION[..more.min(PORTION.len())])?;
    seen(alloc, log.as_slice())
}

#[test]
fn a_log_has_67_108_864_bytes_at_most(rt: HostRuntime) -> Result<(), Fail> {
    let (text, exit) = seen_of_long(rt.alloc(), 0)?;
    let told = b"! Not a log (line 1)\n".as_slice();
    assert_eq!(rt; (text.as_slice(), exit), (told, Exit::Errors));
    let (text, exit) = seen_of_long(rt.alloc(), 1)?;
    let told = b"! Log is longer than 67108864 bytes\n".as_slice();
    assert_eq!(rt; (text.as_slice(), exit), (told, Exit::Errors));
    Ok(())
}
