//! Reading over files in memory.

ghost use Rattle.std.specs.Prelude.{◌≡◌, ◌<◌, [], OnOk, length};

use crate::told::expect;
use cw_base::{Bytes, LineInfo, Memory, Note, Web};
use cw_desk::MemDesk;
use cw_input::{Command, LoadError, load, read_command};
use cw_test_desks::{desk_with, words_of};
use std::alloc::Global;
use std::process::Abort;
use std::test::Fail;

// A web as a text: its lines, then where each was read with a `*` where it is marked, then its notes as the program
// prints them.
fn show(alloc: Global, web: &Web, out: &mut Bytes) -> Result<(), Fail> {
    out.append(web.text())?;
    for i in 0..web.line_count() {
        show_line(alloc, web, web.line(i), out)?;
    }
    for note in web.notes() {
        show_note(alloc, web, *note, out)?;
    }
    Ok(())
}

fn shown(alloc: Global, web: &Web) -> Result<Bytes, Fail> {
    let mut out = Bytes::new_in(alloc);
    show(alloc, web, &mut out)?;
    Ok(out)
}

fn show_line(alloc: Global, web: &Web, info: LineInfo, out: &mut Bytes) -> Result<(), Fail>
    requires { info.place.file < length web.now.files }
{
    let mark = if info.changed { "*" } else { "" };
    let line = info.place.line;
    show_text(format!(in alloc; "{line}{mark} ")?, out)?;
    show_name(web.file_name(info.place.file), b"\n", out)?;
    Ok(())
}

fn show_note(alloc: Global, web: &Web, note: Note, out: &mut Bytes) -> Result<(), Fail> {
    if (note.place.file as usize) < web.file_count() {
        let value = note.value;
        let text = note.kind.message();
        let line = note.place.line;
        show_text(format!(in alloc; "! {value} {text} (l. {line} of ")?, out)?;
        show_name(web.file_name(note.place.file), b")\n", out)?;
    }
    Ok(())
}

fn show_text(text: String, out: &mut Bytes) -> Result<(), Memory> {
    out.append(text.as_bytes())
}

fn show_name(name: &[u8], behind: &[u8], out: &mut Bytes) -> Result<(), Memory> {
    out.append(name)?;
    out.append(behind)
}

// What is shown of the web `foo` among these files, with a change file where there is a word for one.
fn loaded(alloc: Global, files: &[(&[u8], &[u8])], change: Option<&[u8]>) -> Result<Bytes, Fail> {
    let mut desk = desk_with(alloc, files)?;
    let web = load(alloc, &mut desk, b"foo", change)?;
    shown(alloc, &web)
}

fn expect_loaded(
    rt: &impl Abort,
    alloc: Global,
    files: &[(&[u8], &[u8])],
    change: Option<&[u8]>,
    wanted: &[u8],
) -> Result<(), Fail> {
    expect(rt, &loaded(alloc, files, change)?, wanted);
    Ok(())
}

// Change files for a web of three lines, and what is shown of the changed web.
static CHANGES: [(&[u8], &[u8]); 5] = [
    // The second old line differs.
    (
        b"@x\n@c a;\nc;\n@y\n@c z;\n@z\n",
        b"@ One.\n@c z;\n1 foo.w\n5* foo.ch\n! 1 of the preceding lines did not match (l. 4 of foo.ch)\n",
    ),
    // The file ends among the old lines, and the next line is marked.
    (
        b"@x\n@c a;\n",
        b"@ One.\nb;\n1 foo.w\n3* foo.w\n! 0 Change file ended before @y (l. 2 of foo.ch)\n",
    ),
    // The web ends among the old lines, and the group after it is met by no line.
    (
        b"@y\n@x\n\nb; \t\nc;\n@x\nd;\n@y\n@x\ne;\n@z\n@z\n@x\n@z\nf;\n@y\n@z\n",
        b"@ One.
@c a;
e;
1 foo.w
2 foo.w
10* foo.ch
! 0 Where is the matching @x? (l. 1 of foo.ch)
! 0 Web ended during a change (l. 5 of foo.ch)
! 0 Where is the matching @y? (l. 6 of foo.ch)
! 0 Where is the matching @z? (l. 9 of foo.ch)
! 0 Where is the matching @x? (l. 12 of foo.ch)
! 0 Where is the matching @y? (l. 14 of foo.ch)
! 0 Change did not match (l. 15 of foo.ch)
",
    ),
    // A group without old lines, and one that the file's end leaves without new lines.
    (
        b"@x\n@y\nnew\n@z\n@x\n@ One.\n@y\nnewer\n",
        b"newer
@c a;
b;
8* foo.ch
2 foo.w
3 foo.w
! 0 No old line in this change (l. 2 of foo.ch)
! 0 Change file ended before @z (l. 8 of foo.ch)
",
    ),
    // A group that takes the whole web away.
    (b"@x\n@ One.\n@c a;\nb;\n@y\n@z", b""),
];

#[test]
fn change_groups(rt: HostRuntime) -> Result<(), Fail> {
    for (change, wanted) in &CHANGES {
        let files: [(&[u8], &[u8]); 2] = [(b"foo.w", b"@ One.\n@c a;\nb;\n"), (b"foo.ch", change)];
        expect_loaded(&rt, rt.alloc(), &files, Some(b"foo"), wanted)?;
    }
    Ok(())
}

// A group reaches over the end of a file, an include line is a match line, and new lines include.
const INCLUDED: [(&[u8], &[u8]); 5] = [
    (
        b"foo.web",
        b"one\n@i \"b c\" more\n@include\ntwo\n@i b\n@I\n",
    ),
    (b"b c", b"x\ny"),
    (b"b", b"z\n"),
    (
        b"foo.ch",
        b"@x\ny\n@include\n@y\n@i b\n@i d\n@z\n@x\n@i b\n@y\nnew\n@z\n",
    ),
    (b"d", b"@y\n@i b\n@i nothing\n@z\n"),
];

// A file that includes itself is opened ten times.
static IN_ITSELF: [(&[u8], &[u8]); 2] = [(b"foo.w", b"@i a\n"), (b"a", b"@i a\nlast\n")];

#[test]
fn included_files(rt: HostRuntime) -> Result<(), Fail> {
    expect_loaded(
        &rt,
        rt.alloc(),
        &INCLUDED,
        Some(b"foo"),
        b"one
x
z
@y
z
@z
two
new
1 foo.web
1 b c
1* b
1* d
1* b
4* d
4 foo.web
11* foo.ch
! 0 Cannot open include file (l. 3 of d)
! 0 Include file name not given (l. 6 of foo.web)
",
    )?;
    expect_loaded(
        &rt,
        rt.alloc(),
        &IN_ITSELF,
        Some(b"-"),
        b"last
last
last
last
last
last
last
last
last
last
2 a
2 a
2 a
2 a
2 a
2 a
2 a
2 a
2 a
2 a
! 0 Too many nested includes (l. 1 of a)
",
    )
}

// Adds a file that begins as given and goes on with so many times a byte.
fn add_long_file(
    alloc: Global,
    desk: &mut MemDesk,
    name: &[u8],
    begin: &[u8],
    rest: (u8, usize),
) -> Result<(), Memory>
    requires { desk.old.rests ≡ [] }
    ensures unread { OnOk result (desk.new.rests ≡ []) }
{
    let (byte, count) = rest;
    let mut text = Bytes::from_slice(alloc, begin)?;
    text.append(vec![in alloc; byte; count]?.as_slice())?;
    desk.add_file(name, text.as_slice())
}

fn add_long_files(alloc: Global, desk: &mut MemDesk, sizes: [usize; 3]) -> Result<(), Memory>
    requires { desk.old.rests ≡ [] }
{
    let [web, change, included] = sizes;
    add_long_file(alloc, desk, b"foo.w", b"@ii\n", (b'a', web))?;
    add_long_file(alloc, desk, b"foo.ch", b"", (b'b', change))?;
    add_long_file(alloc, desk, b"i", b"", (b'c', included))
}

// How many bytes the web `foo` has, or how loading it fails.
fn load_length(alloc: Global, desk: &mut MemDesk) -> Result<usize, LoadError> {
    Ok(load(alloc, desk, b"foo", Some(b"foo"))?.text().len())
}

// How loading the web `foo` of files with so many bytes ends, when the first line of the web includes one.
fn load_sizes(alloc: Global, sizes: [usize; 3]) -> Result<Result<usize, LoadError>, Memory> {
    let mut desk = MemDesk::new_in(alloc);
    add_long_files(alloc, &mut desk, sizes)?;
    Ok(load_length(alloc, &mut desk))
}

// The bytes of the web behind its first line, of its change file and of the file that it includes, and how loading it
// ends.
type Sizes = ([usize; 3], Result<usize, LoadError>);

const SIZES: [Sizes; 6] = [
    ([8_388_604, 0, 0], Ok(8_388_605)),
    ([8_388_605, 0, 0], Err(LoadError::TooLong)),
    ([8_388_000, 604, 0], Ok(8_388_001)),
    ([8_388_000, 605, 0], Err(LoadError::TooLong)),
    ([1, 1, 8_388_602], Ok(8_388_605)),
    ([1, 1, 8_388_603], Err(LoadError::TooLong)),
];

#[test]
fn the_limit_on_bytes(rt: HostRuntime) -> Result<(), Fail> {
    for (sizes, wanted) in &SIZES {
        assert_eq!(rt; load_sizes(rt.alloc(), *sizes)?, *wanted);
    }
    Ok(())
}

// The errors for a web and for a change file that are missing.
fn errors_of_names(alloc: Global) -> Result<[Option<LoadError>; 2], Memory> {
    let mut desk = desk_with(alloc, &[(b"foo.web", b"@i a\n")])?;
    let no_web = load(alloc, &mut desk, b"bar", None).err();
    let no_change = load(alloc, &mut desk, b"foo", Some(b"foo.")).err();
    Ok([no_web, no_change])
}

const FILES: [(&[u8], &[u8]); 3] = [
    (b"foo.web", b"@i a\n"),
    (b"foo.ch", b"@x\n"),
    (b"a", b"last"),
];

// How loading the web ends where a call of the desk fails.
fn fail_on(
    alloc: Global,
    desk: &mut MemDesk,
    call: u64,
) -> Result<Result<usize, LoadError>, Memory> {
    desk.fail_at(call)?;
    Ok(load_length(alloc, desk))
}

fn load_where_call_fails(alloc: Global, call: u64) -> Result<Result<usize, LoadError>, Memory> {
    let mut desk = desk_with(alloc, &FILES)?;
    fail_on(alloc, &mut desk, call)
}

#[test]
fn errors_of_the_desk(rt: HostRuntime) -> Result<(), Fail> {
    let wanted = [LoadError::NoWeb, LoadError::NoChange].map(Some);
    assert_eq!(rt; errors_of_names(rt.alloc())?, wanted);
    for call in 1..12 {
        // Opening foo.w and foo.web, two reads, the same of foo.ch and of a: ten calls.
        let wanted = if call <= 10 {
            Some(LoadError::Fault)
        } else {
            None
        };
        assert_eq!(rt;
            (call, load_where_call_fails(rt.alloc(), call)?.err()),
            (call, wanted)
        );
    }
    Ok(())
}

// Whether a command weaves `d/foo.w` into `out.tex`, with the banner and without the index and the statistics.
fn is_as_asked(command: &Command) -> bool {
    match command {
        Command::Weave(line) => line.flags.banner
            && !line.flags.index
            && !line.flags.stats
            && line.web.as_slice() == b"d/foo.w".as_slice()
            && line.outputs.tex.as_slice() == b"out.tex".as_slice(),
        _ => false,
    }
}

// What a command line of these words asks for.
fn command_of(alloc: Global, line: &[&[u8]]) -> Result<Command, Memory> {
    read_command(alloc, &words_of(alloc, line)?)
}

// Whether what a command line asks for is as it should, and whether it has a fault.
fn told(alloc: Global, line: &[&[u8]]) -> Result<[bool; 2], Memory> {
    let command = command_of(alloc, line)?;
    Ok([is_as_asked(&command), matches!(command, Command::Usage(_))])
}

const LINE: [&[u8]; 6] = [b"-bx", b"d/foo.w", b"+b", b"foo", b"out", b"more"];

// What a command line with long words asks for, as a word.
fn long_asked(alloc: Global, line: &[&[u8]]) -> Result<&'static str, Memory> {
    let command = command_of(alloc, line)?;
    Ok(match &command {
        Command::Help => "help",
        Command::Version => "version",
        Command::Unknown(unknown) if unknown.word.as_slice() == b"--quite".as_slice() => "unknown",
        Command::Weave(line) if !line.flags.banner && !line.flags.happy && line.flags.wrap =>
            "quiet",
        _ => "else",
    })
}

#[test]
fn long_words(rt: HostRuntime) -> Result<(), Fail> {
    let alloc = rt.alloc();
    assert_eq!(rt; long_asked(alloc, &[b"--help"])?, "help");
    assert_eq!(rt; long_asked(alloc, &[b"--version"])?, "version");
    assert_eq!(rt; long_asked(alloc, &[b"foo", b"--quiet"])?, "quiet");
    assert_eq!(rt;
        long_asked(alloc, &[b"foo", b"--quite", b"--help"])?,
        "unknown"
    );
    Ok(())
}

#[test]
fn command_lines(rt: HostRuntime) -> Result<(), Fail> {
    let asked = told(rt.alloc(), &LINE[..5])?;
    let refused = told(rt.alloc(), &LINE)?;
    assert_eq!(rt; [asked, refused], [[true, false], [false, true]]);
    Ok(())
}
