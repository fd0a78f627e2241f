//! Worked webs, with the small indexes that are written of them.
use crate::programs::Program;
use cw_base::{Bytes, Exit, Memory};
use std::alloc::Global;
use std::test::Fail;

/// Lines, without their ends.
type Lines = &'static [&'static [u8]];

/// A web, its changes, and the lines of its small indexes.
struct Row {
    web: Lines,
    change: Lines,
    lines: Lines,
}

static ROWS: [Row; 12] = [
    // The section that defines a name doesn't list it.
    Row {
        web: &[b"@ @c int i;", b"@ @c i=i+1;"],
        change: &[],
        lines: &[b"section 1", b"section 2", b"\\|i, 1."],
    },
    // Each section that defines a name stands beside it.
    Row {
        web: &[b"@ @c int i;", b"@ @c int j; j=i;", b"@ @c int i; i=j;"],
        change: &[],
        lines: &[
            b"section 1",
            b"section 2",
            b"\\|i, 1, 3.",
            b"section 3",
            b"\\|j, 2.",
        ],
    },
    // Names by their fonts, a use in TeX text, a definition by `@d`.
    Row {
        web: &[
            b"@ @c int abc(void); int B_1; int b2;",
            b"@ @c abc(B_1,b2,i);",
            b"@ Text |abc| and |i|. @d i 3",
            b"@c B_1;",
        ],
        change: &[],
        lines: &[
            b"section 1",
            b"section 2",
            b"\\\\{abc}, 1.",
            b"\\.{B\\_1}, 1.",
            b"\\\\{b2}, 1.",
            b"\\|i, 3.",
            b"section 3",
            b"\\\\{abc}, 1.",
            b"\\.{B\\_1}, 1.",
        ],
    },
    // A name that `typedef` makes prints as what it is behind the last section.
    Row {
        web: &[
            b"@ @c typedef int foo;",
            b"@ @c foo x; x=1;",
            b"@ |x| is used. @c foo y;",
        ],
        change: &[],
        lines: &[
            b"section 1",
            b"section 2",
            b"\\&{foo}, 1.",
            b"section 3",
            b"\\&{foo}, 1.",
            b"\\|x, 2.",
        ],
    },
    // A name that prints as a macro of TeX.
    Row {
        web: &[b"@ @s p_q TeX", b"@d p_q 1", b"@ @c a=p_q;"],
        change: &[],
        lines: &[b"section 1", b"section 2", b"$\\pxq$, 1."],
    },
    // Comments, section names, a mark that waits.
    Row {
        web: &[
            b"@ @c int i; /* |j| */",
            b"@ @c int j; /* |i| */",
            b"@ @<A |i|@>= j;",
            b"@ @c @<A |i|@>; @!k; k;",
            b"@ k;  @^k@> |k|",
        ],
        change: &[],
        lines: &[
            b"section 1",
            b"\\|j, 2.",
            b"section 2",
            b"\\|i, 1.",
            b"section 3",
            b"\\|j, 2.",
            b"section 4",
            b"section 5",
            b"\\|k, 4.",
        ],
    },
    // A section with a changed line has its mark; a head has none.
    Row {
        web: &[b"@ @c int i;", b"@ @c i;"],
        change: &[b"@x", b"@ @c int i;", b"@y", b"@ @c int i, k;", b"@z"],
        lines: &[b"section 1", b"section 2", b"\\|i, 1\\*."],
    },
    // What `@f` names is defined nowhere.
    Row {
        web: &[
            b"@f foo int",
            b"@ @f foo int",
            b"@c foo a;",
            b"@ @c foo b; a;",
        ],
        change: &[],
        lines: &[b"section 1", b"section 2", b"\\|a, 1."],
    },
    // Labels.
    Row {
        web: &[b"@ @c lab: x; goto lab;", b"@ @c goto lab; @d lab2 1"],
        change: &[],
        lines: &[b"section 1", b"section 2", b"\\\\{lab}, 1."],
    },
    // A built-in word is listed nowhere, though `@d` defines it.
    Row {
        web: &[
            b"@ @c struct s {int m;}; ",
            b"@ @c struct s t; t.m;",
            b"@ @d int 3",
            b"@c int q; int;",
        ],
        change: &[],
        lines: &[
            b"section 1",
            b"section 2",
            b"\\|m, 1.",
            b"\\|s, 1.",
            b"section 3",
        ],
    },
    // A web without sections has an empty file.
    Row {
        web: &[b"no sections"],
        change: &[],
        lines: &[],
    },
    // The order of the index: small letters with capitals, letters before digits.
    Row {
        web: &[
            b"@ @c a; A; int a_; int A1; int aB;",
            b"@ a_ A1. @c a_=A1+aB; a;",
            b"@ @c int a;",
        ],
        change: &[],
        lines: &[
            b"section 1",
            b"\\|a, 3.",
            b"section 2",
            b"\\|a, 3.",
            b"\\\\{a\\_}, 1.",
            b"\\\\{aB}, 1.",
            b"\\.{A1}, 1.",
            b"section 3",
        ],
    },
];

/// Appends lines, each with its end.
fn append_lines(text: &mut Bytes, lines: &[&[u8]]) -> Result<(), Memory> {
    for line in lines {
        text.append(line)?;
        text.push(b'\n')?;
    }
    Ok(())
}

/// What is written of a web with its changes.
fn seen(alloc: Global, row: &Row) -> Result<(Bytes, Exit), Memory> {
    let mut web = Bytes::new_in(alloc);
    append_lines(&mut web, row.web)?;
    let mut change = Bytes::new_in(alloc);
    append_lines(&mut change, row.change)?;
    let files = [
        (b"foo.w".as_slice(), web.as_slice()),
        (b"foo.ch".as_slice(), change.as_slice()),
    ];
    let (text, exit, _) = Program::Mini.told(alloc, &[b"foo", b"foo", b"out"], &files)?;
    Ok((text, exit))
}

/// What has to be told: the file is made, and has these lines.
fn told(alloc: Global, row: &Row) -> Result<Bytes, Memory> {
    let mut text = Bytes::from_slice(alloc, b"[tex]out\n")?;
    append_lines(&mut text, row.lines)?;
    Ok(text)
}

#[test]
fn worked_webs(rt: HostRuntime) -> Result<(), Fail> {
    let alloc = rt.alloc();
    for row in &ROWS {
        let (text, exit) = seen(alloc, row)?;
        let told = told(alloc, row)?;
        assert_eq!(rt; (text.as_slice(), exit), (told.as_slice(), Exit::Clean));
    }
    Ok(())
}
