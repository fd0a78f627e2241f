//! Whole runs over webs that make notes of scanning, one by one and in order.
use crate::expectations::expect;
use crate::runs::{FOO, terminal_told};
use crate::texts::text_of;
use std::alloc::Global;
use std::process::Abort;
use std::test::Fail;

/// What a run prints behind its notes, which are of errors.
const ENDING: &[u8] = b"Writing the output file...
Writing the index...
Done.
(Pardon me, but I think I spotted something wrong.)
Errors";

/// A run over this web has to make these notes.
fn expect_notes(rt: &impl Abort, alloc: Global, web: &[u8], notes: &[u8]) -> Result<(), Fail> {
    let seen = terminal_told(alloc, &[FOO], web)?;
    let pieces: [(&[u8], usize); 3] = [
        (b"This is CWEAVE (profile 4)\n", 1),
        (notes, 1),
        (ENDING, 1),
    ];
    expect(rt, &seen, &text_of(alloc, &pieces)?);
    Ok(())
}

// One web for each note that limbo and TeX text can make, with its line.
static ROWS: [(&[u8], &[u8]); 9] = [
    (
        b"a\n@ b\nc@3d\n",
        b"! Unknown control code (l. 3 of foo.w)\n",
    ),
    (
        b"a\nb@cd\n@ e\n",
        b"! Double @ should be used in limbo (l. 2 of foo.w)\n",
    ),
    (
        b"@ a\nb@/c\n",
        b"! You can't do that in TeX text (l. 2 of foo.w)\n",
    ),
    (
        b"a\n@q b\nc\n@ d\n",
        b"! Control text didn't end (l. 2 of foo.w)\n",
    ),
    (
        b"a\n@ b\n\n@q c",
        b"! Control text didn't end (l. 4 of foo.w)\n",
    ),
    (
        b"a\n@ @q b@,c@>\n",
        b"! Control codes are forbidden in control text (l. 2 of foo.w)\n",
    ),
    (
        b"a\n@s\nb 3\n@ c\n",
        b"! Improper format definition (l. 2 of foo.w)\n",
    ),
    (
        b"a\nb @s c\n@ d\n",
        b"! Improper format definition (l. 2 of foo.w)\n",
    ),
    // Notes stand in the order of the text, behind those of reading.
    (
        b"@i\na@tb\n@ c@3\n@t d@,@> e\n",
        b"! Include file name not given (l. 1 of foo.w)
! Double @ should be used in limbo (l. 2 of foo.w)
! Unknown control code (l. 3 of foo.w)
! You can't do that in TeX text (l. 4 of foo.w)
! Control codes are forbidden in control text (l. 4 of foo.w)
",
    ),
];

#[test]
fn each_note_of_scanning(rt: HostRuntime) -> Result<(), Fail> {
    for (web, notes) in &ROWS {
        expect_notes(&rt, rt.alloc(), web, notes)?;
    }
    Ok(())
}
