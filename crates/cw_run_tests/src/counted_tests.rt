//! Runs whose calls or steps are counted, and runs of which a call fails.
use crate::expectations::{Counted, Run, expect_calls};
use crate::runs::{FOO, HELLO, steps_of};
use cw_base::{Exit, Memory};
use cw_test_desks::desk_with;
use std::alloc::Global;
use std::test::Fail;

const SAMPLE: &[&[u8]] = &[b"--sample", b"3"];

/// Runs, and how many calls each makes.
static COUNTED: [Counted; 4] = [
    // A call for each line.
    Counted {
        run: Run {
            name: "three sections",
            words: SAMPLE,
            files: &[],
            told: b"[term]sections 3
scraps 87
productions 60
lines 34
Clean",
        },
        fails_at: None,
        calls: 4,
    },
    // Three calls for each of eleven files, six lines on the terminal, seven of the TeX file, of which the last four
    // are written together, and three outputs. The eleventh file is not opened.
    Counted {
        run: Run {
            name: "eleven files deep",
            words: &[FOO],
            files: &[
                (b"foo.w", b"@i f1\n"),
                (b"f1", b"@i f2\n"),
                (b"f2", b"@i f3\n"),
                (b"f3", b"@i f4\n"),
                (b"f4", b"@i f5\n"),
                (b"f5", b"@i f6\n"),
                (b"f6", b"@i f7\n"),
                (b"f7", b"@i f8\n"),
                (b"f8", b"@i f9\n"),
                (b"f9", b"@i f10\n"),
                (b"f10", b"@i f11\n@ Deep.\n"),
                (b"f11", b"Too deep.\n"),
            ],
            told: b"[term]This is CWEAVE (profile 4)
! Too many nested includes (l. 1 of f10)
Writing the output file...
[tex] is foo.tex
[tex]\\input cwebmac
\\M{1}Deep.
\\fi

\\inx
\\fin
\\end
[term]Writing the index...
[idx] is foo.idx
[scn] is foo.scn
[term]Done.
(Pardon me, but I think I spotted something wrong.)
Errors",
        },
        fails_at: None,
        calls: 46,
    },
    // Behind a call that fails no call follows.
    Counted {
        run: Run {
            name: "a failing put",
            words: &[FOO],
            files: &[(b"foo.w", HELLO)],
            told: b"[term]This is CWEAVE (profile 4)
Writing the output file...
[tex] is foo.tex
[tex]\\input cwebmac
% limbo
Fault",
        },
        fails_at: Some(9),
        calls: 9,
    },
    Counted {
        run: Run {
            name: "a failing read",
            words: &[FOO],
            files: &[(b"foo.w", HELLO)],
            told: b"[term]This is CWEAVE (profile 4)\nFault",
        },
        fails_at: Some(3),
        calls: 3,
    },
];

#[test]
fn each_call_is_counted(rt: HostRuntime) -> Result<(), Fail> {
    expect_calls(&rt, rt.alloc(), &COUNTED)
}

/// How a run over these files ends, and how many steps it counts.
fn steps_over(
    alloc: Global,
    words: &[&[u8]],
    files: &[(&[u8], &[u8])],
) -> Result<(Exit, u64), Memory> {
    let mut desk = desk_with(alloc, files)?;
    steps_of(alloc, words, &mut desk)
}

// Five texts of one scrap each: `a` in TeX text; the name and its `b` in the C part; and both again in the list of
// section names. A turn looks at four categories. No row fits an identifier alone, so its text takes one turn; a name
// becomes an expression, so its text takes two.
// A sample has as many steps as the definition of its translations: four for each turn of the walk.
#[test]
fn each_call_counts_its_steps(rt: HostRuntime) -> Result<(), Fail> {
    let web: &[u8] = b"@ See |a|.\n@c @<N |b|@>\n";
    let texts = steps_over(rt.alloc(), &[FOO], &[(b"foo.w", web)])?;
    let sample = steps_over(rt.alloc(), SAMPLE, &[])?;
    assert_eq!(rt; [texts, sample], [(Exit::Clean, 28), (Exit::Clean, 636)]);
    Ok(())
}
