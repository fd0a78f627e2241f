//! Whole runs over small webs and command lines.
use crate::expectations::{Run, expect_runs, expect_told};
use crate::runs::{FOO, HELLO};
use std::test::Fail;

/// Runs, and what each has to tell.
static RUNS: [Run; 8] = [
    Run {
        name: "a section",
        words: &[FOO],
        files: &[(b"foo.w", HELLO)],
        told: b"[term]This is CWEAVE (profile 4)
Writing the output file...
[tex] is foo.tex
[tex]\\input cwebmac
% limbo
\\M{1}Hello.
\\fi

\\inx
\\fin
\\end
[term]Writing the index...
[idx] is foo.idx
[scn] is foo.scn
[term]Done.
(No errors were found.)
Clean",
    },
    Run {
        name: "an empty web",
        words: &[FOO],
        files: &[(b"foo.w", b"")],
        told: b"[term]This is CWEAVE (profile 4)
Writing the output file...
[tex] is foo.tex
[tex]\\input cwebmac
\\inx
\\fin
\\end
[term]Writing the index...
[idx] is foo.idx
[scn] is foo.scn
[term]Done.
(No errors were found.)
Clean",
    },
    Run {
        name: "no web",
        words: &[FOO],
        files: &[],
        told: b"[term]This is CWEAVE (profile 4)
! Cannot open web file foo
(That was a fatal error, my friend.)
Errors",
    },
    Run {
        name: "a plain statement",
        words: &[FOO],
        files: &[(b"foo.w", b"@ @c i=i+1;\n")],
        told: b"[term]This is CWEAVE (profile 4)
Writing the output file...
[tex] is foo.tex
[tex]\\input cwebmac
\\M{1}
\\Y\\B$\\|i\\K\\|i+\\T{1};$\\par
\\fi

\\inx
\\fin
\\end
[term]Writing the index...
[idx] is foo.idx
[scn] is foo.scn
[term]Done.
(No errors were found.)
Clean",
    },
    Run {
        name: "two statements",
        words: &[FOO],
        files: &[(b"foo.w", b"@ @c a=(b); c;\n")],
        told: b"[term]This is CWEAVE (profile 4)
Writing the output file...
[tex] is foo.tex
[tex]\\input cwebmac
\\M{1}
\\Y\\B$\\|a\\K(\\|b);{}$\\6
\\|c;\\par
\\fi

\\inx
\\fin
\\end
[term]Writing the index...
[idx] is foo.idx
[scn] is foo.scn
[term]Done.
(No errors were found.)
Clean",
    },
    Run {
        name: "codes and a starred section",
        words: &[FOO],
        files: &[(b"foo.w", b"a@@b@q x@>c\n@* T. @t x@>y\n")],
        told: b"[term]This is CWEAVE (profile 4)
! You can't do that in TeX text (l. 2 of foo.w)
Writing the output file...
[tex] is foo.tex
[tex]\\input cwebmac
a@bc
\\N{0}{1}T. y
\\fi

\\inx
\\fin
\\con
[term]Writing the index...
[idx] is foo.idx
[scn] is foo.scn
[term]Done.
(Pardon me, but I think I spotted something wrong.)
Errors",
    },
    Run {
        name: "only the happy line",
        words: &[b"-bp", FOO],
        files: &[(b"foo.w", HELLO)],
        told: b"[tex] is foo.tex
[tex]\\input cwebmac
% limbo
\\M{1}Hello.
\\fi

\\inx
\\fin
\\end
[idx] is foo.idx
[scn] is foo.scn
[term](No errors were found.)
Clean",
    },
    Run {
        name: "no index",
        words: &[b"-x", b"-bph", FOO],
        files: &[(b"foo.w", b"@** A.\n@*007 B.\n@*000\n")],
        told: b"[tex] is foo.tex
[tex]\\input cwebmac
\\N{-1}{1}A.
\\fi

\\N{7}{2}B.
\\fi

\\N{0}{3}
\\fi

\\end
Clean",
    },
];

#[test]
fn each_small_web(rt: HostRuntime) -> Result<(), Fail> {
    expect_runs(&rt, rt.alloc(), &RUNS)
}

/// Command lines that are refused: with too few or too many words, or with no number of sections.
const REFUSED: [&[&[u8]]; 7] = [
    &[],
    &[b"a", b"b", b"c", b"d"],
    &[b"--sample"],
    &[b"--sample", b"0"],
    &[b"--sample", b"01"],
    &[b"--sample", b"2001"],
    &[b"--sample", b"3", b"4"],
];

const USAGE: &[u8] = b"[term]This is CWEAVE (profile 4)
! Usage: cweave [options] webfile[.w] [{changefile[.ch]|-} [outfile[.tex]]]
(That was a fatal error, my friend.)
Errors";

#[test]
fn refused_command_lines(rt: HostRuntime) -> Result<(), Fail> {
    let files = [(b"foo.w".as_slice(), HELLO)];
    for words in &REFUSED {
        expect_told(&rt, rt.alloc(), words, &files, USAGE)?;
    }
    Ok(())
}
