//! Whole runs over webs with change files and included files: changes that match and don't, files that end too soon,
//! and changed sections in each place where a number stands.
use crate::expectations::{Run, expect_runs};
use crate::runs::FOO;
use std::test::Fail;

const CHANGED: &[u8] = b"@ One.\n@c a;\nb;\n";

const MARKED_WEB: &[u8] = b"@ One.
@<N@>= aa;
@ Two.
@<N@>= int bb;
@ Three has |aa|, @<N@>.
@c @<N@>; cc;
@* Last.
old
";

const MARKED_CHANGE: &[u8] = b"@x
@<N@>= aa;
@y
@<N@>= dd;
@z
@x
@<N@>= int bb;
@y
@<N@>= int ee;
@z
@x
@c @<N@>; cc;
@y
@c @<N@>; ff;
@z
@x
old
@y
new
@z
";

/// Runs, and what each has to tell.
static RUNS: [Run; 9] = [
    Run {
        name: "a change",
        words: &[FOO, FOO],
        files: &[
            (b"foo.w", CHANGED),
            (b"foo.ch", b"@x\n@c a;\nc;\n@y\n@c z;\n@z\n"),
        ],
        told: b"[term]This is CWEAVE (profile 4)
! 1 of the preceding lines did not match (l. 4 of foo.ch)
Writing the output file...
[tex] is foo.tex
[tex]\\input cwebmac
\\M{1\\*}One.
\\Y\\B\\|z;\\par
\\fi

\\inx
\\fin
\\end
[term]Writing the index...
[idx] is foo.idx
[scn] is foo.scn
[term]Done.
(Pardon me, but I think I spotted something wrong.)
Errors",
    },
    Run {
        name: "an ended change",
        words: &[FOO, FOO],
        files: &[(b"foo.w", CHANGED), (b"foo.ch", b"@x\n@c a;\n")],
        told: b"[term]This is CWEAVE (profile 4)
! Change file ended before @y (l. 2 of foo.ch)
Writing the output file...
[tex] is foo.tex
[tex]\\input cwebmac
\\M{1\\*}One.
b;
\\fi

\\inx
\\fin
\\end
[term]Writing the index...
[idx] is foo.idx
[scn] is foo.scn
[term]Done.
(Pardon me, but I think I spotted something wrong.)
Errors",
    },
    Run {
        name: "no change file",
        words: &[FOO, b"bar"],
        files: &[(b"foo.w", CHANGED)],
        told: b"[term]This is CWEAVE (profile 4)
! Cannot open change file bar
(That was a fatal error, my friend.)
Errors",
    },
    Run {
        name: "ten files deep",
        words: &[FOO],
        files: &[
            (b"foo.w", b"@i f1\n"),
            (b"f1", b"@i f2\n"),
            (b"f2", b"@i f3\n"),
            (b"f3", b"@i f4\n"),
            (b"f4", b"@i f5\n"),
            (b"f5", b"@i f6\n"),
            (b"f6", b"@i f7\n"),
            (b"f7", b"@i f8\n"),
            (b"f8", b"@i f9\n"),
            (b"f9", b"@i f10\n"),
            (b"f10", b"@ Deep.\n"),
            (b"f11", b"Too deep.\n"),
        ],
        told: b"[term]This is CWEAVE (profile 4)
Writing the output file...
[tex] is foo.tex
[tex]\\input cwebmac
\\M{1}Deep.
\\fi

\\inx
\\fin
\\end
[term]Writing the index...
[idx] is foo.idx
[scn] is foo.scn
[term]Done.
(No errors were found.)
Clean",
    },
    Run {
        name: "notes of merging",
        words: &[FOO, FOO],
        files: &[
            (b"foo.w", b"@i missing\n@i\n@ One.\na\nb\nd\n"),
            (
                b"foo.ch",
                b"@y
@x
@y
skipped
@z
@x
a
c
@y
@x
new
@z
@x
d
@z
e
@y
@z
@x
f
@y
@z
",
            ),
        ],
        told: b"[term]This is CWEAVE (profile 4)
! Where is the matching @x? (l. 1 of foo.ch)
! No old line in this change (l. 3 of foo.ch)
! Cannot open include file (l. 1 of foo.w)
! Include file name not given (l. 2 of foo.w)
! 1 of the preceding lines did not match (l. 9 of foo.ch)
! Where is the matching @z? (l. 10 of foo.ch)
! Where is the matching @y? (l. 15 of foo.ch)
! Web ended during a change (l. 16 of foo.ch)
! Change did not match (l. 20 of foo.ch)
Writing the output file...
[tex] is foo.tex
[tex]\\input cwebmac
\\M{1\\*}One.
new
\\fi

\\inx
\\fin
\\end
[term]Writing the index...
[idx] is foo.idx
[scn] is foo.scn
[term]Done.
(Pardon me, but I think I spotted something wrong.)
Errors",
    },
    Run {
        name: "new lines without an end",
        words: &[FOO, FOO],
        files: &[(b"foo.w", b"@ One.\na\n"), (b"foo.ch", b"@x\na\n@y\nnew\n")],
        told: b"[term]This is CWEAVE (profile 4)
! Change file ended before @z (l. 4 of foo.ch)
Writing the output file...
[tex] is foo.tex
[tex]\\input cwebmac
\\M{1\\*}One.
new
\\fi

\\inx
\\fin
\\end
[term]Writing the index...
[idx] is foo.idx
[scn] is foo.scn
[term]Done.
(Pardon me, but I think I spotted something wrong.)
Errors",
    },
    Run {
        name: "a change without new lines that ends too soon",
        words: &[FOO, FOO],
        files: &[(b"foo.w", CHANGED), (b"foo.ch", b"@x\n@c a;\n@y\n")],
        told: b"[term]This is CWEAVE (profile 4)
! Change file ended before @z (l. 3 of foo.ch)
Writing the output file...
[tex] is foo.tex
[tex]\\input cwebmac
\\M{1\\*}One.
b;
\\fi

\\inx
\\fin
\\end
[term]Writing the index...
[idx] is foo.idx
[scn] is foo.scn
[term]Done.
(Pardon me, but I think I spotted something wrong.)
Errors",
    },
    Run {
        name: "a change that does not match and ends too soon",
        words: &[FOO, FOO],
        files: &[(b"foo.w", CHANGED), (b"foo.ch", b"@x\n@c a;\nc;\n@y\n")],
        told: b"[term]This is CWEAVE (profile 4)
! 1 of the preceding lines did not match (l. 4 of foo.ch)
! Change file ended before @z (l. 4 of foo.ch)
Writing the output file...
[tex] is foo.tex
[tex]\\input cwebmac
\\M{1}One.
\\fi

\\inx
\\fin
\\end
[term]Writing the index...
[idx] is foo.idx
[scn] is foo.scn
[term]Done.
(Pardon me, but I think I spotted something wrong.)
Errors",
    },
    // Heads, names, footnotes, the index and the section list say which sections are changed.
    Run {
        name: "each number of a changed section",
        words: &[FOO, FOO],
        files: &[(b"foo.w", MARKED_WEB), (b"foo.ch", MARKED_CHANGE)],
        told: b"[term]This is CWEAVE (profile 4)
Writing the output file...
[tex] is foo.tex
[tex]\\input cwebmac
\\M{1\\*}One.
\\Y\\B\\X1\\*:N\\X${}\\E{}$\\6
\\\\{dd};\\par
\\A2\\*.
\\Q3\\*.
\\U3\\*.
\\fi

\\M{2\\*}Two.
\\Y\\B\\X1\\*:N\\X${}\\mathrel+\\E{}$\\6
\\&{int} \\\\{ee};\\par
\\fi

\\M{3\\*}Three has \\PB{\\\\{aa}}, \\PB{\\X1\\*:N\\X}.
\\Y\\B\\X1\\*:N\\X;\\6
\\\\{ff};\\par
\\fi

\\N{0}{4\\*}Last.
new
\\fi

\\inx
\\fin
\\con
[term]Writing the index...
[idx] is foo.idx
[idx]\\I\\\\{aa}, 3\\*.
\\I\\\\{dd}, 1\\*.
\\I\\\\{ee}, \\[2\\*].
\\I\\\\{ff}, 3\\*.
[scn] is foo.scn
[scn]\\I\\X1\\*:N\\X
\\Q3\\*.
\\U3\\*.
[term]Done.
(No errors were found.)
Clean",
    },
];

#[test]
fn each_merged_web(rt: HostRuntime) -> Result<(), Fail> {
    expect_runs(&rt, rt.alloc(), &RUNS)
}
