//! Whole runs over webs with one of each printed token: constants, strings, comments, other bytes, heads, and section
//! names with inner texts.
use crate::expectations::{Run, expect_runs};
use crate::runs::FOO;
use std::test::Fail;

const CHANGE: &[u8] = b"@x\n@ @<A |1| b@>=x;\n@y\n@ @<A |1| b@>=y;\n@z\n";

/// Runs, and what each has to tell.
static RUNS: [Run; 3] = [
    Run {
        name: "tokens and a changed name",
        words: &[b"-x", FOO, b"foo.ch"],
        files: &[
            (
                b"foo.w",
                b"@ @c f(0x1f,\"a b\"); /* {x} */ @<A |1| b@>;\n@ @<A |1| b@>=x;\n",
            ),
            (b"foo.ch", CHANGE),
        ],
        told: b"[term]This is CWEAVE (profile 4)
Writing the output file...
[tex] is foo.tex
[tex]\\input cwebmac
\\M{1}
\\Y\\B$\\|f(\\T{\\^1f},\\39\\.{\"a\\ b\"});{}$\\C{ {x} }\\6
\\X2\\*:A \\PB{\\T{1}} b\\X;\\par
\\fi

\\M{2\\*}
\\Y\\B\\X2\\*:A \\PB{\\T{1}} b\\X${}\\E{}$\\6
\\|y;\\par
\\U1.
\\fi

\\end
[term]Done.
(No errors were found.)
Clean",
    },
    Run {
        name: "heads and a name with two inner texts",
        words: &[b"-x", FOO],
        files: &[(
            b"foo.w",
            b"@ @d f(a,b) a+b\n@f x int\n@c @<A |1| b |2| c@>;\n@ @<A |1| b |2| c@>=\na_b=`;\n",
        )],
        told: b"[term]This is CWEAVE (profile 4)
Writing the output file...
[tex] is foo.tex
[tex]\\input cwebmac
\\M{1}
\\Y\\B\\4\\D$\\|f(\\|a,\\|b)$\\5$\\|a+\\|b$\\par
\\B\\4\\F\\&{x}\\5\\&{int}\\par
\\Y\\B\\X2:A \\PB{\\T{1}} b \\PB{\\T{2}} c\\X;\\par
\\fi

\\M{2}
\\Y\\B\\X2:A \\PB{\\T{1}} b \\PB{\\T{2}} c\\X${}\\E{}$\\6
$\\\\{a\\_b}\\K\\.{`};$\\par
\\U1.
\\fi

\\end
[term]Done.
(No errors were found.)
Clean",
    },
    // A lone number sign is a sign, a lone backslash is printed as a byte, and the comment gets the brace that it
    // lacks.
    Run {
        name: "a number sign a backslash and an open brace",
        words: &[b"-x", FOO],
        files: &[(b"foo.w", b"@ @c a#b\\; /* {x */\n")],
        told: b"[term]This is CWEAVE (profile 4)
! Missing } in comment (l. 1 of foo.w)
Writing the output file...
[tex] is foo.tex
[tex]\\input cwebmac
\\M{1}
\\Y\\B$\\|a\\#\\|b{}$ \\.{\\\\};\\C{ {x }}\\par
\\fi

\\end
[term]Done.
(Pardon me, but I think I spotted something wrong.)
Errors",
    },
];

#[test]
fn each_printed_token(rt: HostRuntime) -> Result<(), Fail> {
    expect_runs(&rt, rt.alloc(), &RUNS)
}
