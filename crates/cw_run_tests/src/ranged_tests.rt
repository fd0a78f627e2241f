//! Whole runs with pages laid out as the original lays them out, and the same without flag r.
use crate::expectations::{Run, expect_runs};
use crate::runs::FOO;
use std::test::Fail;

/// Each rule without the flag, and with it.
static RUNS: [Run; 8] = [
    Run {
        name: "depths",
        words: &[FOO, b"-bphx"],
        files: &[(b"foo.w", b"@** A.\n@* B.\n@*1 C.\n@*09 D.\n")],
        told: b"[tex] is foo.tex
[tex]\\input cwebmac
\\N{-1}{1}A.
\\fi

\\N{0}{2}B.
\\fi

\\N{1}{3}C.
\\fi

\\N{9}{4}D.
\\fi

\\end
Clean",
    },
    Run {
        name: "depths as the macros count them",
        words: &[FOO, b"-bphx", b"+r"],
        files: &[(b"foo.w", b"@** A.\n@* B.\n@*1 C.\n@*09 D.\n")],
        told: b"[tex] is foo.tex
[tex]\\input cwebmac
\\N{0}{1}A.
\\fi

\\N{1}{2}B.
\\fi

\\N{2}{3}C.
\\fi

\\N{10}{4}D.
\\fi

\\end
Clean",
    },
    Run {
        name: "heads of code",
        words: &[FOO, b"-bphx"],
        files: &[(
            b"foo.w",
            b"@ @<Read@>=\na;\n@ @d x 1\n@d y 2\n@c @<Read@>;\n@\n@c b;\n@ Text.\n@<Read@>=\nc;\n",
        )],
        told: b"[tex] is foo.tex
[tex]\\input cwebmac
\\M{1}
\\Y\\B\\X1:Read\\X${}\\E{}$\\6
\\|a;\\par
\\A4.
\\U2.
\\fi

\\M{2}
\\Y\\B\\4\\D$\\|x$\\5\\T{1}\\par
\\B\\4\\D$\\|y$\\5\\T{2}\\par
\\Y\\B\\X1:Read\\X;\\par
\\fi

\\M{3}
\\Y\\B\\|b;\\par
\\fi

\\M{4}Text.
\\Y\\B\\X1:Read\\X${}\\mathrel+\\E{}$\\6
\\|c;\\par
\\fi

\\end
Clean",
    },
    Run {
        name: "code beside its number, and names to the left",
        words: &[FOO, b"-bphx", b"+r"],
        files: &[(
            b"foo.w",
            b"@ @<Read@>=\na;\n@ @d x 1\n@d y 2\n@c @<Read@>;\n@\n@c b;\n@ Text.\n@<Read@>=\nc;\n",
        )],
        told: b"[tex] is foo.tex
[tex]\\input cwebmac
\\M{1}\\B\\X1:Read\\X${}\\E{}$\\6
\\|a;\\par
\\A4.
\\U2.
\\fi

\\M{2}\\B\\quad\\4\\D$\\|x$\\5\\T{1}\\par
\\B\\4\\D$\\|y$\\5\\T{2}\\par
\\Y\\B\\X1:Read\\X;\\par
\\fi

\\M{3}
\\Y\\B\\|b;\\par
\\fi

\\M{4}Text.
\\Y\\B\\4\\X1:Read\\X${}\\mathrel+\\E{}$\\6
\\|c;\\par
\\fi

\\end
Clean",
    },
    Run {
        name: "a change",
        words: &[FOO, FOO, b"-bph"],
        files: &[
            (b"foo.w", b"@ One.\n@ Two.\n@ Three.\n"),
            (b"foo.ch", b"@x\n@ One.\n@y\n@ Uno.\n@z\n"),
        ],
        told: b"[tex] is foo.tex
[tex]\\input cwebmac
\\M{1\\*}Uno.
\\fi

\\M{2}Two.
\\fi

\\M{3}Three.
\\fi

\\inx
\\fin
\\end
[idx] is foo.idx
[scn] is foo.scn
Clean",
    },
    Run {
        name: "a change that is listed",
        words: &[FOO, FOO, b"-bph", b"+r"],
        files: &[
            (b"foo.w", b"@ One.\n@ Two.\n@ Three.\n"),
            (b"foo.ch", b"@x\n@ One.\n@y\n@ Uno.\n@z\n"),
        ],
        told: b"[tex] is foo.tex
[tex]\\input cwebmac
\\M{1\\*}Uno.
\\fi

\\M{2}Two.
\\fi

\\M{3\\*}Three.
\\fi

\\ch 1\\*, 3\\*.
\\inx
\\fin
\\end
[idx] is foo.idx
[scn] is foo.scn
Clean",
    },
    Run {
        name: "a name with its first section",
        words: &[FOO, b"-bph"],
        files: &[(
            b"foo.w",
            b"@ A.\n@<Read@>=\na;\n@ B.\n@<Read@>=\nb;\n@ C.\n@c @<Read@>;\n",
        )],
        told: b"[tex] is foo.tex
[tex]\\input cwebmac
\\M{1}A.
\\Y\\B\\X1:Read\\X${}\\E{}$\\6
\\|a;\\par
\\A2.
\\U3.
\\fi

\\M{2}B.
\\Y\\B\\X1:Read\\X${}\\mathrel+\\E{}$\\6
\\|b;\\par
\\fi

\\M{3}C.
\\Y\\B\\X1:Read\\X;\\par
\\fi

\\inx
\\fin
\\end
[idx] is foo.idx
[scn] is foo.scn
[scn]\\I\\X1:Read\\X
\\U3.
Clean",
    },
    Run {
        name: "a name with all its sections",
        words: &[FOO, b"-bph", b"+r"],
        files: &[(
            b"foo.w",
            b"@ A.\n@<Read@>=\na;\n@ B.\n@<Read@>=\nb;\n@ C.\n@c @<Read@>;\n",
        )],
        told: b"[tex] is foo.tex
[tex]\\input cwebmac
\\M{1}A.
\\Y\\B\\4\\X1:Read\\X${}\\E{}$\\6
\\|a;\\par
\\A2.
\\U3.
\\fi

\\M{2}B.
\\Y\\B\\4\\X1:Read\\X${}\\mathrel+\\E{}$\\6
\\|b;\\par
\\fi

\\M{3}C.
\\Y\\B\\X1:Read\\X;\\par
\\fi

\\inx
\\fin
\\end
[idx] is foo.idx
[scn] is foo.scn
[scn]\\I\\X1, 2:Read\\X
\\U3.
Clean",
    },
];

#[test]
fn pages_as_the_original_ranges_them(rt: HostRuntime) -> Result<(), Fail> {
    expect_runs(&rt, rt.alloc(), &RUNS)
}
