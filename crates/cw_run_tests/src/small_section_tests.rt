//! Whole runs over webs with C parts, definitions and section names, their indexes and their section lists.
use crate::expectations::{Run, expect_runs};
use crate::forty_sections::{TOLD, WEB};
use crate::runs::{FOO, told};
use crate::texts::append_pieces;
use cw_base::{Bytes, Memory};
use std::alloc::Global;
use std::test::Fail;

/// Runs, and what each has to tell.
static RUNS: [Run; 7] = [
    Run {
        name: "a declaration with its index",
        words: &[FOO],
        files: &[(b"foo.w", b"@ @c int a=b+c, *d;\n")],
        told: b"[term]This is CWEAVE (profile 4)
Writing the output file...
[tex] is foo.tex
[tex]\\input cwebmac
\\M{1}
\\Y\\B\\&{int} \\|a${}\\K\\|b+\\|c,{}$ ${}{*}\\|d;$\\par
\\fi

\\inx
\\fin
\\end
[term]Writing the index...
[idx] is foo.idx
[idx]\\I\\|a, \\[1].
\\I\\|d, \\[1].
[scn] is foo.scn
[term]Done.
(No errors were found.)
Clean",
    },
    Run {
        name: "lines that had to be broken",
        words: &[b"-x", FOO],
        files: &[(
            b"foo.w",
            b"@ @c aaaaaaaaaaaaaaaaaaaaaaaaaaaaaaaaaaaaaaaaaaaaaaaaaaaaaaaaaaaaaaaaaaaaaaaaaaaaaaaaaaaaaaaaaaaaaaaaaaaa\
aaaaaaaaaaaaaaaaaaaaaaaaaaaaaaaaaaaaaaaaaaaaaaaaaaaaaaaaaaaaaaaaaaaaaaaaaaaaaaaaaaaaaaaaaaaaaaaaaaaa\n",
        )],
        told: b"[term]This is CWEAVE (profile 4)
Writing the output file...
[tex] is foo.tex
[tex]\\input cwebmac
\\M{1}
\\Y\\B%
\\\\{aaaaaaaaaaaaaaaaaaaaaaaaaaaaaaaaaaaaaaaaaaaaaaaaaaaaaaaaaaaaaaaaaaaaaaaaaaaa%
aaaaaaaaaaaaaaaaaaaaaaaaaaaaaaaaaaaaaaaaaaaaaaaaaaaaaaaaaaaaaaaaaaaaaaaaaaaaaaa%
aaaaaaaaaaaaaaaaaaaaaaaaaaaaaaaaaaaaaaaaaaaaa}\\par
\\fi

\\end
[term]Done.
! Line had to be broken (output l. 4 of foo.tex)
! Line had to be broken (output l. 5 of foo.tex)
(Did you see the warning message above?)
Clean",
    },
    Run {
        name: "statistics with an index",
        words: &[b"+s", FOO],
        files: &[(b"foo.w", b"@ @c int i;\n@ @c i=i+1;\n")],
        told: b"[term]This is CWEAVE (profile 4)
Writing the output file...
[tex] is foo.tex
[tex]\\input cwebmac
\\M{1}
\\Y\\B\\&{int} \\|i;\\par
\\fi

\\M{2}
\\Y\\B$\\|i\\K\\|i+\\T{1};$\\par
\\fi

\\inx
\\fin
\\end
[term]Writing the index...
[idx] is foo.idx
[idx]\\I\\|i, \\[1].
[scn] is foo.scn
[term]Done.
sections 2
scraps 9
productions 7
lines 12
(No errors were found.)
Clean",
    },
    Run {
        name: "an ordinary web",
        words: &[FOO],
        files: &[(
            b"foo.w",
            b"\\def\\title{Hello}
@* Hello. This program greets |n| times.
@d n 3
@c
#include <stdio.h>
int main(void)
{
  int i;
  for (i=0;i<n;i++) @<Greet@>;
  return 0;
}
@ Here it is.
@<Greet@>=
printf(\"Hello\\n\"); /* |i| is unused */
",
        )],
        told: b"[term]This is CWEAVE (profile 4)
Writing the output file...
[tex] is foo.tex
[tex]\\input cwebmac
\\def\\title{Hello}
\\N{0}{1}Hello. This program greets \\PB{\\|n} times.
\\Y\\B\\4\\D$\\|n$\\5\\T{3}\\par
\\Y\\B\\8\\#\\&{include} \\.{<stdio.h>}\\7
\\1\\1\\&{int} \\\\{main}(\\&{void})\\2\\2\\6
${}\\{\\1{}$\\6
\\&{int} \\|i;\\7
\\&{for} ${}(\\|i\\K\\T{0};{}$ ${}\\|i<\\|n;{}$ ${}\\|i\\PP){}$\\1\\5\\X2:Greet\\X;\\2\\6
\\&{return} \\T{0};\\6
\\4${}\\}\\2{}$\\par
\\fi

\\M{2}Here it is.
\\Y\\B\\X2:Greet\\X${}\\E{}$\\6
\\\\{printf}(\\.{\"Hello\\\\n\"});\\C{ \\PB{\\|i} is unused }\\par
\\U1.
\\fi

\\inx
\\fin
\\con
[term]Writing the index...
[idx] is foo.idx
[idx]\\I\\|i, \\[1].
\\I\\\\{main}, \\[1].
\\I\\|n, \\[1].
\\I\\\\{printf}, 2.
[scn] is foo.scn
[scn]\\I\\X2:Greet\\X
\\U1.
[term]Done.
(No errors were found.)
Clean",
    },
    Run {
        name: "conflicting names and a format",
        words: &[b"-e", FOO],
        files: &[(
            b"foo.w",
            b"@ @<Read@>= x;\n@ @<Read b@>= y;\n@ @f foo int\n@c foo x; /* b |x /* c |y| */| */\n",
        )],
        told: b"[term]This is CWEAVE (profile 4)
! Name conflicts with another (l. 2 of foo.w)
! Never used: <Read>
Writing the output file...
[tex] is foo.tex
[tex]\\input cwebmac
\\M{1}
\\Y\\B\\X1:Read\\X${}\\E{}$\\6
\\|x;\\par
\\A2.
\\fi

\\M{2}
\\Y\\B\\X1:Read\\X${}\\mathrel+\\E{}$\\6
\\|y;\\par
\\fi

\\M{3}
\\Y\\B\\4\\F\\&{foo}\\5\\&{int}\\par
\\Y\\B\\&{foo} \\|x;\\C{ b \\|x\\C{ c \\|y } }\\par
\\fi

\\inx
\\fin
\\end
[term]Writing the index...
[idx] is foo.idx
[idx]\\I\\&{foo}, 3.
\\I\\|x, \\[3].
[scn] is foo.scn
[scn]\\I\\X1:Read\\X
[term]Done.
(Pardon me, but I think I spotted something wrong.)
Errors",
    },
    Run {
        name: "forty sections by a second way",
        words: &[b"-e", b"+s", FOO],
        files: &[(b"foo.w", WEB)],
        told: TOLD,
    },
    Run {
        name: "the largest sample",
        words: &[b"--sample", b"2000"],
        files: &[],
        told: b"[term]sections 2000
scraps 58000
productions 40000
lines 20004
Clean",
    },
];

#[test]
fn each_book(rt: HostRuntime) -> Result<(), Fail> {
    expect_runs(&rt, rt.alloc(), &RUNS)
}

/// Appends a section whose number has two digits.
fn add_section(web: &mut Bytes, number: u8) -> Result<(), Memory> {
    let digits = [b'0' + number / 10, b'0' + number % 10];
    let number = digits.as_slice();
    let pieces: [(&[u8], usize); 11] = [
        (b"@ Section ", 1),
        (number, 1),
        (b" adds.\n@<Step ", 1),
        (number, 1),
        (b".@>=\nif (a>", 1),
        (number, 1),
        (b") { b+=", 1),
        (number, 1),
        (b"; c(", 1),
        (number, 1),
        (b",a); } else while (b) b--;\n", 1),
    ];
    append_pieces(web, &pieces)
}

/// Sections from number 10 up to 49.
fn add_forty(web: &mut Bytes) -> Result<(), Memory> {
    for number in 10..50 {
        add_section(web, number)?;
    }
    Ok(())
}

/// What the run over forty sections tells, with statistics.
fn forty_told(alloc: Global) -> Result<Bytes, Memory> {
    let mut web = Bytes::new_in(alloc);
    add_forty(&mut web)?;
    told(alloc, &[b"-e", b"+s", FOO], &[(b"foo.w", web.as_slice())])
}

// Each section has 29 scraps, 20 productions and 10 lines. The section list counts for none of them.
#[test]
fn forty_sections(rt: HostRuntime) -> Result<(), Fail> {
    let text = forty_told(rt.alloc())?;
    assert!(rt;
        text.as_slice().ends_with(b"[term]Done.
sections 40
scraps 1160
productions 800
lines 404
(Did you see the warning message above?)
Clean"
            .as_slice())
    );
    Ok(())
}
