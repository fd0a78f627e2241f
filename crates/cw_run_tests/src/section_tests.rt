//! Webs of sections: what a TeX part, definitions, names and footnotes print, and their indexes and section lists.
use crate::expectations::expect;
use crate::runs::{FOO, told};
use crate::texts::text_of;
use std::alloc::Global;
use std::process::Abort;
use std::test::Fail;

/// A web, and what its run prints of its sections, of its index and at the end.
static ROWS: [(&[u8], &[u8], &[u8], &[u8]); 8] = [
    // Two names begin with the prefix.
    (
        b"@ @<Read a@>= x;\n@ @<Read b@>= y;\n@ @c @<Read...@>;\n",
        b"[term]This is CWEAVE (profile 4)
! Ambiguous prefix (l. 3 of foo.w)
! Never used: <Read b>
Writing the output file...
[tex] is foo.tex
[tex]\\input cwebmac
\\M{1}
\\Y\\B\\X1:Read a\\X${}\\E{}$\\6
\\|x;\\par
\\U3.
\\fi

\\M{2}
\\Y\\B\\X2:Read b\\X${}\\E{}$\\6
\\|y;\\par
\\fi

\\M{3}
\\Y\\B\\X1:Read a\\X;\\par
\\fi

",
        b"\\inx
\\fin
\\end
[term]Writing the index...
[idx] is foo.idx
[scn] is foo.scn
[scn]\\I\\X1:Read a\\X
\\U3.
\\I\\X2:Read b\\X
[term]",
        b"Done.
(Pardon me, but I think I spotted something wrong.)
Errors",
    ),
    // A name gets the category of another.
    (
        b"@ @f foo int\n@c foo x;\n",
        b"[term]This is CWEAVE (profile 4)
Writing the output file...
[tex] is foo.tex
[tex]\\input cwebmac
\\M{1}
\\Y\\B\\4\\F\\&{foo}\\5\\&{int}\\par
\\Y\\B\\&{foo} \\|x;\\par
\\fi

",
        b"\\inx
\\fin
\\end
[term]Writing the index...
[idx] is foo.idx
[idx]\\I\\&{foo}, 1.
\\I\\|x, \\[1].
[scn] is foo.scn
[term]",
        b"Done.
(No errors were found.)
Clean",
    ),
    // Names that print as macros of TeX, one of them defined.
    (
        b"@ @f p_q TeX\n@d NULL 0\n@c a=p_q;\n",
        b"[term]This is CWEAVE (profile 4)
Writing the output file...
[tex] is foo.tex
[tex]\\input cwebmac
\\M{1}
\\Y\\B\\4\\F$\\pxq$\\5$\\TeX$\\par
\\B\\4\\D$\\NULL$\\5\\T{0}\\par
\\Y\\B$\\|a\\K\\pxq;$\\par
\\fi

",
        b"\\inx
\\fin
\\end
[term]Writing the index...
[idx] is foo.idx
[idx]\\I$\\NULL$, \\[1].
\\I$\\pxq$, 1.
[scn] is foo.scn
[term]",
        b"Done.
(No errors were found.)
Clean",
    ),
    // A name begins another.
    (
        b"@ @<Read@>= x;\n@ @<Read b@>= y;\n",
        b"[term]This is CWEAVE (profile 4)
! Name conflicts with another (l. 2 of foo.w)
! Never used: <Read>
Writing the output file...
[tex] is foo.tex
[tex]\\input cwebmac
\\M{1}
\\Y\\B\\X1:Read\\X${}\\E{}$\\6
\\|x;\\par
\\A2.
\\fi

\\M{2}
\\Y\\B\\X1:Read\\X${}\\mathrel+\\E{}$\\6
\\|y;\\par
\\fi

",
        b"\\inx
\\fin
\\end
[term]Writing the index...
[idx] is foo.idx
[scn] is foo.scn
[scn]\\I\\X1:Read\\X
[term]",
        b"Done.
(Pardon me, but I think I spotted something wrong.)
Errors",
    ),
    // Each kind of item in a TeX part.
    (
        b"@ A @@ b, |x|, @^roman@>, @.type@>, @:user@>, @!|y|, @q gone@>, @0, @<Cited@>.
Then @(out@>.
@ @<Cited@>= z;
@ @(out@>= w;
",
        b"[term]This is CWEAVE (profile 4)
! Never used: <Cited>
Writing the output file...
[tex] is foo.tex
[tex]\\input cwebmac
\\M{1}A @ b, \\PB{\\|x}, , , , \\PB{\\|y}, , , \\PB{\\X2:Cited\\X}.
Then \\PB{\\X3:\\.{out}\\X}.
\\fi

\\M{2}
\\Y\\B\\X2:Cited\\X${}\\E{}$\\6
\\|z;\\par
\\Q1.
\\fi

\\M{3}
\\Y\\B\\X3:\\.{out}\\X${}\\E{}$\\6
\\|w;\\par
\\Q1.
\\fi

",
        b"\\inx
\\fin
\\end
[term]Writing the index...
[idx] is foo.idx
[idx]\\I{roman}, 1.
\\I\\.{type}, 1.
\\I\\9{user}, 1.
\\I\\|y, \\[1].
[scn] is foo.scn
[scn]\\I\\X2:Cited\\X
\\Q1.
\\I\\X3:\\.{out}\\X
\\Q1.
[term]",
        b"Done.
(Did you see the warning message above?)
Clean",
    ),
    // Three definitions in a row, and one that prints nothing.
    (
        b"@ Text.\n@d a 1\n@f foo int\n@s bar int\n@d b 2\n",
        b"[term]This is CWEAVE (profile 4)
Writing the output file...
[tex] is foo.tex
[tex]\\input cwebmac
\\M{1}Text.
\\Y\\B\\4\\D$\\|a$\\5\\T{1}\\par
\\B\\4\\F\\&{foo}\\5\\&{int}\\par
\\B\\4\\D$\\|b$\\5\\T{2}\\par
\\fi

",
        b"\\inx
\\fin
\\end
[term]Writing the index...
[idx] is foo.idx
[idx]\\I\\|a, \\[1].
\\I\\|b, \\[1].
\\I\\&{foo}, 1.
[scn] is foo.scn
[term]",
        b"Done.
(No errors were found.)
Clean",
    ),
    // A part named three times, with footnotes of one, two and three sections.
    (
        b"@ @<N@>= a;
@ @<N@>= b;
@ @<N@>= c;
@ Cite @<N@>.
@c @<N@>;
@ And @<N@>.
@ Last @<N@>.
",
        b"[term]This is CWEAVE (profile 4)
Writing the output file...
[tex] is foo.tex
[tex]\\input cwebmac
\\M{1}
\\Y\\B\\X1:N\\X${}\\E{}$\\6
\\|a;\\par
\\As2\\ET3.
\\Qs4, 5\\ETs6.
\\U4.
\\fi

\\M{2}
\\Y\\B\\X1:N\\X${}\\mathrel+\\E{}$\\6
\\|b;\\par
\\fi

\\M{3}
\\Y\\B\\X1:N\\X${}\\mathrel+\\E{}$\\6
\\|c;\\par
\\fi

\\M{4}Cite \\PB{\\X1:N\\X}.
\\Y\\B\\X1:N\\X;\\par
\\fi

\\M{5}And \\PB{\\X1:N\\X}.
\\fi

\\M{6}Last \\PB{\\X1:N\\X}.
\\fi

",
        b"\\inx
\\fin
\\end
[term]Writing the index...
[idx] is foo.idx
[scn] is foo.scn
[scn]\\I\\X1:N\\X
\\Qs4, 5\\ETs6.
\\U4.
[term]",
        b"Done.
(No errors were found.)
Clean",
    ),
    // Heads that are longer than a line of the TeX file: one of a section, one of a named part, one without a blank.
    (
        b"@ The text of this head is so long that its line of the TeX file is cut at a blank.
@<Print the table of all the names that were found in the files which were read@>= a;
@*1 aaaaaaaaaaaaaaaaaaaaaaaaaaaaaaaaaaaaaaaaaaaaaaaaaaaaaaaaaaaaaaaaaaaaaaaaaaaaaaaa.
@c @<Print...@>;
",
        b"[term]This is CWEAVE (profile 4)
Writing the output file...
[tex] is foo.tex
[tex]\\input cwebmac
\\M{1}The text of this head is so long that its line of the TeX file is cut at a \nblank.
\\Y\\B\\X1:Print the table of all the names that were found in the files which \nwere read\\X${}\\E{}$\\6
\\|a;\\par
\\U2.
\\fi

\\N{1}{2}aaaaaaaaaaaaaaaaaaaaaaaaaaaaaaaaaaaaaaaaaaaaaaaaaaaaaaaaaaaaaaaaaaaaaaa%
aaaaaaaaa.
\\Y\\B\\X1:Print the table of all the names that were found in the files which \nwere read\\X;\\par
\\fi

",
        b"\\inx
\\fin
\\con
[term]Writing the index...
[idx] is foo.idx
[scn] is foo.scn
[scn]\\I\\X1:Print the table of all the names that were found in the files which were \nread\\X
\\U2.
[term]",
        b"Done.
! Line had to be broken (output l. 10 of foo.tex)
(Did you see the warning message above?)
Clean",
    ),
];

/// A run over this web has to tell these pieces, one behind the other.
fn expect_pieces(
    rt: &impl Abort,
    alloc: Global,
    words: &[&[u8]],
    web: &[u8],
    pieces: [&[u8]; 3],
) -> Result<(), Fail> {
    let [sections, index, end] = pieces;
    let seen = told(alloc, words, &[(b"foo.w", web)])?;
    let wanted = text_of(alloc, &[(sections, 1), (index, 1), (end, 1)])?;
    expect(rt, &seen, &wanted);
    Ok(())
}

#[test]
fn each_web_and_its_files(rt: HostRuntime) -> Result<(), Fail> {
    for (web, sections, index, end) in &ROWS {
        let pieces = [*sections, *index, *end];
        expect_pieces(&rt, rt.alloc(), &[FOO], web, pieces)?;
    }
    Ok(())
}

// The TeX file asks for no index, and none is said or written.
#[test]
fn each_web_without_its_index(rt: HostRuntime) -> Result<(), Fail> {
    for (web, sections, _, end) in &ROWS {
        let pieces = [*sections, b"\\end\n[term]".as_slice(), *end];
        expect_pieces(&rt, rt.alloc(), &[b"-x", FOO], web, pieces)?;
    }
    Ok(())
}
