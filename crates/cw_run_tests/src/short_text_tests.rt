//! Short C texts of all kinds, each with what its section prints.
use crate::expectations::expect_told;
use crate::runs::FOO;
use crate::short_parts::{PARTS_FROM_98, PARTS_OF_MORE, PARTS_TO_97, Row};
use crate::texts::{Piece, text_of};
use std::alloc::Global;
use std::process::Abort;
use std::test::Fail;

/// The bytes of a web around a C text, and those around what is printed of it.
struct Frame {
    web: [&'static [u8]; 2],
    told: [&'static [u8]; 2],
}

const TEX: &[u8] = b"[tex] is foo.tex\n[tex]\\input cwebmac\n\\M{1}";

const END: &[u8] = b"\n\\fi\n\n\\end\nClean";

/// The same behind a section that defines the name `x`.
static PARTS_WITH_A_NAME: [Row; 7] = [
    (
        b"f() @<x@> int g(){a;}",
        b"\\Y\\B\\|f(\\,)\\6
\\X1:x\\X\\7
\\1\\1\\&{int} \\|g(\\,)\\2\\2\\6
${}\\{\\1{}$\\6
\\|a;\\6
\\4${}\\}\\2{}$\\par",
    ),
    (
        b"do {@<x@>} while(a);",
        b"\\Y\\B\\&{do}\\5${}\\{\\X1:x\\X\\}{}$\\5\\&{while} (\\|a);\\par",
    ),
    (
        b"if(a){@<x@>}",
        b"\\Y\\B\\&{if} (\\|a)\\5${}\\{\\X1:x\\X\\}{}$\\par",
    ),
    (
        b"f(){@<x@>}",
        b"\\Y\\B\\1\\1\\|f(\\,)\\2\\2\\6
${}\\{\\1{}$\\6
\\X1:x\\X\\6
\\4${}\\}\\2{}$\\par",
    ),
    (b"@<x@>\nint b;", b"\\Y\\B\\X1:x\\X\\7\n\\&{int} \\|b;\\par"),
    (b"@t\\4@>@<x@>@;", b"\\Y\\B\\hbox{\\4}\\X1:x\\X\\par"),
    (b"@<x@>@;@+break;", b"\\Y\\B\\X1:x\\X\\5\\&{break};\\par"),
];

/// Inner texts between bars.
static INNER_TEXTS: [Row; 13] = [
    (b"int x=5", b"\\PB{\\&{int} \\|x${}\\K\\T{5}$}"),
    (b"a;b", b"\\PB{\\|a; \\|b}"),
    (b"case 1: b", b"\\PB{\\&{case} \\T{1}: \\|b}"),
    (b"a; done:", b"\\PB{\\|a; \\\\{done}:}"),
    (b"a:=b", b"\\PB{$\\|a:\\MRL{\\K}\\|b$}"),
    (b">=a", b"\\PB{$\\G\\|a$}"),
    (b"goto continue", b"\\PB{\\&{goto} \\&{continue}}"),
    (b"a[i", b"\\PB{\\|a[ \\|i}"),
    (b"int a; int b", b"\\PB{\\&{int} \\|a; \\&{int} \\|b}"),
    (b"a[1 TeX 2]", b"\\PB{$\\|a[\\T{1}\\TeX\\T{2}]$}"),
    (b"1 TeX 2", b"\\PB{$\\T{1}\\TeX\\T{2}$}"),
    (b"t==int", b"\\PB{$\\|t\\E\\&{int}$}"),
    (b"a,", b"\\PB{$\\|a,$}"),
];

/// Definitions, with a C part.
const DEFINITIONS: [Row; 3] = [
    (
        b"@f loop while\n@c loop {a;}",
        b"\\Y\\B\\4\\F\\&{loop}\\5\\&{while}\\par
\\Y\\B\\&{loop}\\5${}\\{\\1{}$\\6
\\|a;\\6
\\4${}\\}\\2{}$\\par",
    ),
    (
        b"@d m do {a;} while(0)",
        b"\\Y\\B\\4\\D$\\|m$\\5\\&{do}\\5${}\\{\\1{}$\\6
\\|a;\\6
\\4${}\\}\\2{}$\\5\\&{while} (\\T{0})\\par",
    ),
    (
        b"@d begin if(x){a;",
        b"\\Y\\B\\4\\D$\\\\{begin}$\\6
\\&{if} (\\|x)\\5${}\\{\\1{}$\\6
\\|a;\\2\\par",
    ),
];

/// Expressions that are assigned to `a`.
static TOKENS: [Row; 17] = [
    (b"0b1010'1010", b"\\T{\\\\1010\\ 1010}"),
    (b"0B1uL", b"\\T{\\\\1\\$U\\$L}"),
    (b"1'000'000u", b"\\T{1\\ 000\\ 000\\$U}"),
    (b"1'0.5'5e1'2f", b"\\T{1\\ 0.5\\ 5\\_1\\ 2\\$F}"),
    (b"017'7", b"\\T{\\~17\\ 7}"),
    (b"0'17", b"\\T{0\\ 17}"),
    (b"0x1.8p-3", b"\\T{\\^1.8p-3}"),
    (b"0X1.P+1'0f", b"\\T{\\^1.P+1\\ 0\\$F}"),
    (b"0xFF'FFul", b"\\T{\\^FF\\ FF\\$U\\$L}"),
    (b"L\"x\"", b"\\.{L\"x\"}"),
    (b"u8'x'", b"\\.{u8'x'}"),
    (b"\"012345678901234567\"", b"\\.{\"012345678901234567\"}"),
    (
        b"\"0123456789012345678\"",
        b"\\.{\"0123456789012345678}\\)\\.{\"}",
    ),
    (
        b"\"012345678901234567\\n1\"",
        b"\\.{\"012345678901234567\\\\n}\\)\\.{1\"}",
    ),
    (
        b"\"0123456789012345678\\n1\"",
        b"\\.{\"0123456789012345678}\\)\\.{\\\\n1\"}",
    ),
    (
        b"u8\"012345678901234567890123456789012345678\"",
        b"\\.{u8\"01234567890123456}\\)\\.{78901234567890123456}\\)\\.{78\"}",
    ),
    (b"NULL", b"\\NULL"),
];

const PART: Frame = Frame {
    web: [b"@ @c ", b"\n"],
    told: [b"\n", b""],
};

const PART_WITH_A_NAME: Frame = Frame {
    web: [b"@ @<x@>=a;\n@ @c ", b"\n"],
    told: [
        b"\n\\Y\\B\\X1:x\\X${}\\E{}$\\6\n\\|a;\\par\n\\U2.\n\\fi\n\n\\M{2}\n",
        b"",
    ],
};

const INNER_TEXT: Frame = Frame {
    web: [b"@ |", b"|\n"],
    told: [b"", b""],
};

const DEFINITION: Frame = Frame {
    web: [b"@ ", b"\n"],
    told: [b"\n", b""],
};

const ASSIGNED: Frame = Frame {
    web: [b"@ @c a=", b";\n"],
    told: [b"\n\\Y\\B$\\|a\\K", b";$\\par"],
};

/// A run over a web with this text has to print what is wanted.
fn expect_row(rt: &impl Abort, alloc: Global, frame: &Frame, row: &Row) -> Result<(), Fail> {
    let (text, printed) = *row;
    let web: [Piece; 3] = [(frame.web[0], 1), (text, 1), (frame.web[1], 1)];
    let told: [Piece; 5] = [
        (TEX, 1),
        (frame.told[0], 1),
        (printed, 1),
        (frame.told[1], 1),
        (END, 1),
    ];
    let web = text_of(alloc, &web)?;
    let told = text_of(alloc, &told)?;
    let files = [(b"foo.w".as_slice(), web.as_slice())];
    expect_told(rt, alloc, &[b"-bphx", FOO], &files, told.as_slice())
}

/// The same for each text of a table.
fn expect_rows(rt: &impl Abort, alloc: Global, frame: &Frame, rows: &[Row]) -> Result<(), Fail> {
    for row in rows {
        expect_row(rt, alloc, frame, row)?;
    }
    Ok(())
}

#[test]
fn each_short_part(rt: HostRuntime) -> Result<(), Fail> {
    expect_rows(&rt, rt.alloc(), &PART, &PARTS_TO_97)?;
    expect_rows(&rt, rt.alloc(), &PART, &PARTS_FROM_98)?;
    expect_rows(&rt, rt.alloc(), &PART, &PARTS_OF_MORE)?;
    expect_rows(&rt, rt.alloc(), &PART_WITH_A_NAME, &PARTS_WITH_A_NAME)
}

#[test]
fn each_other_short_text(rt: HostRuntime) -> Result<(), Fail> {
    expect_rows(&rt, rt.alloc(), &INNER_TEXT, &INNER_TEXTS)?;
    expect_rows(&rt, rt.alloc(), &DEFINITION, &DEFINITIONS)?;
    expect_rows(&rt, rt.alloc(), &ASSIGNED, &TOKENS)
}
