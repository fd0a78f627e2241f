//! Webs of one C part: the section and the index, with flag x and without.
use crate::expectations::expect;
use crate::runs::{FOO, told};
use crate::texts::text_of;
use cw_base::{Bytes, Memory};
use std::alloc::Global;
use std::test::Fail;

/// What a run of one section tells before it.
const BEGINNING: &[u8] = b"[term]This is CWEAVE (profile 4)
Writing the output file...
[tex] is foo.tex
[tex]\\input cwebmac
\\M{1}
";

/// What it tells between the section and the index.
const INDEXING: &[u8] =
    b"\\fi\n\n\\inx\n\\fin\n\\end\n[term]Writing the index...\n[idx] is foo.idx\n";

/// How it ends, without notes.
const CLEAN: &[u8] = b"[term]Done.\n(No errors were found.)\nClean";

/// What a run of one section tells, with the index.
fn with_index<'x>(alloc: Global, section: &'x [u8], index: &'x [u8]) -> Result<Bytes, Memory> {
    let pieces: [(&[u8], usize); 7] = [
        (BEGINNING, 1),
        (section, 1),
        (INDEXING, 1),
        (b"[idx]", usize::from(!index.is_empty())),
        (index, 1),
        (b"[scn] is foo.scn\n", 1),
        (CLEAN, 1),
    ];
    text_of(alloc, &pieces)
}

/// What it tells with flag x.
fn without_index(alloc: Global, section: &[u8]) -> Result<Bytes, Memory> {
    let pieces: [(&[u8], usize); 4] = [
        (BEGINNING, 1),
        (section, 1),
        (b"\\fi\n\n\\end\n", 1),
        (CLEAN, 1),
    ];
    text_of(alloc, &pieces)
}

/// A text of a C part, what its section prints, and its index.
static ROWS: [(&[u8], &[u8], &[u8]); 17] = [
    (
        b"int a=b+c, *d;",
        b"\\Y\\B\\&{int} \\|a${}\\K\\|b+\\|c,{}$ ${}{*}\\|d;$\\par\n",
        b"\\I\\|a, \\[1].\n\\I\\|d, \\[1].\n",
    ),
    (
        b"if(a)b;else if(c){d;}else e;",
        b"\\Y\\B\\&{if} (\\|a)\\1\\5\\|b;\\2\\6
\\&{else} \\&{if} (\\|c)\\5${}\\{\\1{}$\\6
\\|d;\\6
\\4${}\\}\\2{}$\\6
\\&{else}\\1\\5\\|e;\\2\\par
",
        b"",
    ),
    (
        b"typedef struct foo{int x;} bar; bar y;",
        b"\\Y\\B\\&{typedef} \\&{struct} \\&{foo} ${}\\{\\1{}$\\6
\\&{int} \\|x;\\2\\6
${}\\}{}$ \\&{bar};\\6
\\&{bar} \\|y;\\par
",
        b"\\I\\&{bar}, \\[1].\n\\I\\\\{foo}, \\[1].\n\\I\\|x, \\[1].\n\\I\\|y, \\[1].\n",
    ),
    (
        b"if(a)b; /* c */ else d;",
        b"\\Y\\B\\&{if} (\\|a)\\1\\5\\|b;\\C{ c }\\2\\6\n\\&{else}\\1\\5\\|d;\\2\\par\n",
        b"",
    ),
    (b") } ; @;", b"\\Y\\B) $\\}{}$\\6\n;\\par\n", b""),
    (
        b"a; /* b |x /* c |y| */| */",
        b"\\Y\\B\\|a;\\C{ b \\PB{\\|x\\C{ c \\PB{\\|y} }} }\\par\n",
        b"",
    ),
    (b"@[int@]=x; @]", b"\\Y\\B$\\&{int}\\K\\|x;$\\par\n", b""),
    (b"x=a?b:c;", b"\\Y\\B$\\|x\\K\\|a\\?\\|b:\\|c;$\\par\n", b""),
    (
        b"struct s p={.x=1,.y=2};",
        b"\\Y\\B\\&{struct} \\&{s} \\|p${}\\K\\{{.}\\|x\\K\\T{1},\\39{.}\\|y\\K\\T{2}\\};$\\par\n",
        b"\\I\\|p, \\[1].\n",
    ),
    (
        b"x=(int){1};",
        b"\\Y\\B$\\|x\\K(\\&{int})\\{\\T{1}\\};$\\par\n",
        b"",
    ),
    (
        b"_Generic(x,default:2);",
        b"\\Y\\B\\&{\\_Generic} ${}(\\|x,\\39{}$\\&{default}: \\T{2});\\par\n",
        b"",
    ),
    (b"a.b;", b"\\Y\\B$\\|a.\\|b;$\\par\n", b""),
    // In the index a tag prints as a name, unless it is a type.
    (
        b"struct foo{int x;} *bar;",
        b"\\Y\\B\\&{struct} \\&{foo} ${}\\{\\1{}$\\6
\\&{int} \\|x;\\2\\6
${}\\}{}$ ${}{*}\\\\{bar};$\\par
",
        b"\\I\\\\{bar}, \\[1].\n\\I\\\\{foo}, \\[1].\n\\I\\|x, \\[1].\n",
    ),
    (
        b"struct heap *heap;",
        b"\\Y\\B\\&{struct} \\&{heap} ${}{*}\\\\{heap};$\\par\n",
        b"\\I\\\\{heap}, \\[1].\n",
    ),
    (
        b"struct foo{int x;}; typedef struct foo bar;",
        b"\\Y\\B\\&{struct} \\&{foo} ${}\\{\\1{}$\\6
\\&{int} \\|x;\\2\\6
${}\\};{}$\\6
\\&{typedef} \\&{struct} \\&{foo} \\&{bar};\\par
",
        b"\\I\\&{bar}, \\[1].\n\\I\\\\{foo}, \\[1].\n\\I\\|x, \\[1].\n",
    ),
    (
        b"struct tm *t; x=tm;",
        b"\\Y\\B\\&{struct} \\&{tm} ${}{*}\\|t;{}$\\7\n${}\\|x\\K\\\\{tm};$\\par\n",
        b"\\I\\|t, \\[1].\n\\I\\\\{tm}, 1.\n",
    ),
    (
        b"struct foo *a; enum foo;",
        b"\\Y\\B\\&{struct} \\&{foo} ${}{*}\\|a;{}$\\6\n\\&{enum} \\&{foo};\\par\n",
        b"\\I\\|a, \\[1].\n\\I\\\\{foo}, \\[1].\n",
    ),
];

/// What a run over a section of this C part tells.
fn part_told(alloc: Global, text: &[u8], words: &[&[u8]]) -> Result<Bytes, Memory> {
    let pieces: [(&[u8], usize); 3] = [(b"@ @c ", 1), (text, 1), (b"\n", 1)];
    let web = text_of(alloc, &pieces)?;
    told(alloc, words, &[(b"foo.w", web.as_slice())])
}

#[test]
fn each_section_and_its_index(rt: HostRuntime) -> Result<(), Fail> {
    for (text, section, index) in &ROWS {
        let seen = part_told(rt.alloc(), text, &[FOO])?;
        expect(&rt, &seen, &with_index(rt.alloc(), section, index)?);
        let seen = part_told(rt.alloc(), text, &[b"-x", FOO])?;
        expect(&rt, &seen, &without_index(rt.alloc(), section)?);
    }
    Ok(())
}
