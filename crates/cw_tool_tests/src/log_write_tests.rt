//! Whole runs of `write`: the log of a web, which `check` then accepts.
use crate::programs::Program;
use cw_base::{Bytes, Exit, Memory};
use std::alloc::Global;
use std::test::Fail;

// Webs, and the log of each.
const WEBS: [(&str, &str); 17] = [
    (
        "@ @c i=i+1;\n",
        "text 6\nb exp i\ns binop\nb exp i\ns ubinop\ns exp\ns semi\nP6 0\nP6 0\nP8 0\nend\n",
    ),
    // A name that prints as a macro of TeX tells no name.
    (
        "@ @s p_q TeX\n@c a=NULL; p_q=a;\n",
        "text 8\nb exp a\ns binop\ns tex_like\ns semi\ns tex_like\ns binop\nb exp a\ns semi\nP142 2\nP6 0\n\
         P8 0\nP142 1\nP6 1\nP8 1\nP72 0\nend\n",
    ),
    // An attribute and a box.
    (
        "@ @c [[a]] int b;\n@ @c @t\\4@>x;\n",
        "text 7\ns attr_head\nb exp a\ns rpar\ns rpar\ns raw_int\nb exp b\ns semi\nP114 0\nP117 0\nP89 0\nP29 0\n\
         P33 0\nP37 0\nend\ntext 3\ns box\nb exp x\ns semi\nP113 0\nP141 0\nP8 0\nend\n",
    ),
    // A list of parameters that goes on.
    (
        "@ |f(int,...)|\n",
        "text 6\nb exp f\ns lpar\ns raw_int\ns comma\ns dots\ns rpar\nP89 2\nP15 1\nP111 2\nP14 1\nP11 0\nend\n",
    ),
    // Inner texts of comments end before the text around them.
    (
        "@ @c a; /* b |x /* c |y| */| */\n",
        "text 1\nb exp y\nend\ntext 2\nb exp x\ns insert\nP1 0\nend\n\
         text 3\nb exp a\ns semi\ns insert\nP8 0\nP1 0\nend\n",
    ),
    // Those of a section name are told wherever the name stands.
    (
        "@ See @<Use |x| and |y+1|@>.\n@ @<Use |x| and |y+1|@>= z;\n",
        "text 1\nb exp x\nend\ntext 3\nb exp y\ns ubinop\ns exp\nP6 0\nend\ntext 1\ns section_scrap\nP80 0\nend\n\
         text 1\nb exp x\nend\ntext 3\nb exp y\ns ubinop\ns exp\nP6 0\nend\n\
         text 3\ns dead\nb exp z\ns semi\nP8 1\nend\n",
    ),
    (
        "@ Text |f(x)| and @<Read a@>.\n@<Read a@>= x;\n",
        "text 4\nb exp f\ns lpar\nb exp x\ns rpar\nP12 1\nP11 0\nend\ntext 1\ns section_scrap\nP80 0\nend\n\
         text 3\ns dead\nb exp x\ns semi\nP8 1\nend\n",
    ),
    // A name is made a type by a format.
    (
        "@ @d n 3\n@f foo int\n@c foo x;\n",
        "text 2\ni dead n\ns exp\nend\ntext 1\ns dead\nend\n\
         text 3\ns raw_int\nb exp x\ns semi\nP89 0\nP29 0\nP33 0\nP37 0\nend\n",
    ),
    // A leaf line tells what its scrap was when its text began.
    (
        "@ @c typedef struct foo{int x;} bar; bar y;\n",
        "text 13\ns typedef_like\ns struct_like\nb exp foo\ns lbrace\ns raw_int\nb exp x\ns semi\ns rbrace\nb exp bar\n\
         s semi\nb exp bar\nb exp y\ns semi\nP42 1\nP89 2\nP29 2\nP33 2\nP37 2\nP44 1\nP83 0\nP84 0\nP86 0\nP89 1\n\
         P29 1\nP33 1\nP37 1\nP38 0\nend\n",
    ),
    // A tag stays a name.
    (
        "@ @c struct foo *foo; foo x;\n",
        "text 8\ns struct_like\nb exp foo\ns raw_ubin\nb exp foo\ns semi\nb exp foo\nb exp x\ns semi\nP43 0\n\
         P91 1\nP29 0\nP32 0\nP33 0\nP37 0\nP136 1\nP8 1\nP39 0\nend\n",
    ),
    // A macro with parameters and one without, and words that are reserved directly behind the `#` alone.
    (
        "@ @c\n#define F(line) y=line\n#define N n+1\n",
        "text 17\ns lproc\ns mdefine_like\nb exp F\ns lpar\nb exp line\ns rpar\nb exp y\ns binop\nb exp line\n\
         s rproc\ns lproc\ns define_like\nb exp N\nb exp n\ns ubinop\ns exp\ns rproc\nP12 3\nP78 1\nP75 0\nP6 1\n\
         P77 0\nP81 0\nP74 0\nP6 1\nP77 0\nend\n",
    ),
    // An empty text is told; a C part without scraps is none.
    (
        "@ || and |a|\n@d empty\n@ @c\n@ no C\n",
        "text 0\nend\ntext 1\nb exp a\nend\ntext 1\ni dead empty\nend\n",
    ),
    // What a name that is ignored stands for isn't told.
    (
        "@ @<A@>= /* |case| |@<A@>| */ x;\n@ @<...@> @<A@>\n",
        "text 1\nc case_like\nend\ntext 1\ns section_scrap\nP80 0\nend\n\
         text 4\ns dead\ns insert\nb exp x\ns semi\nP1 0\nP8 1\nend\ntext 1\ns section_scrap\nP80 0\nend\n",
    ),
    ("@ no C\n", ""),
    ("limbo |x|\n", ""),
    ("@ |a|\n", "text 1\nb exp a\nend\n"),
    ("@ |case|\n", "text 1\nc case_like\nend\n"),
];

/// What a run over one file prints and writes, and its status.
fn seen(
    alloc: Global,
    words: &[&[u8]],
    name: &[u8],
    bytes: &[u8],
) -> Result<(Bytes, Exit), Memory> {
    let (text, exit, _) = Program::Log.told(alloc, words, &[(name, bytes)])?;
    Ok((text, exit))
}

/// Whether the log of a web is this, and is accepted.
fn is_logged(alloc: Global, web: &str, log: &str) -> Result<bool, Memory> {
    let words: [&[u8]; 4] = [b"write", b"foo", b"-", b"foo.log"];
    let (written, exit) = seen(alloc, &words, b"foo.w", web.as_bytes())?;
    let mut told = Bytes::from_slice(alloc, b"[tex]foo.log\n")?;
    told.append(log.as_bytes())?;
    let check: [&[u8]; 2] = [b"check", b"foo.log"];
    let (_, checked) = seen(alloc, &check, b"foo.log", log.as_bytes())?;
    Ok(written.as_slice() == told.as_slice() && exit == Exit::Clean && checked == Exit::Clean)
}

#[test]
fn webs_are_logged(rt: HostRuntime) -> Result<(), Fail> {
    for (web, log) in &WEBS {
        assert!(rt; is_logged(rt.alloc(), web, log)?);
    }
    Ok(())
}
