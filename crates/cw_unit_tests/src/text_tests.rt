//! Tests of limbo, TeX text, definitions and comments.
use crate::lexer_tests::{Row, Shown, expect_answers, is_one};
use cw_base::NoteKind;
use cw_lex::{Code, Mode, Sign, TokKind};

// A letter is a code in either case.
static CODES: [(&[u8], Code); 25] = [
    (b"@,", Code::ThinSpace),
    (b"@/", Code::LineBreak),
    (b"@|", Code::OptionalBreak),
    (b"@#", Code::BigBreak),
    (b"@+", Code::NoBreak),
    (b"@;", Code::InvisibleSemicolon),
    (b"@[", Code::BeginArgument),
    (b"@]", Code::EndArgument),
    (b"@h", Code::HeaderFile),
    (b"@H", Code::HeaderFile),
    (b"@&", Code::Join),
    (b"@!", Code::Underline),
    (b"@0", Code::Trace),
    (b"@1", Code::Trace),
    (b"@2", Code::Trace),
    (b"@c", Code::Program),
    (b"@P", Code::Program),
    (b"@t x@>", Code::TexBox),
    (b"@=x@@@>", Code::Verbatim),
    (b"@^x@>", Code::Roman),
    (b"@.x@>", Code::Typewriter),
    (b"@:x@>", Code::UserEntry),
    (b"@qx@>", Code::Ignored),
    (b"@<x\n > y@>", Code::SectionName),
    (b"@(x@@y@>", Code::FileName),
];

#[test]
fn codes_of_c_text(rt: HostRuntime) {
    for (text, code) in &CODES {
        assert!(rt; is_one(Mode::CPart, text, TokKind::Code(*code)));
    }
}

static CODES_OF_LIMBO_AND_TEX_TEXT: [Row; 2] = [
    // In limbo a code that may not stand there is dropped without what follows it, in TeX text with its control text.
    (
        Mode::Limbo,
        b"@tx|",
        &[
            Shown::Token(TokKind::Dropped, 0, 2),
            Shown::Note(NoteKind::CodeInLimbo, 0),
            Shown::Token(TokKind::Text, 2, 4),
        ],
    ),
    (
        Mode::TexText,
        b"@tx@>y",
        &[
            Shown::Token(TokKind::Dropped, 0, 5),
            Shown::Note(NoteKind::CodeInTexText, 0),
            Shown::Token(TokKind::Text, 5, 6),
        ],
    ),
];

const LIMBO_CODES: [(&[u8], Code); 4] = [
    (b"@@", Code::At),
    (b"@l", Code::Letters),
    (b"@L", Code::Letters),
    (b"@Q@>", Code::Ignored),
];

const TEX_TEXT_CODES: [(&[u8], Code); 10] = [
    (b"@@", Code::At),
    (b"@^x@>", Code::Roman),
    (b"@.x@>", Code::Typewriter),
    (b"@:x@>", Code::UserEntry),
    (b"@!", Code::Underline),
    (b"@qx@>", Code::Ignored),
    (b"@<x@>", Code::SectionName),
    (b"@(x@>", Code::FileName),
    (b"@2", Code::Trace),
    (b"@c", Code::Program),
];

#[test]
fn codes_of_limbo_and_tex_text(rt: HostRuntime) {
    for (text, code) in &LIMBO_CODES {
        assert!(rt; is_one(Mode::Limbo, text, TokKind::Code(*code)));
    }
    for (text, code) in &TEX_TEXT_CODES {
        assert!(rt; is_one(Mode::TexText, text, TokKind::Code(*code)));
    }
    expect_answers(&rt, &CODES_OF_LIMBO_AND_TEX_TEXT);
}

// The blanks of its line behind a section code belong to it, a line's end never.
static SECTION_CODES: [Row; 1] = [(
    Mode::TexText,
    b"@\n@***",
    &[
        Shown::Token(TokKind::Code(Code::Section), 0, 1),
        Shown::Token(TokKind::Text, 1, 2),
        Shown::Token(TokKind::Code(Code::StarredSection), 2, 5),
        Shown::Token(TokKind::Text, 5, 6),
    ],
)];

#[test]
fn section_codes(rt: HostRuntime) {
    for text in [b"@ \t ".as_slice(), b"@\t"] {
        assert!(rt; is_one(Mode::CPart, text, TokKind::Code(Code::Section)));
    }
    for text in [b"@*".as_slice(), b"@* ", b"@** ", b"@*12 ", b"@*007"] {
        assert!(rt; is_one(Mode::Limbo, text, TokKind::Code(Code::StarredSection)));
    }
    expect_answers(&rt, &SECTION_CODES);
}

const NAME: Shown = Shown::Token(TokKind::Code(Code::SectionName), 0, 5);

// A name begins a C part where a sign stands behind it on its line, else it is a citation or a use.
static HEADS_OF_C_PARTS: [Row; 6] = [
    (
        Mode::TexText,
        b"@<a@> +=|",
        &[
            NAME,
            Shown::Token(TokKind::HeadSign, 6, 8),
            Shown::Token(TokKind::Sign(Sign::Bar), 8, 9),
        ],
    ),
    (
        Mode::TexText,
        b"@<a@>==",
        &[NAME, Shown::Token(TokKind::HeadSign, 5, 7)],
    ),
    (
        Mode::CPart,
        b"@<a@>=",
        &[NAME, Shown::Token(TokKind::HeadSign, 5, 6)],
    ),
    (
        Mode::TexText,
        b"@<a@>\n=",
        &[NAME, Shown::Token(TokKind::Text, 5, 7)],
    ),
    (
        Mode::Inner,
        b"@<a@>=",
        &[NAME, Shown::Token(TokKind::Sign(Sign::Assign), 5, 6)],
    ),
    (
        Mode::CPart,
        b";@<a@>=",
        &[
            Shown::Token(TokKind::Sign(Sign::Semicolon), 0, 1),
            Shown::Token(TokKind::Code(Code::SectionName), 1, 6),
            Shown::Token(TokKind::Sign(Sign::Assign), 6, 7),
        ],
    ),
];

#[test]
fn heads_of_c_parts(rt: HostRuntime) {
    expect_answers(&rt, &HEADS_OF_C_PARTS);
}

const DEFINE: Shown = Shown::Token(TokKind::Code(Code::Define), 0, 2);

static HEADS_OF_DEFINITIONS: [Row; 4] = [
    (
        Mode::TexText,
        b"@d\nm(a,...)@f a b",
        &[
            DEFINE,
            Shown::Token(TokKind::Identifier, 3, 4),
            Shown::Token(TokKind::Sign(Sign::LeftParen), 4, 5),
            Shown::Token(TokKind::Identifier, 5, 6),
            Shown::Token(TokKind::Sign(Sign::Comma), 6, 7),
            Shown::Token(TokKind::Sign(Sign::Ellipsis), 7, 10),
            Shown::Token(TokKind::Sign(Sign::RightParen), 10, 11),
            Shown::Token(TokKind::Code(Code::Format), 11, 13),
            Shown::Token(TokKind::Identifier, 14, 15),
            Shown::Token(TokKind::Identifier, 16, 17),
        ],
    ),
    // Behind white space a parenthesis is none of the head.
    (
        Mode::TexText,
        b"@d m (#",
        &[
            DEFINE,
            Shown::Token(TokKind::Identifier, 3, 4),
            Shown::Token(TokKind::Sign(Sign::LeftParen), 5, 6),
            Shown::Token(TokKind::Sign(Sign::Hash), 6, 7),
        ],
    ),
    // A definition ends at the next one and at a C part, a comment in it doesn't.
    (
        Mode::Definition,
        b"/*@d*/@s a b@c",
        &[
            Shown::Begin(TokKind::LongComment, 0, 2),
            Shown::Token(TokKind::Text, 2, 4),
            Shown::Note(NoteKind::AtInComment, 2),
            Shown::Finish(TokKind::LongComment, 4, 6),
            Shown::Token(TokKind::Code(Code::SilentFormat), 6, 8),
            Shown::Token(TokKind::Identifier, 9, 10),
            Shown::Token(TokKind::Identifier, 11, 12),
            Shown::Token(TokKind::Code(Code::Program), 12, 14),
        ],
    ),
    // Behind the two names limbo goes on.
    (
        Mode::Limbo,
        b"@s a\nb c",
        &[
            Shown::Token(TokKind::Code(Code::SilentFormat), 0, 2),
            Shown::Token(TokKind::Identifier, 3, 4),
            Shown::Token(TokKind::Identifier, 5, 6),
            Shown::Token(TokKind::Text, 6, 8),
        ],
    ),
];

#[test]
fn heads_of_definitions(rt: HostRuntime) {
    expect_answers(&rt, &HEADS_OF_DEFINITIONS);
}

// In TeX text a bar begins inner text and ends it; two bars in it are the operator.
const INNER_TEXT: [Row; 2] = [
    (
        Mode::TexText,
        b"\\||a",
        &[
            Shown::Token(TokKind::Text, 0, 1),
            Shown::Begin(TokKind::InnerText, 1, 2),
            Shown::Finish(TokKind::InnerText, 2, 3),
            Shown::Token(TokKind::Text, 3, 4),
        ],
    ),
    (
        Mode::TexText,
        b"|#||x|",
        &[
            Shown::Begin(TokKind::InnerText, 0, 1),
            Shown::Token(TokKind::Sign(Sign::Hash), 1, 2),
            Shown::Token(TokKind::Sign(Sign::OrOr), 2, 4),
            Shown::Token(TokKind::Identifier, 4, 5),
            Shown::Finish(TokKind::InnerText, 5, 6),
        ],
    ),
];

#[test]
fn inner_text(rt: HostRuntime) {
    expect_answers(&rt, &INNER_TEXT);
}
