//! Tests of each token of C text.
use crate::lexer_tests::{Row, Shown, expect_answers, is_one};
use cw_base::NoteKind;
use cw_lex::{Code, Mode, Sign, TokKind};

#[test]
fn identifiers(rt: HostRuntime) {
    for text in [
        b"a".as_slice(),
        b"_x1",
        b"$",
        b"int",
        b"L",
        b"u8",
        b"\xe9t\xe9",
    ] {
        assert!(rt; is_one(Mode::CPart, text, TokKind::Identifier));
    }
}

const WHOLE_CONSTANTS: [&[u8]; 29] = [
    b"0",
    b"7",
    b"120",
    b"012",
    b"08",
    b"0x1f",
    b"0XaF",
    b"1.",
    b"1.5",
    b".5",
    b"1e5",
    b"1E+5",
    b"1.e-5",
    b".5e10",
    b"012.5",
    b"12u",
    b"0x1fUL",
    b"1.5f",
    b"2e3L",
    b"7lulu",
    b"0b1010'1010",
    b"0B1uL",
    b"0x1.8p-3f",
    b"0x1.p3",
    b"0X1p3",
    b"0x1'f",
    b"1'000'000u",
    b"1'0.5'5e1'2",
    b".5'5",
];

#[test]
fn each_form_of_a_constant(rt: HostRuntime) {
    for text in &WHOLE_CONSTANTS {
        assert!(rt; is_one(Mode::CPart, text, TokKind::Constant));
    }
}

const CONSTANT: Shown = Shown::Token(TokKind::Constant, 0, 1);

const NAME: Shown = Shown::Token(TokKind::Identifier, 1, 2);

const CHARACTER: Shown = Shown::Token(TokKind::Quoted, 1, 4);

// Digits are wanted behind `0x` and `0b`, behind a dot that begins a constant, and in an exponent; a dot before a dot
// belongs to no constant, and between two digits of one run one quote may stand.
static WHERE_A_CONSTANT_ENDS: [Row; 11] = [
    (Mode::CPart, b"0x", &[CONSTANT, NAME]),
    (Mode::CPart, b"0b", &[CONSTANT, NAME]),
    (Mode::CPart, b"1e", &[CONSTANT, NAME]),
    (
        Mode::CPart,
        b"1e+",
        &[
            CONSTANT,
            NAME,
            Shown::Token(TokKind::Sign(Sign::Plus), 2, 3),
        ],
    ),
    (Mode::CPart, b"1a", &[CONSTANT, NAME]),
    (
        Mode::CPart,
        b"1..2",
        &[
            CONSTANT,
            Shown::Token(TokKind::Sign(Sign::Dot), 1, 2),
            Shown::Token(TokKind::Constant, 2, 4),
        ],
    ),
    (
        Mode::CPart,
        b"1...5",
        &[
            CONSTANT,
            Shown::Token(TokKind::Sign(Sign::Ellipsis), 1, 4),
            Shown::Token(TokKind::Constant, 4, 5),
        ],
    ),
    (
        Mode::CPart,
        b"0b12",
        &[
            Shown::Token(TokKind::Constant, 0, 3),
            Shown::Token(TokKind::Constant, 3, 4),
        ],
    ),
    (
        Mode::CPart,
        b"0x1p",
        &[
            Shown::Token(TokKind::Constant, 0, 3),
            Shown::Token(TokKind::Identifier, 3, 4),
        ],
    ),
    (Mode::CPart, b"1'a'", &[CONSTANT, CHARACTER]),
    (
        Mode::CPart,
        b"1.'5'",
        &[
            Shown::Token(TokKind::Constant, 0, 2),
            Shown::Token(TokKind::Quoted, 2, 5),
        ],
    ),
];

#[test]
fn where_a_constant_ends(rt: HostRuntime) {
    assert!(rt; is_one(Mode::CPart, b".", TokKind::Sign(Sign::Dot)));
    expect_answers(&rt, &WHERE_A_CONSTANT_ENDS);
}

static SIGNS: [(&[u8], Sign); 40] = [
    (b"/", Sign::Slash),
    (b".", Sign::Dot),
    (b"<", Sign::Less),
    (b">", Sign::Greater),
    (b"|", Sign::Bar),
    (b"=", Sign::Assign),
    (b"^", Sign::Caret),
    (b"%", Sign::Percent),
    (b"->", Sign::Arrow),
    (b"<<", Sign::ShiftLeft),
    (b">>", Sign::ShiftRight),
    (b"==", Sign::Equal),
    (b"!=", Sign::NotEqual),
    (b"<=", Sign::AtMost),
    (b">=", Sign::AtLeast),
    (b"&&", Sign::AndAnd),
    (b"||", Sign::OrOr),
    (b"!", Sign::Not),
    (b"~", Sign::Tilde),
    (b"++", Sign::PlusPlus),
    (b"--", Sign::MinusMinus),
    (b"+", Sign::Plus),
    (b"-", Sign::Minus),
    (b"#", Sign::Hash),
    (b"*", Sign::Star),
    (b"&", Sign::Ampersand),
    (b"?", Sign::Question),
    (b"(", Sign::LeftParen),
    (b"[", Sign::LeftBracket),
    (b")", Sign::RightParen),
    (b"]", Sign::RightBracket),
    (b"{", Sign::LeftBrace),
    (b"}", Sign::RightBrace),
    (b",", Sign::Comma),
    (b";", Sign::Semicolon),
    (b":", Sign::Colon),
    (b"...", Sign::Ellipsis),
    (b"::", Sign::DoubleColon),
    (b"?:", Sign::QuestionColon),
    (b"[[", Sign::DoubleBracket),
];

#[test]
fn each_sign(rt: HostRuntime) {
    for (text, sign) in &SIGNS {
        assert!(rt; is_one(Mode::Inner, text, TokKind::Sign(*sign)));
    }
}

// Of the signs that fit the longest is taken, and what begins none is a byte of its own.
static WHERE_A_SIGN_ENDS: [Row; 5] = [
    (
        Mode::CPart,
        b"<<=",
        &[
            Shown::Token(TokKind::Sign(Sign::ShiftLeft), 0, 2),
            Shown::Token(TokKind::Sign(Sign::Assign), 2, 3),
        ],
    ),
    (
        Mode::CPart,
        b"--->",
        &[
            Shown::Token(TokKind::Sign(Sign::MinusMinus), 0, 2),
            Shown::Token(TokKind::Sign(Sign::Arrow), 2, 4),
        ],
    ),
    (
        Mode::CPart,
        b":::",
        &[
            Shown::Token(TokKind::Sign(Sign::DoubleColon), 0, 2),
            Shown::Token(TokKind::Sign(Sign::Colon), 2, 3),
        ],
    ),
    (
        Mode::CPart,
        b"?::",
        &[
            Shown::Token(TokKind::Sign(Sign::QuestionColon), 0, 2),
            Shown::Token(TokKind::Sign(Sign::Colon), 2, 3),
        ],
    ),
    (
        Mode::CPart,
        b"..",
        &[
            Shown::Token(TokKind::Sign(Sign::Dot), 0, 1),
            Shown::Token(TokKind::Sign(Sign::Dot), 1, 2),
        ],
    ),
];

#[test]
fn where_a_sign_ends(rt: HostRuntime) {
    for text in [b"\\".as_slice(), b"`", b"\x01"] {
        assert!(rt; is_one(Mode::CPart, text, TokKind::OtherByte));
    }
    expect_answers(&rt, &WHERE_A_SIGN_ENDS);
}

// A backslash takes any byte along, and a line's end goes on wherever a backslash stands before it.
const WHOLE_STRINGS: [&[u8]; 12] = [
    b"L\"a\"",
    b"u'a'",
    b"U\"a\"",
    b"u8\"a\"",
    b"\"a b\"",
    b"'\"'",
    b"'\\''",
    b"\"a\\\\\"",
    b"\"a\\\nb\"",
    b"\"a\\\\\nb\"",
    b"\"a@@b\"",
    b"\"a\\@b\"",
];

static STRINGS: [Row; 3] = [
    (
        Mode::CPart,
        b"uL'a'",
        &[
            Shown::Token(TokKind::Identifier, 0, 2),
            Shown::Token(TokKind::Quoted, 2, 5),
        ],
    ),
    (
        Mode::CPart,
        b"L 'a'",
        &[
            Shown::Token(TokKind::Identifier, 0, 1),
            Shown::Token(TokKind::Quoted, 2, 5),
        ],
    ),
    (
        Mode::CPart,
        b"\"a\nb",
        &[
            Shown::Token(TokKind::Quoted, 0, 2),
            Shown::Note(NoteKind::StringUnended, 2),
            Shown::Token(TokKind::Identifier, 3, 4),
        ],
    ),
];

#[test]
fn strings(rt: HostRuntime) {
    for text in &WHOLE_STRINGS {
        assert!(rt; is_one(Mode::CPart, text, TokKind::Quoted));
    }
    for text in [b"@'a'".as_slice(), b"@'@@'", b"@'\\''"] {
        assert!(rt; is_one(Mode::CPart, text, TokKind::Code(Code::Quote)));
    }
    expect_answers(&rt, &STRINGS);
}

static LINES_WITH_HASH: [Row; 5] = [
    // It is the first byte of its line that isn't blank, in a C part.
    (
        Mode::CPart,
        b"a #\n\t#",
        &[
            Shown::Token(TokKind::Identifier, 0, 1),
            Shown::Token(TokKind::Sign(Sign::Hash), 2, 3),
            Shown::Token(TokKind::HashLine, 5, 6),
        ],
    ),
    // A backslash before the line's end lets the line go on; in that line `#` is a sign.
    (
        Mode::CPart,
        b"#a\\\n#b\nc",
        &[
            Shown::Token(TokKind::HashLine, 0, 1),
            Shown::Token(TokKind::Identifier, 1, 2),
            Shown::Token(TokKind::Sign(Sign::Hash), 4, 5),
            Shown::Token(TokKind::Identifier, 5, 6),
            Shown::Token(TokKind::HashLineEnd, 6, 7),
            Shown::Token(TokKind::Identifier, 7, 8),
        ],
    ),
    // A long comment's line end ends nothing around it.
    (
        Mode::CPart,
        b"#/*\n*/a\n",
        &[
            Shown::Token(TokKind::HashLine, 0, 1),
            Shown::Begin(TokKind::LongComment, 1, 3),
            Shown::Token(TokKind::Text, 3, 4),
            Shown::Finish(TokKind::LongComment, 4, 6),
            Shown::Token(TokKind::Identifier, 6, 7),
            Shown::Token(TokKind::HashLineEnd, 7, 8),
        ],
    ),
    // A short comment ends behind a backslash too, and the line then goes on.
    (
        Mode::CPart,
        b"#//\\\na\n",
        &[
            Shown::Token(TokKind::HashLine, 0, 1),
            Shown::Begin(TokKind::ShortComment, 1, 3),
            Shown::Token(TokKind::Text, 3, 4),
            Shown::Finish(TokKind::ShortComment, 4, 4),
            Shown::Token(TokKind::Identifier, 5, 6),
            Shown::Token(TokKind::HashLineEnd, 6, 7),
        ],
    ),
    // A section code ends it, without a token.
    (
        Mode::CPart,
        b"#a@ ",
        &[
            Shown::Token(TokKind::HashLine, 0, 1),
            Shown::Token(TokKind::Identifier, 1, 2),
            Shown::Token(TokKind::Code(Code::Section), 2, 4),
        ],
    ),
];

#[test]
fn lines_with_hash(rt: HostRuntime) {
    expect_answers(&rt, &LINES_WITH_HASH);
}

const HASH: Shown = Shown::Token(TokKind::HashLine, 0, 1);

const WORD: Shown = Shown::Token(TokKind::Identifier, 1, 8);

const LESS: Shown = Shown::Token(TokKind::Sign(Sign::Less), 8, 9);

const LETTER: Shown = Shown::Token(TokKind::Identifier, 9, 10);

const GREATER: Shown = Shown::Token(TokKind::Sign(Sign::Greater), 10, 11);

// An include name is the next token behind the word `include` of a `#` line.
static INCLUDE_NAMES: [Row; 5] = [
    (
        Mode::CPart,
        b"#include<a//b>",
        &[HASH, WORD, Shown::Token(TokKind::IncludeName, 8, 14)],
    ),
    (
        Mode::CPart,
        b"#include<a@b>",
        &[
            HASH,
            WORD,
            Shown::Token(TokKind::IncludeName, 8, 13),
            Shown::Note(NoteKind::AtInString, 10),
        ],
    ),
    (
        Mode::CPart,
        b"#include<a\n",
        &[
            HASH,
            WORD,
            LESS,
            LETTER,
            Shown::Token(TokKind::HashLineEnd, 10, 11),
        ],
    ),
    (
        Mode::CPart,
        b"#pragmas<a>",
        &[HASH, WORD, LESS, LETTER, GREATER],
    ),
    (
        Mode::CPart,
        b"#include/**/<a>",
        &[
            HASH,
            WORD,
            Shown::Begin(TokKind::LongComment, 8, 10),
            Shown::Finish(TokKind::LongComment, 10, 12),
            Shown::Token(TokKind::Sign(Sign::Less), 12, 13),
            Shown::Token(TokKind::Identifier, 13, 14),
            Shown::Token(TokKind::Sign(Sign::Greater), 14, 15),
        ],
    ),
];

#[test]
fn include_names(rt: HostRuntime) {
    expect_answers(&rt, &INCLUDE_NAMES);
}

// A backslash takes the next byte of a comment along, so that `\*/` ends none.
static COMMENTS: [Row; 4] = [
    (
        Mode::CPart,
        b"/* \\| \\} @@\\*/",
        &[
            Shown::Begin(TokKind::LongComment, 0, 2),
            Shown::Token(TokKind::Text, 2, 14),
            Shown::Finish(TokKind::LongComment, 14, 14),
            Shown::Note(NoteKind::CommentUnended, 0),
        ],
    ),
    (
        Mode::CPart,
        b"/*{}*/x",
        &[
            Shown::Begin(TokKind::LongComment, 0, 2),
            Shown::Token(TokKind::Text, 2, 4),
            Shown::Finish(TokKind::LongComment, 4, 6),
            Shown::Token(TokKind::Identifier, 6, 7),
        ],
    ),
    // In inner text `*/` is two signs, and a comment of its own may stand.
    (
        Mode::CPart,
        b"/*|*/||/*y*/|*/",
        &[
            Shown::Begin(TokKind::LongComment, 0, 2),
            Shown::Begin(TokKind::InnerText, 2, 3),
            Shown::Token(TokKind::Sign(Sign::Star), 3, 4),
            Shown::Token(TokKind::Sign(Sign::Slash), 4, 5),
            Shown::Token(TokKind::Sign(Sign::OrOr), 5, 7),
            Shown::Begin(TokKind::LongComment, 7, 9),
            Shown::Token(TokKind::Text, 9, 10),
            Shown::Finish(TokKind::LongComment, 10, 12),
            Shown::Finish(TokKind::InnerText, 12, 13),
            Shown::Finish(TokKind::LongComment, 13, 15),
        ],
    ),
    // A line's end ends the short comments around it, and the inner text in them.
    (
        Mode::CPart,
        b"//|//a\nb",
        &[
            Shown::Begin(TokKind::ShortComment, 0, 2),
            Shown::Begin(TokKind::InnerText, 2, 3),
            Shown::Begin(TokKind::ShortComment, 3, 5),
            Shown::Token(TokKind::Text, 5, 6),
            Shown::Finish(TokKind::ShortComment, 6, 6),
            Shown::Finish(TokKind::InnerText, 6, 6),
            Shown::Note(NoteKind::BarMissing, 6),
            Shown::Finish(TokKind::ShortComment, 6, 6),
            Shown::Token(TokKind::Identifier, 7, 8),
        ],
    ),
];

#[test]
fn comments(rt: HostRuntime) {
    expect_answers(&rt, &COMMENTS);
}
