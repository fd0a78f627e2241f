//! Tests of the scanner on whole texts.
use cw_base::NoteKind;
use cw_lex::{Code, Directive, Lexed, Lexer, Mode, TokKind};
use std::process::Abort;

/// An answer by its kind and its places.
#[derive(Clone, Copy, PartialEq, Eq)]
pub(crate) enum Shown {
    Token(TokKind, usize, usize),
    Begin(TokKind, usize, usize),
    Finish(TokKind, usize, usize),
    Note(NoteKind, usize),
    End,
}

pub(crate) fn show(answer: Lexed) -> Shown {
    match answer {
        Lexed::Token(t) => Shown::Token(t.kind, t.span.start, t.span.end),
        Lexed::Begin(t) => Shown::Begin(t.kind, t.span.start, t.span.end),
        Lexed::Finish(t) => Shown::Finish(t.kind, t.span.start, t.span.end),
        Lexed::Note(kind, place) => Shown::Note(kind, place),
        Lexed::End => Shown::End,
    }
}

/// Whether these are the next answers of a scanner, one by one.
fn answers(lexer: &mut Lexer, expected: &[Shown]) -> bool {
    for wanted in expected {
        if show(lexer.next()) != *wanted {
            return false;
        }
    }
    true
}

/// Whether these are the answers over a whole text, one by one up to the end.
pub(crate) fn gives(mode: Mode, text: &[u8], expected: &[Shown]) -> bool {
    let mut lexer = Lexer::over(text, 0, text.len(), mode);
    answers(&mut lexer, expected) && matches!(lexer.next(), Lexed::End)
}

/// A text, and all answers over it.
pub(crate) type Row = (Mode, &'static [u8], &'static [Shown]);

/// The answers over each text have to be these.
pub(crate) fn expect_answers(rt: &impl Abort, rows: &[Row]) {
    for (mode, text, answers) in rows {
        assert!(rt; gives(*mode, text, answers));
    }
}

/// Whether the whole text is one token, without a note.
pub(crate) fn is_one(mode: Mode, text: &[u8], kind: TokKind) -> bool {
    gives(mode, text, &[Shown::Token(kind, 0, text.len())])
}

/// Whether this note, at this place, is the only one over a text.
pub(crate) fn notes_only(mode: Mode, text: &[u8], kind: NoteKind, place: usize) -> bool {
    let mut lexer = Lexer::over(text, 0, text.len(), mode);
    let mut count = 0u32;
    let mut same = true;
    // No text of these tests has more answers.
    for _ in 0..1000 {
        match show(lexer.next()) {
            Shown::Note(other, at) => {
                count = count.saturating_add(1);
                same = other == kind && at == place;
            }
            Shown::End => return count == 1 && same,
            _ => {}
        }
    }
    false
}

/// Whether the next answer is a token of these bytes in a `#` line, and of this kind.
fn is_in_hash_line(lexer: &mut Lexer, kind: TokKind, text: &[u8]) -> bool {
    matches!(lexer.next(), Lexed::Token(t) if t.kind == kind && t.text == text && t.hash_line)
}

#[test]
fn an_answer_tells_its_bytes_and_its_line(rt: HostRuntime) {
    let mut lexer = Lexer::over(b"x\n #y\nz", 1, 6, Mode::CPart);
    let told = [
        is_in_hash_line(&mut lexer, TokKind::HashLine, b"#"),
        is_in_hash_line(&mut lexer, TokKind::Identifier, b"y"),
        is_in_hash_line(&mut lexer, TokKind::HashLineEnd, b"\n"),
        answers(&mut lexer, &[Shown::End, Shown::End]),
    ];
    assert!(rt; told == [true; 4]);
}

// Lines that begin with a `#`, and where their first token stands that is a directive.
static DIRECTIVES: [(&[u8], Option<(usize, Directive)>); 15] = [
    (b"\n#if a", Some((2, Directive::Word))),
    (b"\n # else", Some((4, Directive::Word))),
    (b"\n#\\\nendif", Some((4, Directive::Word))),
    (b"\n#int a", Some((2, Directive::Word))),
    (b"\n#define N n", Some((2, Directive::Word))),
    (b"\n#define N (n)", Some((2, Directive::Word))),
    (b"\n#define N(n) n", Some((2, Directive::Macro))),
    (b"\n# define \\\n\tN(", Some((3, Directive::Macro))),
    (b"\n#define N", Some((2, Directive::Word))),
    (b"\n#define 1(n)", Some((2, Directive::Word))),
    (b"\n#define(n)", Some((2, Directive::Word))),
    (b"\n#define /**/ N(n)", Some((2, Directive::Word))),
    (b"\n#undef N(n)", Some((2, Directive::Word))),
    (b"\n#/**/define N(n)", None),
    (b"define N(n)", None),
];

/// Where the first token of a text stands that is a directive.
fn first_directive(text: &[u8]) -> Option<(usize, Directive)> {
    let mut lexer = Lexer::over(text, 0, text.len(), Mode::CPart);
    // No text of these tests has more answers.
    for _ in 0..100 {
        match lexer.next() {
            Lexed::Token(token) if token.directive != Directive::No => {
                return Some((token.span.start, token.directive));
            }
            Lexed::End => return None,
            _ => {}
        }
    }
    None
}

#[test]
fn what_stands_directly_behind_the_sign_of_a_line(rt: HostRuntime) {
    for (text, wanted) in &DIRECTIVES {
        assert!(rt; first_directive(text) == *wanted);
    }
}

#[test]
fn each_part_of_a_section(rt: HostRuntime) {
    let expected = [
        Shown::Token(TokKind::Text, 0, 2),
        Shown::Token(TokKind::Code(Code::Section), 2, 4),
        Shown::Token(TokKind::Text, 4, 6),
        Shown::Begin(TokKind::InnerText, 6, 7),
        Shown::Token(TokKind::Identifier, 7, 8),
        Shown::Finish(TokKind::InnerText, 8, 9),
        Shown::Token(TokKind::Code(Code::Define), 9, 11),
        Shown::Token(TokKind::Identifier, 12, 13),
        Shown::Token(TokKind::Constant, 14, 15),
        Shown::Token(TokKind::Code(Code::SectionName), 15, 20),
        Shown::Token(TokKind::HeadSign, 20, 21),
        Shown::Token(TokKind::Identifier, 21, 22),
        Shown::Token(TokKind::Code(Code::StarredSection), 22, 26),
        Shown::Token(TokKind::Text, 26, 27),
    ];
    assert!(rt; gives(Mode::Limbo, b"l @ T |x|@d n 3@<a@>=x@*2 U", &expected));
}

// The beginnings of so many comments with inner text in each, from the outermost on.
fn begins_nested(lexer: &mut Lexer, levels: usize) -> bool {
    let mut at = 0usize;
    for _ in 0..levels {
        let bar = at.wrapping_add(2);
        let next = at.wrapping_add(3);
        if show(lexer.next()) != Shown::Begin(TokKind::LongComment, at, bar)
            || show(lexer.next()) != Shown::Begin(TokKind::InnerText, bar, next)
        {
            return false;
        }
        at = next;
    }
    true
}

/// Whether a text begins with twenty comments with inner text in each, and these are the first answers behind them.
fn begins_with_nested(text: &[u8], behind: &[Shown]) -> bool {
    let mut lexer = Lexer::over(text, 0, text.len(), Mode::CPart);
    begins_nested(&mut lexer, 20) && answers(&mut lexer, behind)
}

#[test]
fn inner_text_of_depth_20(rt: HostRuntime) {
    let text = b"/*|/*|/*|/*|/*|/*|/*|/*|/*|/*|/*|/*|/*|/*|/*|/*|/*|/*|/*|/*|x";
    let behind = [
        Shown::Token(TokKind::Identifier, 60, 61),
        Shown::Finish(TokKind::InnerText, 61, 61),
        Shown::Note(NoteKind::BarMissing, 60),
        Shown::Finish(TokKind::LongComment, 61, 61),
        Shown::Note(NoteKind::CommentUnended, 57),
    ];
    assert!(rt; begins_with_nested(text, &behind));
}

#[test]
fn inner_text_of_depth_21_is_text(rt: HostRuntime) {
    let text = b"/*|/*|/*|/*|/*|/*|/*|/*|/*|/*|/*|/*|/*|/*|/*|/*|/*|/*|/*|/*|/*|x*/";
    let behind = [
        Shown::Begin(TokKind::LongComment, 60, 62),
        Shown::Token(TokKind::Text, 62, 64),
        Shown::Note(NoteKind::TooDeep, 62),
        Shown::Finish(TokKind::LongComment, 64, 66),
        Shown::Finish(TokKind::InnerText, 66, 66),
        Shown::Note(NoteKind::BarMissing, 65),
    ];
    assert!(rt; begins_with_nested(text, &behind));
}
