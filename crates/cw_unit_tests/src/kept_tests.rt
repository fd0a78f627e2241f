//! Tests of answers that are kept: they are those of a scanner, and their vector serves one text after another.
ghost use Rattle.std.specs.Prelude.{◌≤◌};

use crate::lexer_tests::show;
use cw_answers::{Answers, Reader};
use cw_base::{Memory, Span};
use cw_lex::{Lexed, Lexer, Mode};
use std::alloc::Global;
use std::test::Fail;

// How many answers over a text are kept in place of those before, and whether they are those of a scanner.
fn kept_of(
    answers: &mut Answers<'static>,
    text: &'static [u8],
    mode: Mode,
) -> Result<(usize, bool), Memory> {
    let end = text.len();
    answers.scan(text, Span { start: 0, end }, mode)?;
    let mut lexer = Lexer::over(text, 0, end, mode);
    for i in 0..answers.len() {
        if show(answers.at(i)) != show(lexer.next()) {
            return Ok((i, false));
        }
    }
    Ok((answers.len(), true))
}

// The same of two texts, one after another.
fn kept_of_two(alloc: Global) -> Result<[(usize, bool); 2], Memory> {
    let mut answers = Answers::new_in(alloc);
    let first = kept_of(
        &mut answers,
        b"if (a) b = \"c\"; /* |d| and */",
        Mode::CPart,
    )?;
    let second = kept_of(&mut answers, b"a@>+b", Mode::Inner)?;
    Ok([first, second])
}

#[test]
fn answers_are_kept_as_they_are_scanned(rt: HostRuntime) -> Result<(), Fail> {
    assert_eq!(rt; kept_of_two(rt.alloc())?, [(15, true), (5, true)]);
    Ok(())
}

// What a reader keeps of a C text, and how many answers it hands out.
fn read_of(alloc: Global, span: Span) -> Result<(usize, usize), Memory>
    requires order { span.start ≤ span.end }
    requires within { span.end ≤ 29 }
{
    let text = b"if (a) b = \"c\"; /* |d| and */";
    let mut reader = Reader::over(alloc, text, span, Mode::CPart);
    reader.restart(Answers::new_in(alloc), text, span, Mode::CPart);
    for count in 0..100 {
        if let Lexed::End = reader.next() {
            return Ok((count, reader.take_answers(alloc)?.len()));
        }
    }
    Err(Memory)
}

#[test]
fn a_reader_keeps_what_it_hands_out(rt: HostRuntime) -> Result<(), Fail> {
    let span = Span { start: 0, end: 29 };
    assert_eq!(rt; read_of(rt.alloc(), span)?, (15, 15));
    Ok(())
}
