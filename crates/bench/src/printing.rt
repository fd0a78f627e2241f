//! Prints ordinary C from its translation.
ghost use Rattle.std.specs.Prelude.{◌≡◌, ◌<◌, IsTrue, None, false, length};
ghost use Rattle.cw_base.specs.declared.event.Out.TheVariants.{Tex};
ghost use Rattle.cw_desk.specs.Meaning.{is_open};
ghost use Rattle.cw_lex.specs.Nested.{begins_section_in};
ghost use Rattle.cw_scraps.specs.Lines.{IsNamedBelow};
ghost use Rattle.cw_tokens.specs.Shapes.{unfolded};
ghost use Rattle.cw_translator.specs.NameParts.{AreNamesOf};

use crate::samples::{LARGEST, ORDINARY, SMALL, repeated};
use cw_answers::Answers;
use cw_base::{Flags, Out, Silent, Span, Steps, Web};
use cw_desk::{Batch, Desk, FileDesk, MadeOut};
use cw_lex::Mode;
use cw_lines::{LineOut, PutError, Sheet};
use cw_phase1::{Book, phase_one};
use cw_print::{KeptText, print_answers};
use cw_reduce::{is_uncut, translate};
use cw_scraps::Marks;
use cw_tokens::{ListId, TokenStore};
use std::alloc::Global;
use std::io;

// What a text needs while it is translated and printed.
#[derive(Drop)]
struct Held<'a> {
    answers: Answers<'a>,
    book: Book,
    store: TokenStore,
    marks: Marks,
}

// The printing alone, whose instructions are counted. Answers how many lines were ended.
#[inline(never)]
fn measured<D: Desk>(
    alloc: Global,
    held: &Held,
    list: ListId,
    desk: &mut D,
) -> Result<u64, PutError>
    requires made { IsTrue (is_open (D.told desk.old).outputs Tex) }
    requires uncut { begins_section_in held.now.answers ≡ false }
    requires list { list.index < length held.now.store.lists }
    requires named { IsNamedBelow (length held.now.book.names) (unfolded held.now.store.lists list.index) }
{
    let text = KeptText {
        answers: &held.answers,
        book: &held.book,
        section: 0,
        flags: &Flags::start(),
        inner: false,
    };
    let mut out = LineOut::new_in(alloc, Out::Tex);
    let mut sheet = Sheet {
        line: &mut out,
        desk,
    };
    print_answers(alloc, text, &held.store, list, &mut sheet)?;
    Ok(out.lines())
}

// Translates and prints a text.
fn printed<D: Desk>(alloc: Global, text: &[u8], desk: &mut D) -> Result<u64, PutError>
    requires made { IsTrue (is_open (D.told desk.old).outputs Tex) }
{
    let book = phase_one(alloc, &Web::new_in(alloc))?;
    let mut held = Held {
        answers: Answers::new_in(alloc),
        book,
        store: TokenStore::new_in(alloc),
        marks: Marks::new_in(alloc),
    };
    printed_in(alloc, text, &mut held, desk)
}

// The same with what is empty yet.
fn printed_in<'a, D: Desk>(
    alloc: Global,
    text: &'a [u8],
    held: &mut Held<'a>,
    desk: &mut D,
) -> Result<u64, PutError>
    requires made { IsTrue (is_open (D.told desk.old).outputs Tex) }
    requires kept { AreNamesOf held.old.book.sec_names held.old.book.name_uses }
    requires idle { held.old.store.building ≡ None }
{
    let span = Span {
        start: 0,
        end: text.len(),
    };
    if text.len() > LARGEST || !is_uncut(text, span, Mode::CPart) {
        return Err(PutError::Memory);
    }
    held.answers.scan(text, span, Mode::CPart)?;
    let mut steps: Steps<Silent> = Steps::new();
    let done = translate(
        alloc,
        text,
        span,
        Mode::CPart,
        &mut held.book.names,
        &held.book.sec_names,
        &held.book.name_uses,
        &mut held.store,
        &mut held.marks,
        &Flags::start(),
        &mut steps,
    )?;
    measured(alloc, held, done.list, desk)
}

// The same onto a desk on which no output is made yet: the device that keeps nothing is.
fn printed_to_nothing<D: Desk>(alloc: Global, text: &[u8], desk: &mut D) -> Result<u64, PutError> {
    if desk.make(Out::Tex, b"/dev/null") != MadeOut::Done {
        return Err(PutError::Fault);
    }
    printed(alloc, text, desk)
}

// The same onto a desk of its own, which no caller has to let go where it prints.
fn lines_of(rt: HostRuntime, text: &[u8]) -> Result<u64, PutError> {
    let alloc = rt.alloc();
    let mut desk = Batch::new_in(alloc, FileDesk::new_in(rt, alloc));
    printed_to_nothing(alloc, text, &mut desk)
}

/// Prints it to no file.
pub(crate) fn run(rt: HostRuntime, size: Option<usize>) -> io::Result<()> {
    let text = repeated(rt.alloc(), size.unwrap_or(SMALL), ORDINARY, false, b"")?;
    match lines_of(rt, &text) {
        Ok(lines) => println!(rt; "{} lines", lines),
        Err(PutError::Fault) => println!(rt; "no output"),
        Err(PutError::Memory) => println!(rt; "no memory"),
    }
}
