//! The C texts of a book, translated one after another for what they leave: categories and marks.
ghost use Rattle.std.specs.Prelude.{◌≡◌, All, OnOk};
ghost use Rattle.cw_reduce.specs.WholeTexts.{IsCText};
ghost use Rattle.cw_press.specs.Texts.{lasting};
ghost use Rattle.cw_run.specs.Given.{IsBookOf};
ghost use Rattle.cw_translator.specs.NameParts.{AreNamesOf};
ghost use Rattle.cw_mini.specs.Left.{is_inner, left_book, left_by_text, left_by_texts};

use cw_base::{Flags, Ledger, Memory, Steps, Web};
use cw_each::whole_texts_law;
use cw_lex::Mode;
use cw_phase1::Book;
use cw_press::{CText, translate_text};
use cw_texts::{TextList, TextRef, texts};
use std::alloc::Global;

fn is_inner(mode: Mode) -> bool
    ensures { result ≡ is_inner mode }
{
    matches!(mode, Mode::Inner)
}

// Translates a text. Its marks go to the book's occurrences, and the book's names get the categories behind it.
fn leave_text<L: Ledger>(
    alloc: Global,
    text: &[u8],
    part: TextRef,
    book: &mut Book,
    steps: &mut Steps<L>,
) -> Result<(), Memory>
    requires whole { IsCText text.now part.span part.mode }
    requires kept { AreNamesOf book.old.sec_names book.old.name_uses }
    ensures left { OnOk result (book.new ≡ left_by_text text.now book.old part) }
    ensures same { lasting book.new ≡ lasting book.old }
{
    let flags = Flags::start();
    let c = CText {
        text,
        span: part.span,
        mode: part.mode,
        inner: is_inner(part.mode),
        section: part.section,
        flags: &flags,
    };
    translate_text(alloc, c, book, steps)?;
    Ok(())
}

// Translates texts one after another.
fn leave_each<L: Ledger>(
    alloc: Global,
    text: &[u8],
    texts: &TextList,
    book: &mut Book,
    steps: &mut Steps<L>,
) -> Result<(), Memory>
    requires whole { All (λ part. IsCText text.now part.span part.mode) texts.now }
    requires kept { AreNamesOf book.old.sec_names book.old.name_uses }
    ensures { OnOk result (book.new ≡ left_by_texts text.now texts.now book.old) }
{
    for i in 0..texts.len() {
        leave_text(alloc, text, texts.text_ref(i), book, steps)?;
    }
    Ok(())
}

/// Translates the texts of a web, with the flags of the start, and prints nothing of them.
pub(crate) fn leave_texts<L: Ledger>(
    alloc: Global,
    web: &Web,
    book: &mut Book,
    steps: &mut Steps<L>,
) -> Result<(), Memory>
    requires { IsBookOf web.now.lines book.old }
    ensures { OnOk result (book.new ≡ left_book web.now.lines) }
{
    whole_texts_law(); // (for the proof)
    let list = texts(alloc, web, book)?;
    leave_each(alloc, web.text(), &list, book, steps)
}
