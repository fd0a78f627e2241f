//! The section list, as it is printed.
ghost use Rattle.std.specs.Prelude.{◌≡◌, ◌^◌, ◌≤◌, ◌<◌, All, length};
ghost use Rattle.cw_base.specs.Web.{text_of};
ghost use Rattle.cw_lines.specs.Sheets.{CanPrint, IsSameSheet};
ghost use Rattle.cw_lines.specs.Writes.{CanWrite};
ghost use Rattle.cw_translator.specs.NameParts.{AreNamesOf};
ghost use Rattle.cw_press.specs.Texts.{lasting, setting};
ghost use Rattle.cw_press.specs.Weaving.{Weaves, press};
ghost use Rattle.cw_index.specs.model.ListForms.{list_setting};
ghost use Rattle.cw_index.specs.NameList.{IsWholeName, all_listed, listed_done, name_span, names_done};
ghost use Rattle.cw_index.specs.Standing.{listed_names};

use crate::standing::{Listed, listed_names};
use cw_base::{Flags, Ledger, Span, Steps, Web};
use cw_desk::Desk;
use cw_lex::{Lexed, Lexer, Mode};
use cw_lines::{LineOut, PutError, Sheet};
use cw_phase1::Book;
use cw_press::{CText, Counts, print_text, put_use_footnotes};
use std::alloc::Global;

// What the section list is printed with: the web's text, and the flags.
#[derive(Clone, Copy)]
pub(crate) struct ListText<'a> {
    text: &'a [u8],
    flags: &'a Flags,
    alloc: Global,
}

// The span of the section name that begins at a place.
pub(crate) fn name_span(text: &[u8], place: u32) -> Span
    requires { place ≤ length text.now }
    ensures { result ≡ name_span text.now place }
{
    let start = place as usize;
    let mut lexer = Lexer::over(text, start, text.len(), Mode::Inner);
    match lexer.next() {
        Lexed::Token(token) => token.span,
        _ => Span { start, end: start },
    }
}

// Prints a listed name with its footnotes.
fn put_listed<D: Desk, L: Ledger>(
    t: ListText,
    listed: Listed,
    book: &mut Book,
    sheet: &mut Sheet<D>,
    steps: &mut Steps<L>,
) -> Result<Counts, PutError>
    requires can { CanPrint D.told sheet.old }
    requires short { length t.text.now ≤ 2 ^ 24 }
    requires whole { IsWholeName t.text.now listed }
    requires kept { AreNamesOf book.old.sec_names book.old.name_uses }
    ensures weaves { Weaves (list_setting t.entry (lasting book.old))
        (listed_done (list_setting t.entry (lasting book.old)) listed book.old.names)
        (press D.told book.old sheet.old steps.old) (press D.told book.new sheet.new steps.new) result }
    ensures same { IsSameSheet sheet.old sheet.new }
{
    let c = CText {
        text: t.text,
        span: name_span(t.text, listed.place),
        mode: Mode::Inner,
        inner: false,
        section: 0,
        flags: t.flags,
    };
    sheet.put_all(b"\\I")?;
    let counts = print_text(t.alloc, c, book, sheet, steps)?;
    sheet.put_all(b"\n")?;
    put_use_footnotes(book, listed.id, sheet)?;
    Ok(counts)
}

// Prints listed names.
fn put_all_listed<D: Desk, L: Ledger>(
    t: ListText,
    listed: &[Listed],
    book: &mut Book,
    sheet: &mut Sheet<D>,
    steps: &mut Steps<L>,
) -> Result<Counts, PutError>
    requires can { CanPrint D.told sheet.old }
    requires short { length t.text.now ≤ 2 ^ 24 }
    requires whole { All (IsWholeName t.text.now) listed.now }
    requires kept { AreNamesOf book.old.sec_names book.old.name_uses }
    ensures weaves { Weaves (list_setting t.entry (lasting book.old))
        (all_listed (list_setting t.entry (lasting book.old)) listed.now book.old.names)
        (press D.told book.old sheet.old steps.old) (press D.told book.new sheet.new steps.new) result }
    ensures same { IsSameSheet sheet.old sheet.new }
{
    let mut counts = Counts::none();
    for one in listed {
        let more = put_listed(t, *one, book, sheet, steps)?;
        counts = counts.plus(more)?;
    }
    Ok(counts)
}

/// Prints the section list: each section name to which a section refers, in the order of the texts, with the sections
/// that cite and use it. The book's names get the categories behind its C texts; their marks are no occurrences.
pub fn write_names<D: Desk, L: Ledger>(
    alloc: Global,
    web: &Web,
    book: &mut Book,
    flags: &Flags,
    out: &mut LineOut,
    desk: &mut D,
    steps: &mut Steps<L>,
) -> Result<Counts, PutError>
    requires can { CanWrite (D.told desk.old) out.old }
    requires kept { AreNamesOf book.old.sec_names book.old.name_uses }
    requires whole { All (IsWholeName (text_of web.now.lines))
        (listed_names book.old.sec_names book.old.name_uses) }
    ensures { Weaves (setting (text_of web.now.lines) flags.now 0 book.old)
        (names_done (setting (text_of web.now.lines) flags.now 0 book.old) book.old.names)
        (record { book = book.old; line = out.old; told = D.told desk.old; steps = steps.old })
        (record { book = book.new; line = out.new; told = D.told desk.new; steps = steps.new }) result }
{
    let text = web.text();
    let listed = listed_names(alloc, &book.sec_names, &book.name_uses)?;
    let t = ListText { text, flags, alloc };
    let mut sheet = Sheet { line: out, desk };
    put_all_listed(t, &listed, book, &mut sheet, steps)
}
