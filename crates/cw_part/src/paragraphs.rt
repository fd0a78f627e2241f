//! C texts that are paragraphs of a section.
ghost use Rattle.std.specs.Prelude.{◌≡◌, ◌^◌, ◌||◌, ◌≤◌, false, length, nat_lt, true};
ghost use Rattle.cw_lex.specs.Lexing.{tokens_of};
ghost use Rattle.cw_lex.specs.Nested.{begins_section_in, is_c_mode};
ghost use Rattle.cw_lines.specs.Sheets.{CanPrint, IsSameSheet};
ghost use Rattle.cw_part.specs.Parts.{paragraph_if};
ghost use Rattle.cw_part.specs.model.PresentForms.{text_of};
ghost use Rattle.cw_press.specs.model.PartForms.{part_setting};
ghost use Rattle.cw_translator.specs.Counting.{scraps_in};
ghost use Rattle.cw_translator.specs.NameParts.{AreNamesOf};
ghost use Rattle.cw_press.specs.Texts.{lasting};
ghost use Rattle.cw_press.specs.Weaving.{Weaves, press};

use cw_base::{Ledger, Span, Steps};
use cw_desk::Desk;
use cw_lex::Mode;
use cw_lines::{PutError, Sheet};
use cw_phase1::Book;
use cw_press::{CText, Counts, SectionAtHand, translate_text};

/// A C text that is a paragraph.
#[derive(Clone, Copy)]
pub(crate) struct Paragraph {
    /// The bytes before it.
    pub(crate) front: &'static [u8],
    pub(crate) mode: Mode,
    pub(crate) span: Span,
    /// Whether it is printed even where it has no scrap.
    pub(crate) always: bool,
}

// Whether a paragraph of so many scraps is printed.
fn is_printed(always: bool, scraps: u64) -> bool
    ensures { result ≡ (always || nat_lt 0 scraps) }
{
    always || scraps > 0
}

/// Translates a paragraph, and prints it where it is to be printed.
pub(crate) fn print_paragraph<D: Desk, L: Ledger>(
    p: SectionAtHand,
    paragraph: Paragraph,
    book: &mut Book,
    sheet: &mut Sheet<D>,
    steps: &mut Steps<L>,
) -> Result<Counts, PutError>
    requires can { CanPrint D.told sheet.old }
    requires order { paragraph.span.start ≤ paragraph.span.end }
    requires within { paragraph.span.end ≤ length p.text.now }
    requires short { length p.text.now ≤ 2 ^ 24 }
    requires c_text { is_c_mode paragraph.mode ≡ true }
    requires uncut { begins_section_in
        (tokens_of p.text.now paragraph.span.start paragraph.span.end paragraph.mode) ≡ false }
    requires kept { AreNamesOf book.old.sec_names book.old.name_uses }
    ensures weaves { let d = text_of p.entry paragraph (lasting book.old) book.old.names in
        Weaves (part_setting p.entry (lasting book.old))
        (paragraph_if (paragraph.always || nat_lt 0 (scraps_in d.ended)) paragraph.front.now d)
        (press D.told book.old sheet.old steps.old) (press D.told book.new sheet.new steps.new) result }
    ensures same { IsSameSheet sheet.old sheet.new }
{
    let c = CText {
        text: p.text,
        span: paragraph.span,
        mode: paragraph.mode,
        inner: false,
        section: p.section,
        flags: p.flags,
    };
    let translated = translate_text(p.alloc, c, book, steps)?;
    let counts = translated.counts();
    let printed = is_printed(paragraph.always, counts.scraps);
    if !printed {
        return Ok(counts);
    }
    sheet.put_all(paragraph.front)?;
    translated.print(p.alloc, book, sheet)?;
    sheet.put_all(b"\\par\n")?;
    Ok(counts)
}
