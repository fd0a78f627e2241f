//! A section behind its TeX part, printed to a line and a desk. No program calls it, users of the library do: a thin
//! call of what programs run.
ghost use Rattle.std.specs.Prelude.{◌≡◌, ◌-◌, ◌<◌, ◌≤◌, Some, length, slice_get};
ghost use Rattle.cw_base.specs.Web.{text_of};
ghost use Rattle.cw_lines.specs.Writes.{CanWrite};
ghost use Rattle.cw_part.specs.Sections.{rest_done};
ghost use Rattle.cw_texts.specs.WholeTexts.{IsWholeRest};
ghost use Rattle.cw_phase1.specs.declared.sections.Section.{Section};
ghost use Rattle.cw_press.specs.Texts.{setting};
ghost use Rattle.cw_press.specs.Weaving.{Weaves};
ghost use Rattle.cw_translator.specs.NameParts.{AreNamesOf};

use crate::sections::print_rest;
use cw_base::{Flags, Ledger, Steps, Web};
use cw_desk::Desk;
use cw_lines::{LineOut, PutError, Sheet};
use cw_phase1::Book;
use cw_press::{Counts, SectionAtHand};
use std::alloc::Global;

/// Prints the section of this number behind its TeX part: its definitions, its C part and its footnotes. The marks of
/// its C texts go to the book's occurrences, and the book's names get the categories behind them.
pub fn weave_section<D: Desk, L: Ledger>(
    alloc: Global,
    web: &Web,
    book: &mut Book,
    section: u32,
    flags: &Flags,
    out: &mut LineOut,
    desk: &mut D,
    steps: &mut Steps<L>,
) -> Result<Counts, PutError>
    requires can { CanWrite (D.told desk.old) out.old }
    requires first { 0 < section }
    requires last { section ≤ length book.old.outline.sections }
    requires kept { AreNamesOf book.old.sec_names book.old.name_uses }
    requires whole { (s : Section) → slice_get book.old.outline.sections (section - 1) ≡ Some s
        → IsWholeRest (text_of web.now.lines) s }
    ensures { (s : Section) → slice_get book.old.outline.sections (section - 1) ≡ Some s
        → Weaves (setting (text_of web.now.lines) flags.now section book.old)
        (rest_done (setting (text_of web.now.lines) flags.now section book.old) s book.old.names)
        (record { book = book.old; line = out.old; told = D.told desk.old; steps = steps.old })
        (record { book = book.new; line = out.new; told = D.told desk.new; steps = steps.new }) result }
{
    let text = web.text();
    let printed = book.section(section);
    let at = SectionAtHand::of(alloc, text, flags, book, section, &printed)?;
    let mut sheet = Sheet { line: out, desk };
    print_rest(at, printed, book, &mut sheet, steps)
}
