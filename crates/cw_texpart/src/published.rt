//! Limbo and TeX parts, printed to a line and a desk. No program calls them, users of the library do: thin calls of
//! what programs run.
ghost use Rattle.std.specs.Prelude.{◌≡◌, ◌-◌, ◌<◌, ◌≤◌, All, IfOk, Some, length, slice_get};
ghost use Rattle.cw_base.specs.Web.{text_of};
ghost use Rattle.cw_lines.specs.Writes.{CanWrite, Puts};
ghost use Rattle.cw_phase1.specs.declared.sections.Section.{Section};
ghost use Rattle.cw_texpart.specs.Limbo.{limbo_bytes};
ghost use Rattle.cw_texts.specs.WholeTexts.{IsWholePiece};
ghost use Rattle.cw_texpart.specs.TexParts.{tex_done};
ghost use Rattle.cw_press.specs.Texts.{setting};
ghost use Rattle.cw_press.specs.Weaving.{Weaves};
ghost use Rattle.cw_texts.specs.TexPieces.{tex_pieces_of};
ghost use Rattle.cw_translator.specs.NameParts.{AreNamesOf};

use crate::limbo::print_limbo;
use crate::tex_parts::print_tex;
use cw_base::{Flags, Ledger, Steps, Web};
use cw_desk::Desk;
use cw_lines::{LineOut, PutError, Sheet};
use cw_phase1::Book;
use cw_press::{Counts, SectionAtHand};
use std::alloc::Global;

/// Prints the first line of the TeX file and limbo. It translates nothing.
pub fn copy_limbo<D: Desk>(
    alloc: Global,
    web: &Web,
    book: &Book,
    out: &mut LineOut,
    desk: &mut D,
) -> Result<Counts, PutError>
    requires can { CanWrite (D.told desk.old) out.old }
    ensures puts { Puts (limbo_bytes (text_of web.now.lines) book.now.outline.limbo) out.old out.new
        (D.told desk.old) (D.told desk.new) result }
    ensures scraps { IfOk result (λ counts. counts.scraps ≡ 0) }
    ensures productions { IfOk result (λ counts. counts.productions ≡ 0) }
{
    let _ = alloc;
    let mut sheet = Sheet { line: out, desk };
    print_limbo(web, book, &mut sheet)
}

/// Prints the head of the section of this number, and directly behind it its TeX part. The marks of the C texts in it
/// go to the book's occurrences, and the book's names get the categories behind them.
pub fn copy_tex<D: Desk, L: Ledger>(
    alloc: Global,
    web: &Web,
    book: &mut Book,
    section: u32,
    flags: &Flags,
    out: &mut LineOut,
    desk: &mut D,
    steps: &mut Steps<L>,
) -> Result<Counts, PutError>
    requires can { CanWrite (D.told desk.old) out.old }
    requires first { 0 < section }
    requires last { section ≤ length book.old.outline.sections }
    requires kept { AreNamesOf book.old.sec_names book.old.name_uses }
    requires whole { (s : Section) → slice_get book.old.outline.sections (section - 1) ≡ Some s
        → All (IsWholePiece (text_of web.now.lines)) (tex_pieces_of (text_of web.now.lines) s.tex) }
    ensures { (s : Section) → slice_get book.old.outline.sections (section - 1) ≡ Some s
        → Weaves (setting (text_of web.now.lines) flags.now section book.old)
        (tex_done (setting (text_of web.now.lines) flags.now section book.old) s book.old.names)
        (record { book = book.old; line = out.old; told = D.told desk.old; steps = steps.old })
        (record { book = book.new; line = out.new; told = D.told desk.new; steps = steps.new }) result }
{
    let text = web.text();
    let printed = book.section(section);
    let at = SectionAtHand::of(alloc, text, flags, book, section, &printed)?;
    let mut sheet = Sheet { line: out, desk };
    print_tex(at, printed, book, &mut sheet, steps)
}
