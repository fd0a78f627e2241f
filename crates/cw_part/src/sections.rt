//! What stands behind the TeX part of a section.
ghost use Rattle.std.specs.Prelude.{◌≡◌, ◌^◌, ◌≤◌, All, length};
ghost use Rattle.cw_lines.specs.Sheets.{CanPrint, IsSameSheet, Prints};
ghost use Rattle.cw_texts.specs.Definitions.{definitions_in, printed_definitions};
ghost use Rattle.cw_part.specs.Parts.{definitions_done, first_opening, has_no_part, part_by, part_opening};
ghost use Rattle.cw_press.specs.model.PartForms.{part_setting};
ghost use Rattle.cw_part.specs.Sections.{ending, rest_by};
ghost use Rattle.cw_texts.specs.WholeTexts.{IsWholeDefinition, IsWholeIn, IsWholeRest};
ghost use Rattle.cw_rules.specs.declared.tokens.Mode.TheVariants.{CPart, Definition};
ghost use Rattle.cw_translator.specs.NameParts.{AreNamesOf};
ghost use Rattle.cw_press.specs.Texts.{lasting};
ghost use Rattle.cw_press.specs.Weaving.{Weaves, press};

use crate::paragraphs::{Paragraph, print_paragraph};
use cw_base::{Ledger, Span, Steps};
use cw_desk::Desk;
use cw_lex::Mode;
use cw_lines::{PutError, Sheet};
use cw_phase1::{Book, Section};
use cw_press::{Beside, Counts, SectionAtHand, put_footnotes};
use cw_texts::Definitions;

// The bytes before the first definition of a section.
fn first_opening(beside: Beside) -> &'static [u8]
    ensures { result.now ≡ first_opening beside }
{
    match beside {
        Beside::Definition => b"\\B\\quad",
        _ => b"\\Y\\B",
    }
}

// The bytes before a C part.
fn part_opening(beside: Beside, ranged: bool, section: &Section) -> &'static [u8]
    ensures { result.now ≡ part_opening beside ranged section.now }
{
    match beside {
        Beside::CPart => b"\\B",
        _ if ranged && section.name.is_some() => b"\\Y\\B\\4",
        _ => b"\\Y\\B",
    }
}

// Prints the definitions that stand at a span, but for the silent ones.
fn print_definitions<D: Desk, L: Ledger>(
    p: SectionAtHand,
    part: Span,
    book: &mut Book,
    sheet: &mut Sheet<D>,
    steps: &mut Steps<L>,
) -> Result<Counts, PutError>
    requires can { CanPrint D.told sheet.old }
    requires short { length p.text.now ≤ 2 ^ 24 }
    requires whole { IsWholeIn Definition p.text.now part }
    requires each { All (IsWholeDefinition p.text.now) (definitions_in p.text.now part) }
    requires kept { AreNamesOf book.old.sec_names book.old.name_uses }
    ensures weaves { Weaves (part_setting p.entry (lasting book.old))
        (definitions_done (part_setting p.entry (lasting book.old)) (first_opening p.entry.beside)
        (printed_definitions p.entry.text.now part) book.old.names)
        (press D.told book.old sheet.old steps.old) (press D.told book.new sheet.new steps.new) result }
    ensures same { IsSameSheet sheet.old sheet.new }
{
    if part.start == part.end {
        return Ok(Counts::none());
    }
    let mut definitions = Definitions::over(p.text, part);
    let mut counts = Counts::none();
    let mut front = first_opening(p.beside);
    'printed: loop {
        match definitions.next_printed() {
            Some(span) => {
                let paragraph = Paragraph {
                    front,
                    mode: Mode::Definition,
                    span,
                    always: true,
                };
                let more = print_paragraph(p, paragraph, book, sheet, steps)?;
                counts = counts.plus(more)?;
                front = b"\\B";
            }
            None => return Ok(counts),
        }
    }
}

// Whether a section has no C part.
fn has_no_part(section: &Section) -> bool
    ensures { result ≡ has_no_part section.now }
{
    match section.name {
        Some(_id) => false,
        None => section.c_part.start == section.c_part.end,
    }
}

// Prints the C part of a section, where there is one.
fn print_c_part<D: Desk, L: Ledger>(
    p: SectionAtHand,
    section: Section,
    book: &mut Book,
    sheet: &mut Sheet<D>,
    steps: &mut Steps<L>,
) -> Result<Counts, PutError>
    requires can { CanPrint D.told sheet.old }
    requires short { length p.text.now ≤ 2 ^ 24 }
    requires whole { IsWholeIn CPart p.text.now section.c_part }
    requires kept { AreNamesOf book.old.sec_names book.old.name_uses }
    ensures weaves { Weaves (part_setting p.entry (lasting book.old))
        (part_by p.entry.beside (part_setting p.entry (lasting book.old)) section book.old.names)
        (press D.told book.old sheet.old steps.old) (press D.told book.new sheet.new steps.new) result }
    ensures same { IsSameSheet sheet.old sheet.new }
{
    if has_no_part(&section) {
        return Ok(Counts::none());
    }
    let paragraph = Paragraph {
        front: part_opening(p.beside, p.flags.ranged, &section),
        mode: Mode::CPart,
        span: section.c_part,
        always: section.name.is_some(),
    };
    print_paragraph(p, paragraph, book, sheet, steps)
}

// Puts what ends a section: its footnotes, a line `\fi` and an empty line.
fn put_ending<D: Desk>(
    p: SectionAtHand,
    section: Section,
    book: &Book,
    sheet: &mut Sheet<D>,
) -> Result<(), PutError>
    requires can { CanPrint D.told sheet.old }
    ensures { Prints D.told (ending (part_setting p.entry (lasting book.now)) section) sheet.old sheet.new result }
{
    put_footnotes(book, section.name, p.section, sheet)?;
    sheet.put_all(b"\\fi\n\n")
}

/// Prints a section behind its TeX part: its definitions, its C part and its footnotes. The marks of its C texts go to
/// the book's occurrences, and the book's names get the categories behind them.
pub fn print_rest<D: Desk, L: Ledger>(
    p: SectionAtHand,
    section: Section,
    book: &mut Book,
    sheet: &mut Sheet<D>,
    steps: &mut Steps<L>,
) -> Result<Counts, PutError>
    requires can { CanPrint D.told sheet.old }
    requires short { length p.text.now ≤ 2 ^ 24 }
    requires whole { IsWholeRest p.text.now section }
    requires kept { AreNamesOf book.old.sec_names book.old.name_uses }
    ensures weaves { Weaves (part_setting p.entry (lasting book.old))
        (rest_by p.entry.beside (part_setting p.entry (lasting book.old)) section book.old.names)
        (press D.told book.old sheet.old steps.old) (press D.told book.new sheet.new steps.new) result }
    ensures same { IsSameSheet sheet.old sheet.new }
{
    let counts = print_definitions(p, section.definitions, book, sheet, steps)?;
    let more = print_c_part(p, section, book, sheet, steps)?;
    let counts = counts.plus(more)?;
    put_ending(p, section, book, sheet)?;
    Ok(counts)
}
