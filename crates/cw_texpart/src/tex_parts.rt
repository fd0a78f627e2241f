//! The head and the TeX part of a section.
ghost use Rattle.std.specs.Prelude.{◌≡◌, ◌^◌, ◌≤◌, true, All, IfOk, length};
ghost use Rattle.cw_rules.specs.Answers.{seen};
ghost use Rattle.cw_rules.specs.declared.tokens.Mode.TheVariants.{Inner};
ghost use Rattle.cw_lines.specs.Sheets.{CanPrint, IsSameSheet, Prints};
ghost use Rattle.cw_translator.specs.NameParts.{AreNamesOf};
ghost use Rattle.cw_press.specs.Done.{reprinted};
ghost use Rattle.cw_press.specs.Inks.{laid, token_inks};
ghost use Rattle.cw_texpart.specs.model.Laying.{holds_bytes, inked};
ghost use Rattle.cw_press.specs.model.PartForms.{part_setting};
ghost use Rattle.cw_texpart.specs.model.PartForms.{tex_setting};
ghost use Rattle.cw_texts.specs.PieceForms.{piece_is};
ghost use Rattle.cw_texts.specs.WholeTexts.{IsWhole, IsWholePiece};
ghost use Rattle.cw_texpart.specs.TexParts.{piece_done, pieces_done, tex_by};
ghost use Rattle.cw_texts.specs.TexPieces.{tex_pieces_of};
ghost use Rattle.cw_press.specs.Texts.{lasting, name_done, text_done};
ghost use Rattle.cw_press.specs.Weaving.{Weaves, press};

use crate::copying::{end_line_if, holds_bytes};
use crate::heads::{Head, put_head};
use crate::inks::put_token;
use cw_base::{Flags, Ledger, Span, Steps};
use cw_desk::Desk;
use cw_lex::{Mode, Tok};
use cw_lines::{PutError, Sheet};
use cw_phase1::{Book, Section};
use cw_press::{CText, Counts, Rooms, SectionAtHand, StoredTree, translate_into};
use cw_texts::{Piece, Pieces};
use std::alloc::Global;
use std::marker::Model;

// What a TeX part is printed with: the web's text, the number of its section, and the flags. Its C texts are translated
// in one store, one after another, so that most of them take no memory for their lists. One reader scans them, and
// their answers are kept in one vector.
#[derive(Drop)]
pub(crate) struct TexPart<'a> {
    text: &'a [u8],
    section: u32,
    flags: &'a Flags,
    alloc: Global,
    rooms: Rooms<'a>,
}

impl<'a> Model for TexPart<'a> {
    ghost use Rattle.cw_texpart.specs.model.PartForms.{TexSetting};

    ghost Value = { TexSetting };

    ghost view = { λ t. record { text = t.text.now; section = t.section; flags = t.flags.now } };
}

// Puts a token that is copied.
fn put_copied<D: Desk>(text: &[u8], token: &Tok, sheet: &mut Sheet<D>) -> Result<Counts, PutError>
    requires can { CanPrint D.told sheet.old }
    ensures prints { Prints D.told
        (inked (holds_bytes sheet.old.line.now) (token_inks text.now token.now.kind (seen token.now)))
        sheet.old sheet.new result }
    ensures scraps { IfOk result (λ counts. counts.scraps ≡ 0) }
    ensures productions { IfOk result (λ counts. counts.productions ≡ 0) }
{
    put_token(text, token, sheet)?;
    Ok(Counts::none())
}

// Puts the inner C text at a span.
fn put_inner<D: Desk, L: Ledger>(
    t: &mut TexPart,
    part: Span,
    book: &mut Book,
    sheet: &mut Sheet<D>,
    steps: &mut Steps<L>,
) -> Result<Counts, PutError>
    requires can { CanPrint D.told sheet.old }
    requires short { length t.old.text ≤ 2 ^ 24 }
    requires whole { IsWhole t.old.text part }
    requires kept { AreNamesOf book.old.sec_names book.old.name_uses }
    ensures woven { Weaves (tex_setting t.old (lasting book.old))
        (text_done (tex_setting t.old (lasting book.old)) Inner true part book.old.names)
        (press D.told book.old sheet.old steps.old) (press D.told book.new sheet.new steps.new) result }
    ensures sheet { IsSameSheet sheet.old sheet.new }
    ensures same { t.new ≡ t.old }
{
    let c = CText {
        text: t.text,
        span: part,
        mode: Mode::Inner,
        inner: true,
        section: t.section,
        flags: t.flags,
    };
    let translated = translate_into(&mut t.rooms, t.alloc, c, book, steps)?;
    let tree = StoredTree {
        text: c,
        answers: &t.rooms.answers,
        store: &t.rooms.store,
        list: translated.list,
    };
    tree.print(t.alloc, book, sheet)?;
    Ok(translated.counts)
}

// Puts the section name at a span, as inner C text. One that is ignored prints nothing.
fn put_cited<D: Desk, L: Ledger>(
    t: &mut TexPart,
    part: Span,
    book: &mut Book,
    sheet: &mut Sheet<D>,
    steps: &mut Steps<L>,
) -> Result<Counts, PutError>
    requires can { CanPrint D.told sheet.old }
    requires short { length t.old.text ≤ 2 ^ 24 }
    requires whole { IsWhole t.old.text part }
    requires kept { AreNamesOf book.old.sec_names book.old.name_uses }
    ensures woven { Weaves (tex_setting t.old (lasting book.old))
        (name_done (tex_setting t.old (lasting book.old)) true part book.old.names)
        (press D.told book.old sheet.old steps.old) (press D.told book.new sheet.new steps.new) result }
    ensures sheet { IsSameSheet sheet.old sheet.new }
    ensures same { t.new ≡ t.old }
{
    match book.name_uses.at(part.start as u32) {
        None => Ok(Counts::none()),
        Some(_id) => put_inner(t, part, book, sheet, steps),
    }
}

// Puts a piece.
fn put_piece<D: Desk, L: Ledger>(
    t: &mut TexPart,
    piece: Piece,
    book: &mut Book,
    sheet: &mut Sheet<D>,
    steps: &mut Steps<L>,
) -> Result<Counts, PutError>
    requires can { CanPrint D.told sheet.old }
    requires short { length t.old.text ≤ 2 ^ 24 }
    requires whole { IsWholePiece t.old.text (piece_is piece) }
    requires kept { AreNamesOf book.old.sec_names book.old.name_uses }
    ensures woven { Weaves (tex_setting t.old (lasting book.old))
        (reprinted (inked (holds_bytes sheet.old.line.now))
        (piece_done (tex_setting t.old (lasting book.old)) (piece_is piece.entry) book.old.names))
        (press D.told book.old sheet.old steps.old) (press D.told book.new sheet.new steps.new) result }
    ensures sheet { IsSameSheet sheet.old sheet.new }
    ensures same { t.new ≡ t.old }
{
    match piece {
        Piece::Copied(token) => put_copied(t.text, &token, sheet),
        Piece::InnerText(part) => put_inner(t, part, book, sheet, steps),
        Piece::Cited(part) => put_cited(t, part, book, sheet, steps),
    }
}

// Puts the TeX part that stands at a span, and ends its last line where that holds bytes.
fn put_pieces<D: Desk, L: Ledger>(
    t: &mut TexPart,
    part: Span,
    book: &mut Book,
    sheet: &mut Sheet<D>,
    steps: &mut Steps<L>,
) -> Result<Counts, PutError>
    requires can { CanPrint D.told sheet.old }
    requires short { length t.old.text ≤ 2 ^ 24 }
    requires whole { All (IsWholePiece t.old.text) (tex_pieces_of t.old.text part) }
    requires kept { AreNamesOf book.old.sec_names book.old.name_uses }
    ensures weaves { Weaves (tex_setting t.old (lasting book.old))
        (reprinted (laid (holds_bytes sheet.old.line.now))
        (pieces_done (tex_setting t.old (lasting book.old)) (tex_pieces_of t.old.text part) book.old.names))
        (press D.told book.old sheet.old steps.old) (press D.told book.new sheet.new steps.new) result }
    ensures same { IsSameSheet sheet.old sheet.new }
{
    let mut pieces = Pieces::over(t.text, part);
    let mut counts = Counts::none();
    'all: loop {
        let next = pieces.next()?;
        match next {
            Some(piece) => {
                let more = put_piece(t, piece, book, sheet, steps)?;
                counts = counts.plus(more)?;
            }
            None => {
                let holds = holds_bytes(sheet.line);
                end_line_if(holds, sheet)?;
                return Ok(counts);
            }
        }
    }
}

/// Prints the head of a section, and directly behind it its TeX part, where no code stands beside its number. The marks
/// of the C texts in it go to the book's occurrences, and the book's names get the categories behind them.
pub fn print_tex<D: Desk, L: Ledger>(
    p: SectionAtHand,
    section: Section,
    book: &mut Book,
    sheet: &mut Sheet<D>,
    steps: &mut Steps<L>,
) -> Result<Counts, PutError>
    requires can { CanPrint D.told sheet.old }
    requires short { length p.text.now ≤ 2 ^ 24 }
    requires whole { All (IsWholePiece p.text.now) (tex_pieces_of p.text.now section.tex) }
    requires kept { AreNamesOf book.old.sec_names book.old.name_uses }
    ensures weaves { Weaves (part_setting p.entry (lasting book.old))
        (tex_by p.entry.beside (part_setting p.entry (lasting book.old)) section book.old.names)
        (press D.told book.old sheet.old steps.old) (press D.told book.new sheet.new steps.new) result }
    ensures same { IsSameSheet sheet.old sheet.new }
{
    let head = Head {
        alloc: p.alloc,
        text: p.text,
        section: &section,
        number: p.section,
        ranged: p.flags.ranged,
    };
    put_head(head, sheet)?;
    if p.beside.is_nothing() {
        let mut t = TexPart {
            text: p.text,
            section: p.section,
            flags: p.flags,
            alloc: p.alloc,
            rooms: Rooms::new_in(p.alloc),
        };
        return put_pieces(&mut t, section.tex, book, sheet, steps);
    }
    Ok(Counts::none())
}
