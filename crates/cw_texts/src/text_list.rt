//! All C texts of a book's sections, in the order in which they are woven.
ghost use Rattle.std.specs.Prelude.{◌≡◌, ◌++◌, ◌<◌, [], ◌∷◌, OnOk, Some, length, slice_get};
ghost use Rattle.cw_base.specs.Conditions.{list_if};
ghost use Rattle.cw_rules.specs.declared.tokens.Mode.TheVariants.{Inner};
ghost use Rattle.cw_texts.specs.Definitions.{printed_definitions};
ghost use Rattle.cw_texts.specs.PieceForms.{piece_is};
ghost use Rattle.cw_texts.specs.Printed.{is_printed};
ghost use Rattle.cw_texts.specs.TexPieces.{tex_pieces_of};
ghost use Rattle.cw_texts.specs.Texts.{definition_refs, piece_refs, section_refs, tex_refs, text_ref};

use crate::definitions::Definitions;
use crate::pieces::{Piece, Pieces};
use crate::printed::{is_kept, is_printed};
use cw_base::{Memory, Span};
use cw_lex::Mode;
use cw_phase1::Section;
use cw_secnames::NameUses;
use std::alloc::Global;
use std::marker::Model;

/// A C text of a web.
#[derive(Clone, Copy, PartialEq, Eq, Debug)]
pub struct TextRef {
    /// The number of its section.
    pub section: u32,
    /// Where it stands in the web's text. An inner text stands there without its bars.
    pub span: Span,
    /// How it is scanned.
    pub mode: Mode,
}

/// C texts in a row.
#[derive(Drop)]
pub struct TextList {
    refs: Vec<TextRef>,
}

impl Model for TextList {
    ghost use Rattle.std.specs.Prelude.{List};
    ghost use Rattle.cw_texts.specs.declared.text_list.TextRef.{TextRef};

    ghost Value = { List TextRef };

    ghost view = { λ l. l.refs.items };
}

impl TextList {
    pub(crate) fn new_in(alloc: Global) -> TextList
        ensures { result ≡ [] }
    {
        TextList {
            refs: Vec::new(alloc),
        }
    }

    /// How many there are.
    pub fn len(&self) -> usize
        ensures { result ≡ length self.now }
    {
        self.refs.len()
    }

    /// The text at a position, counted from 0.
    pub fn text_ref(&self, i: usize) -> TextRef
        requires { i < length self.now }
        ensures { slice_get self.now i ≡ Some result }
    {
        self.refs[i]
    }

    /// Takes all out, and keeps the capacity.
    pub(crate) fn clear(&mut self)
        ensures { self.new ≡ [] }
    {
        self.refs.clear();
    }

    fn push(&mut self, text: TextRef) -> Result<(), Memory>
        ensures { OnOk result (self.new ≡ self.old ++ text ∷ []) }
    {
        self.refs.push(text)?;
        Ok(())
    }

    // Adds a text where a condition holds.
    fn push_if(&mut self, holds: bool, text: TextRef) -> Result<(), Memory>
        ensures { OnOk result (self.new ≡ self.old ++ list_if holds (text ∷ [])) }
    {
        if holds {
            return self.push(text);
        }
        Ok(())
    }
}

/// Adds the texts of the section of a number.
pub(crate) fn add_section(
    text: &[u8],
    uses: &NameUses,
    number: u32,
    section: Section,
    list: &mut TextList,
) -> Result<(), Memory>
    ensures { OnOk result (list.new
        ≡ list.old ++ section_refs (is_printed text.now uses.now section) text.now uses.now number section) }
{
    add_tex_texts(text, uses, number, section.tex, list)?;
    add_definitions(text, number, section.definitions, list)?;
    let printed = is_printed(text, uses, &section)?;
    let part = TextRef {
        section: number,
        span: section.c_part,
        mode: Mode::CPart,
    };
    list.push_if(printed, part)?;
    Ok(())
}

// Adds the texts of a TeX part.
fn add_tex_texts(
    text: &[u8],
    uses: &NameUses,
    number: u32,
    part: Span,
    list: &mut TextList,
) -> Result<(), Memory>
    ensures { OnOk result (list.new ≡ list.old ++ tex_refs uses.now number (tex_pieces_of text.now part)) }
{
    let mut pieces = Pieces::over(text, part);
    'all: loop {
        let next = pieces.next()?;
        match next {
            Some(piece) => add_piece(uses, number, piece, list)?,
            None => return Ok(()),
        }
    }
}

// Adds the text that a piece of a TeX part is, if it is one.
fn add_piece(uses: &NameUses, number: u32, piece: Piece, list: &mut TextList) -> Result<(), Memory>
    ensures { OnOk result (list.new ≡ list.old ++ piece_refs uses.now number (piece_is piece.entry)) }
{
    match piece {
        Piece::Copied(_token) => Ok(()),
        Piece::InnerText(span) => list.push(inner_text(number, span)),
        Piece::Cited(span) => {
            let kept = is_kept(uses, span.start)?;
            list.push_if(kept, inner_text(number, span))
        }
    }
}

fn inner_text(number: u32, span: Span) -> TextRef
    ensures { result ≡ text_ref number Inner span }
{
    TextRef {
        section: number,
        span,
        mode: Mode::Inner,
    }
}

// Adds the definitions that stand at a span, but for the silent ones.
fn add_definitions(text: &[u8], number: u32, part: Span, list: &mut TextList) -> Result<(), Memory>
    ensures { OnOk result (list.new ≡ list.old ++ definition_refs number (printed_definitions text.now part)) }
{
    let mut definitions = Definitions::over(text, part);
    'printed: loop {
        match definitions.next_printed() {
            Some(span) => list.push(TextRef {
                section: number,
                span,
                mode: Mode::Definition,
            })?,
            None => return Ok(()),
        }
    }
}
