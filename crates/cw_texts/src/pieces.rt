//! The pieces of a TeX part: tokens that are copied, inner C texts, and section names that are cited.
ghost use Rattle.std.specs.Prelude.{◌≡◌, ◌==◌, ◌-◌, ◌+◌, IfOk, OnOk};
ghost use Rattle.cw_rules.specs.Answers.{seen};
ghost use Rattle.cw_texts.specs.PieceForms.{GivesPiece, piece_is};
ghost use Rattle.cw_texts.specs.TexPieces.{outermost, tex_pieces_of, tex_pieces, token_piece};

use crate::scans::scan;
use cw_base::{Memory, Span};
use cw_lex::{Code, Lexed, Lexer, Mode, Tok, TokKind};
use std::marker::Model;

/// A piece of a TeX part.
#[derive(Clone, Copy)]
pub enum Piece<'a> {
    /// A token that is copied.
    Copied(Tok<'a>),
    /// Inner C text: the span between its bars.
    InnerText(Span),
    /// A section name.
    Cited(Span),
}

/// How many texts are open, and where the outermost begins.
#[derive(Clone, Copy)]
pub(crate) struct Open {
    depth: usize,
    start: usize,
}

/// The pieces of a TeX part. They are seen as the list of those that are still to come.
#[derive(Drop)]
pub struct Pieces<'a> {
    lexer: Lexer<'a>,
    texts: Open,
}

impl<'a> Model for Pieces<'a> {
    ghost use Rattle.std.specs.Prelude.{List};
    ghost use Rattle.cw_texts.specs.TexPieces.{TexPiece, tex_pieces};

    ghost Value = { List TexPiece };

    ghost view = { λ p. tex_pieces p.texts.depth p.texts.start p.lexer };
}

impl<'a> Pieces<'a> {
    /// The pieces of the TeX part that stands at a span of a text.
    pub fn over(text: &'a [u8], part: Span) -> Pieces<'a>
        ensures { result ≡ tex_pieces_of text.now part }
    {
        Pieces {
            lexer: scan(text, part, Mode::TexText),
            texts: Open { depth: 0, start: 0 },
        }
    }

    /// The next piece; `Memory` where no memory could hold so many open texts.
    #[inline(always)]
    pub fn next(&mut self) -> Result<Option<Piece<'a>>, Memory>
        ensures { IfOk result (λ piece. GivesPiece self.old piece self.new) }
    {
        next_piece(&mut self.lexer, &mut self.texts)
    }
}

// The next piece, by the answers of the scanner behind the texts that are open.
#[inline(always)]
fn next_piece<'a>(lexer: &mut Lexer<'a>, texts: &mut Open) -> Result<Option<Piece<'a>>, Memory>
    ensures { IfOk result (λ piece. GivesPiece (tex_pieces texts.old.depth texts.old.start lexer.old) piece
        (tex_pieces texts.new.depth texts.new.start lexer.new)) }
{
    'answers: loop {
        match lexer.next() {
            Lexed::Token(token) => {
                if texts.depth == 0 {
                    return Ok(Some(token_piece(token)));
                }
            }
            Lexed::Begin(token) => texts.begin(token.span.end)?,
            Lexed::Finish(token) => {
                if texts.finish() {
                    return Ok(Some(Piece::InnerText(Span {
                        start: texts.start,
                        end: token.span.start,
                    })));
                }
            }
            Lexed::Note(_kind, _place) => {}
            Lexed::End => return Ok(None),
        }
    }
}

impl Open {
    // A text begins, with its first byte at this place.
    fn begin(&mut self, place: usize) -> Result<(), Memory>
        ensures depth { OnOk result (self.new.depth ≡ self.old.depth + 1) }
        ensures start { OnOk result (self.new.start ≡ outermost self.old.depth self.old.start place) }
    {
        if self.depth == 0 {
            self.start = place;
        }
        self.depth = self.depth.checked_add(1).ok_or(Memory)?;
        Ok(())
    }

    // The innermost text ends. Tells whether it is the outermost.
    fn finish(&mut self) -> bool
        ensures outermost { result ≡ (self.old.depth == 1) }
        ensures depth { self.new.depth ≡ self.old.depth - 1 }
        ensures start { self.new.start ≡ self.old.start }
    {
        let ends = self.depth == 1;
        self.depth = self.depth.saturating_sub(1);
        ends
    }
}

// The piece that a token makes.
fn token_piece(token: Tok) -> Piece
    ensures { piece_is result ≡ token_piece token.entry.kind (seen token.entry) }
{
    match token.kind {
        TokKind::Code(Code::SectionName | Code::FileName) => Piece::Cited(token.span),
        _ => Piece::Copied(token),
    }
}
