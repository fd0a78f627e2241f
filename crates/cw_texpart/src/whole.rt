//! Whether the C texts of a TeX part are whole: no section code cuts them.
ghost use Rattle.std.specs.Prelude.{◌≡◌, true, All, IfOk};
ghost use Rattle.cw_texts.specs.PieceForms.{piece_is};
ghost use Rattle.cw_texts.specs.WholeTexts.{IsWhole, IsWholePiece};
ghost use Rattle.cw_texts.specs.TexPieces.{tex_pieces_of};

use cw_base::{Memory, Span};
use cw_lex::Mode;
use cw_reduce::is_uncut;
use cw_texts::{Piece, Pieces};

/// Whether each C text of the TeX part at a span is whole. It scans them; who knows it from elsewhere needs no look.
pub fn is_whole(text: &[u8], part: Span) -> Result<bool, Memory>
    ensures whole { IfOk result (λ whole. whole ≡ true → All (IsWholePiece text.now) (tex_pieces_of text.now part)) }
    ensures only { IfOk result (λ whole. All (IsWholePiece text.now) (tex_pieces_of text.now part) → whole ≡ true) }
{
    let mut pieces = Pieces::over(text, part);
    'all: loop {
        let next = pieces.next()?;
        match next {
            Some(piece) => {
                if !is_whole_piece(text, piece) {
                    return Ok(false);
                }
            }
            None => return Ok(true),
        }
    }
}

fn is_whole_piece(text: &[u8], piece: Piece) -> bool
    ensures whole { result ≡ true → IsWholePiece text.now (piece_is piece.entry) }
    ensures only { IsWholePiece text.now (piece_is piece.entry) → result ≡ true }
{
    match piece {
        Piece::Copied(_) => true,
        Piece::InnerText(part) => is_whole_text(text, part),
        Piece::Cited(part) => is_whole_text(text, part),
    }
}

fn is_whole_text(text: &[u8], part: Span) -> bool
    ensures whole { result ≡ true → IsWhole text.now part }
    ensures only { IsWhole text.now part → result ≡ true }
{
    if part.start > part.end || part.end > text.len() {
        return false;
    }
    is_uncut(text, part, Mode::Inner)
}
