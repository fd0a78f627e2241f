//! What kind of token a byte stands for in lines of scraps.
ghost use Rattle.cw_scraps.specs.Leaves.{MakesLeaf};

use cw_lex::{Sign, TokKind};

/// A byte stands for a token: a sign for itself, and a letter for an identifier.
pub(crate) fn kind_of(byte: u8) -> TokKind
    ensures { MakesLeaf result }
{
    match byte {
        b'(' => TokKind::Sign(Sign::LeftParen),
        b')' => TokKind::Sign(Sign::RightParen),
        b'{' => TokKind::Sign(Sign::LeftBrace),
        b'}' => TokKind::Sign(Sign::RightBrace),
        b';' => TokKind::Sign(Sign::Semicolon),
        b',' => TokKind::Sign(Sign::Comma),
        b'=' => TokKind::Sign(Sign::Assign),
        b'+' => TokKind::Sign(Sign::Plus),
        b'*' => TokKind::Sign(Sign::Star),
        _ => TokKind::Identifier,
    }
}
