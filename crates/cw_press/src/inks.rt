//! What a token of limbo or of TeX text prints, as bytes.
ghost use Rattle.std.specs.Prelude.{◌≡◌, ◌==◌, length};
ghost use Rattle.cw_rules.specs.Answers.{seen};
ghost use Rattle.cw_lex.specs.Nest.{is_text_kind};
ghost use Rattle.cw_press.specs.Inks.{kind_inks, prints, token_inks};

use crate::spans::part_of;
use cw_lex::{Code, Tok, TokKind};

/// Whether a token prints nothing.
pub(crate) fn prints_nothing(text: &[u8], token: &Tok) -> bool
    ensures { result ≡ (length (token_inks text.now token.now.kind (seen token.now)) == 0) }
{
    if is_text(token.kind) {
        return part_of(text, token.span).is_empty();
    }
    kind_bytes(token.kind).is_empty()
}

/// Whether a token is a piece of text.
pub fn is_text(kind: TokKind) -> bool
    ensures { result ≡ is_text_kind kind }
{
    matches!(kind, TokKind::Text)
}

/// The bytes of a token that is no piece of text.
pub fn kind_bytes(kind: TokKind) -> &'static [u8]
    ensures { prints result.now ≡ kind_inks kind }
{
    match kind {
        TokKind::Code(Code::At) => b"@",
        TokKind::Code(Code::Letters) => b"\\ATL",
        _ => b"",
    }
}
