//! The scanner over a part of a web's text.
ghost use Rattle.std.specs.Prelude.{◌≡◌};
ghost use Rattle.cw_texts.specs.Scans.{scanned};

use cw_base::Span;
use cw_lex::{Lexer, Mode};

/// A scanner of a span of a text, as far as it is there.
pub fn scan(text: &[u8], span: Span, mode: Mode) -> Lexer
    ensures { result ≡ scanned mode text.now span }
{
    let end = span.end.min(text.len());
    let start = span.start.min(end);
    Lexer::over(text, start, end, mode)
}
