//! Whether a text can be translated: its mode is one in which no definition begins, and no section code ends it.
ghost use Rattle.std.specs.Prelude.{◌≡◌, ◌≤◌, length, true, false};
ghost use Rattle.cw_lex.specs.Lexing.{tokens_of};
ghost use Rattle.cw_lex.specs.Nested.{begins_section_in, is_plain_c_mode, is_section_kind};
ghost use Rattle.cw_reduce.specs.Naming.{ends_text};

use cw_base::Span;
use cw_lex::{Code, Lexed, Lexer, Mode, TokKind};

/// Whether no token of a text is a section code. It scans the text; who knows it from elsewhere needs no look.
pub fn is_uncut(text: &[u8], span: Span, mode: Mode) -> bool
    requires order { span.start ≤ span.end }
    requires within { span.end ≤ length text.now }
    ensures uncut { result ≡ true → begins_section_in (tokens_of text.now span.start span.end mode) ≡ false }
    ensures cut { result ≡ false → begins_section_in (tokens_of text.now span.start span.end mode) ≡ true }
{
    let mut lexer = Lexer::over(text, span.start, span.end, mode);
    loop {
        match lexer.next() {
            Lexed::End => return true,
            Lexed::Token(token) => {
                if is_section(token.kind) {
                    return false;
                }
            }
            Lexed::Begin(_) | Lexed::Finish(_) | Lexed::Note(..) => {}
        }
    }
}

/// Whether a mode is one of C text in which no definition begins.
pub fn is_plain_c(mode: Mode) -> bool
    ensures { result ≡ is_plain_c_mode mode }
{
    matches!(mode, Mode::CPart | Mode::Inner)
}

fn is_section(kind: TokKind) -> bool
    ensures { result ≡ is_section_kind kind }
{
    matches!(kind, TokKind::Code(Code::Section | Code::StarredSection))
}

/// Whether an answer ends a C text: none is left, or it is a section code.
pub(crate) fn ends_text(answer: &Lexed) -> bool
    ensures { result ≡ ends_text answer.now }
{
    match answer {
        Lexed::End => true,
        Lexed::Token(token) => is_section(token.kind),
        Lexed::Begin(_) | Lexed::Finish(_) | Lexed::Note(..) => false,
    }
}
