//! The answers that the scanner gives, and where it stands behind them.
ghost use Rattle.std.specs.Prelude.{◌≡◌, ◌+◌, ◌≤◌, false, [], ◌∷◌, length, drop};
ghost use Rattle.cw_rules.specs.Answers.{Gives, Note, before, seen, token_of};
ghost use Rattle.cw_rules.specs.Tokens.{one, moved, inner_begin};
ghost use Rattle.cw_lex.specs.model.Short.{BeginsString};
ghost use Rattle.cw_rules.specs.Pending.{no_notes};
ghost use Rattle.cw_lex.specs.model.Coming.{where_of, coming, found_at, AreOpenInCode, IsReady, CanStep};
ghost use Rattle.cw_rules.specs.model.Cuttings.{bytes_at, cut_of, IsCut};

use crate::state::State;
use crate::{Directive, Lexed, Tok, TokKind};
use cw_base::{NoteKind, Span};
use cw_rules::classes::from;
use cw_rules::cuttings::{Cutting, string};
use cw_rules::parts::Part;
use cw_rules::prefixes::prefix_size;

/// The token of this size at a place, which is no word of a directive.
pub(crate) fn token<'a>(
    text: &'a [u8],
    at: usize,
    size: usize,
    kind: TokKind,
    hash_line: bool,
) -> Tok<'a>
    requires { at + size ≤ length text.now }
    ensures { seen result ≡ token_of hash_line kind at size (drop at text.now) }
{
    Tok {
        kind,
        text: &text[at..at + size],
        span: Span {
            start: at,
            end: at + size,
        },
        hash_line,
        directive: Directive::No,
    }
}

/// Answers a token that is cut at the scanner's place, behind which the text goes on in `part`.
pub(crate) fn give<'a>(
    text: &'a [u8],
    state: &mut State,
    part: Part,
    hash_line: bool,
    cut: Cutting,
) -> Lexed<'a>
    requires step { CanStep text.now state.old }
    requires cut { IsCut text.now state.old.at cut }
    requires nested { AreOpenInCode part state.old.comments }
    requires found { found_at text.now (where_of state.old) state.old.at ≡
        one hash_line (moved (where_of state.old) part) state.old.at (bytes_at text.now state.old.at)
        (cut_of text.now cut) }
    ensures gives { Gives (coming text.now state.old) result (coming text.now state.new) }
    ensures ready { IsReady text.now state.new }
{
    let token = token(text, state.at, cut.size, cut.kind, hash_line);
    state.at += cut.size;
    state.part = part;
    state.pending = cut.pending;
    Lexed::Token(token)
}

/// Answers the string that begins at the scanner's place in C text.
#[inline(never)]
pub(crate) fn give_string<'a>(text: &'a [u8], state: &mut State, quote: u8) -> Lexed<'a>
    requires ready { IsReady text.now state.old }
    requires quiet { state.old.pending ≡ no_notes }
    requires string { BeginsString text.now (where_of state.old) state.old.at quote }
    ensures gives { Gives (coming text.now state.old) result (coming text.now state.new) }
    ensures ready { IsReady text.now state.new }
{
    let opening = prefix_size(from(text, state.at)) + 1;
    let cut = string(text, state.at, TokKind::Quoted, opening, quote);
    let token = token(
        text,
        state.at,
        cut.size,
        cut.kind,
        state.part.in_hash_line(),
    );
    state.at += cut.size;
    state.part.pass();
    state.pending = cut.pending;
    Lexed::Token(token)
}

/// Answers the note on an improper head, behind which the text goes on in `part` at the same place.
pub(crate) fn give_note<'a>(
    text: &'a [u8],
    state: &mut State,
    part: Part,
    kind: NoteKind,
    code: usize,
) -> Lexed<'a>
    requires step { CanStep text.now state.old }
    requires comments { state.old.comments ≡ [] }
    requires found { found_at text.now (where_of state.old) state.old.at ≡
        before (Note kind code ∷ []) (found_at text.now (moved (where_of state.old) part) state.old.at) }
    ensures gives { Gives (coming text.now state.old) result (coming text.now state.new) }
    ensures ready { IsReady text.now state.new }
{
    state.part = part;
    Lexed::Note(kind, code)
}

/// Answers that inner C text of TeX text begins.
pub(crate) fn begin_tex_inner<'a>(text: &'a [u8], state: &mut State) -> Lexed<'a>
    requires step { CanStep text.now state.old }
    requires comments { state.old.comments ≡ [] }
    requires found { found_at text.now (where_of state.old) state.old.at ≡
        inner_begin false (moved (where_of state.old) Part.TexInner) state.old.at (bytes_at text.now state.old.at) }
    ensures gives { Gives (coming text.now state.old) result (coming text.now state.new) }
    ensures ready { IsReady text.now state.new }
{
    let token = token(text, state.at, 1, TokKind::InnerText, false);
    state.at += 1;
    state.part = Part::TexInner;
    Lexed::Begin(token)
}
