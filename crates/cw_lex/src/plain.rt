//! Limbo, TeX text, and the heads of definitions and C parts.
ghost use Rattle.std.specs.Prelude.{◌≡◌, ◌+◌, ◌<◌, ◌≤◌, ◌&&◌, [], false, true, length, drop, slice_index};
ghost use Rattle.cw_rules.specs.Answers.{Gives};
ghost use Rattle.cw_rules.specs.Tokens.{limbo_text, tex_text, head_text, macro_name, format_name, parameter};
ghost use Rattle.cw_rules.specs.Tokens.{parameter_follows, is_name, is_head};
ghost use Rattle.cw_rules.specs.Codes.{code_at};
ghost use Rattle.cw_rules.specs.Bytes.{is_in, is_letter, run};
ghost use Rattle.cw_lex.specs.model.Coming.{where_of, coming, found_at, IsReady, CanStep};
ghost use Rattle.cw_rules.specs.model.Cuttings.{bytes_at};

use crate::giving::{begin_tex_inner, give};
use crate::state::State;
use crate::{Code, Lexed, Sign, TokKind};
use cw_rules::classes::{Class, begins, from, is_letter, run};
use cw_rules::codes::Effect;
use cw_rules::cuttings::{alone, code_token, dropped, dropped_code, is_head, plain};
use cw_rules::parts::{Behind, Part};
use memchr::memchr2;

/// Limbo.
pub(crate) fn limbo_text<'a>(text: &'a [u8], state: &mut State) -> Lexed<'a>
    requires step { CanStep text.now state.old }
    requires comments { state.old.comments ≡ [] }
    requires found { found_at text.now (where_of state.old) state.old.at ≡ limbo_text (where_of state.old) state.old.at
        (slice_index text.now state.old.at) (drop (state.old.at + 1) text.now) }
    ensures gives { Gives (coming text.now state.old) result (coming text.now state.new) }
    ensures ready { IsReady text.now state.new }
{
    let at = state.at;
    let part = state.part;
    if text[at] != b'@' {
        let size = run(Class::LimboText, from(text, at));
        return give(text, state, part, false, plain(TokKind::Text, size));
    }
    let code = Code::at(from(text, at + 1));
    match code.effect_in_limbo() {
        Effect::Stands => give(text, state, part, false, code_token(text, at, code)),
        Effect::Formats => {
            let names = Part::FormatName {
                code: at,
                second: false,
                limbo: true,
            };
            give(text, state, names, false, plain(TokKind::Code(code), 2))
        }
        Effect::Drops(note) => {
            let cut = dropped(alone(text, at, code), note, at);
            give(text, state, part, false, cut)
        }
        Effect::Defines | Effect::BeginsC => unreachable!(),
    }
}

/// TeX text.
pub(crate) fn tex_text<'a>(text: &'a [u8], state: &mut State) -> Lexed<'a>
    requires step { CanStep text.now state.old }
    requires comments { state.old.comments ≡ [] }
    requires found { found_at text.now (where_of state.old) state.old.at ≡ tex_text (where_of state.old) state.old.at
        (slice_index text.now state.old.at) (drop (state.old.at + 1) text.now) }
    ensures gives { Gives (coming text.now state.old) result (coming text.now state.new) }
    ensures ready { IsReady text.now state.new }
{
    let at = state.at;
    let part = state.part;
    if text[at] == b'|' {
        return begin_tex_inner(text, state);
    }
    if text[at] != b'@' {
        let size = tex_size(from(text, at));
        return give(text, state, part, false, plain(TokKind::Text, size));
    }
    let code = Code::at(from(text, at + 1));
    match code.effect_in_tex() {
        Effect::Stands => {
            let next = if begins_c(text, at, code) {
                Part::Head
            } else {
                part
            };
            give(text, state, next, false, code_token(text, at, code))
        }
        Effect::Drops(note) => give(text, state, part, false, dropped_code(text, at, code, note)),
        Effect::Defines => {
            let next = Part::MacroName { code: at };
            give(text, state, next, false, plain(TokKind::Code(code), 2))
        }
        Effect::Formats => {
            let next = Part::FormatName {
                code: at,
                second: false,
                limbo: false,
            };
            give(text, state, next, false, plain(TokKind::Code(code), 2))
        }
        Effect::BeginsC => {
            let next = Part::Plain {
                hash_line: false,
                behind: Behind::Other,
            };
            give(text, state, next, false, plain(TokKind::Code(code), 2))
        }
    }
}

// How many bytes stand before the first `@` or bar.
fn tex_size(bytes: &[u8]) -> usize
    ensures value { result ≡ run Class.TexText bytes.now }
    ensures within { result ≤ length bytes.now }
{
    match memchr2(b'@', b'|', bytes) {
        Some(size) => size,
        None => bytes.len(),
    }
}

/// Whether the code here is a name that begins a C part.
pub(crate) fn begins_c(text: &[u8], at: usize, code: Code) -> bool
    requires place { at < length text.now }
    requires code { code ≡ code_at (drop (at + 1) text.now) }
    ensures { result ≡ (is_name code && is_head at (bytes_at text.now at)) }
{
    code.is_name() && is_head(text, at)
}

/// The blanks and the sign behind the name that begins a C part.
pub(crate) fn head_text<'a>(text: &'a [u8], state: &mut State) -> Lexed<'a>
    requires step { CanStep text.now state.old }
    requires comments { state.old.comments ≡ [] }
    requires found { found_at text.now (where_of state.old) state.old.at ≡ head_text (where_of state.old) state.old.at
        (slice_index text.now state.old.at) (drop (state.old.at + 1) text.now) }
    requires sign { is_in Class.Blank (slice_index text.now state.old.at) ≡ false }
    ensures gives { Gives (coming text.now state.old) result (coming text.now state.new) }
    ensures ready { IsReady text.now state.new }
{
    let size = if begins(b'=', from(text, state.at + 1)) {
        2
    } else {
        1
    };
    let next = Part::Plain {
        hash_line: false,
        behind: Behind::Other,
    };
    give(text, state, next, false, plain(TokKind::HeadSign, size))
}

/// The name behind `@d`, where one stands.
pub(crate) fn macro_name<'a>(text: &'a [u8], state: &mut State, code: usize) -> Lexed<'a>
    requires step { CanStep text.now state.old }
    requires comments { state.old.comments ≡ [] }
    requires letter { is_letter (slice_index text.now state.old.at) ≡ true }
    requires found { found_at text.now (where_of state.old) state.old.at ≡
        macro_name code (where_of state.old) state.old.at (slice_index text.now state.old.at)
        (drop (state.old.at + 1) text.now) }
    ensures gives { Gives (coming text.now state.old) result (coming text.now state.new) }
    ensures ready { IsReady text.now state.new }
{
    let bytes = from(text, state.at);
    let size = run(Class::Word, bytes);
    let next = if begins(b'(', from(bytes, size)) {
        Part::MacroParen { code }
    } else {
        Part::Definition
    };
    give(text, state, next, false, plain(TokKind::Identifier, size))
}

/// A name behind `@f` or `@s`, where one stands.
pub(crate) fn format_name<'a>(
    text: &'a [u8],
    state: &mut State,
    code: usize,
    second: bool,
    limbo: bool,
) -> Lexed<'a>
    requires step { CanStep text.now state.old }
    requires comments { state.old.comments ≡ [] }
    requires letter { is_letter (slice_index text.now state.old.at) ≡ true }
    requires found { found_at text.now (where_of state.old) state.old.at ≡
        format_name code second limbo (where_of state.old) state.old.at (slice_index text.now state.old.at)
        (drop (state.old.at + 1) text.now) }
    ensures gives { Gives (coming text.now state.old) result (coming text.now state.new) }
    ensures ready { IsReady text.now state.new }
{
    let size = run(Class::Word, from(text, state.at));
    let next = if !second {
        Part::FormatName {
            code,
            second: true,
            limbo,
        }
    } else if limbo {
        Part::Limbo
    } else {
        Part::Definition
    };
    give(text, state, next, false, plain(TokKind::Identifier, size))
}

/// A parameter, comma or `...` of a macro, or the `)` behind them, where one stands.
pub(crate) fn parameter<'a>(text: &'a [u8], state: &mut State) -> Lexed<'a>
    requires step { CanStep text.now state.old }
    requires comments { state.old.comments ≡ [] }
    requires follows { parameter_follows (bytes_at text.now state.old.at) ≡ true }
    requires white { is_in Class.White (slice_index text.now state.old.at) ≡ false }
    requires found { found_at text.now (where_of state.old) state.old.at ≡ parameter (where_of state.old) state.old.at
        (slice_index text.now state.old.at) (drop (state.old.at + 1) text.now) }
    ensures gives { Gives (coming text.now state.old) result (coming text.now state.new) }
    ensures ready { IsReady text.now state.new }
{
    let at = state.at;
    let part = state.part;
    let byte = text[at];
    if is_letter(byte) {
        let size = run(Class::Word, from(text, at));
        return give(text, state, part, false, plain(TokKind::Identifier, size));
    }
    if byte == b',' {
        return give(
            text,
            state,
            part,
            false,
            plain(TokKind::Sign(Sign::Comma), 1),
        );
    }
    if byte == b')' {
        let cut = plain(TokKind::Sign(Sign::RightParen), 1);
        return give(text, state, Part::Definition, false, cut);
    }
    give(
        text,
        state,
        part,
        false,
        plain(TokKind::Sign(Sign::Ellipsis), 3),
    )
}
