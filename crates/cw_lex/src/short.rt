//! The quick tokens of C text, of which most of it consists.
ghost use Rattle.std.specs.Prelude.{◌≡◌, ◌<◌, ◌≤◌, true, false, not, ◌&&◌, length, slice_index, IfSome};
ghost use Rattle.cw_rules.specs.Answers.{Gives};
ghost use Rattle.cw_rules.specs.Bytes.{begins, begins_by, is_in, is_letter};
ghost use Rattle.cw_rules.specs.Tokens.{ends_at_bar};
ghost use Rattle.cw_lex.specs.model.Coming.{where_of, coming, IsReady};
ghost use Rattle.cw_lex.specs.model.Calm.{is_calm, IsCalm};
ghost use Rattle.cw_lex.specs.model.Short.{IsShort, IsQuick, is_alone, is_lone};

use crate::giving::token;
use crate::state::State;
use crate::{Lexed, TokKind};
use cw_rules::classes::{Class, begins, from, is_digit, is_mark, is_word, run};
use cw_rules::constants::constant;
use cw_rules::prefixes::prefix_size;
use cw_rules::signs::sign_at;

/// An identifier, a constant or a sign that lets the C text go on as it does.
#[derive(Clone, Copy)]
pub(crate) struct Short {
    pub kind: TokKind,
    pub size: usize,
}

/// What a look at the scanner's place says of the token that begins there.
#[derive(Clone, Copy)]
pub(crate) enum Quick {
    Short(Short),
    /// A string with this quote.
    Quoted(u8),
    /// The bar that ends inner C text.
    EndOfInner,
    /// The end of the text, where nothing is open.
    End,
}

/// The quick token that begins here. None is said of tokens for which more has to be looked at.
#[inline(always)]
pub(crate) fn quick_at(text: &[u8], state: &State) -> Option<Quick>
    requires calm { is_calm state.now.part state.now.comments ≡ true }
    requires within { state.now.at ≤ length text.now }
    ensures { IfSome result (IsQuick text.now (where_of state.now) state.now.at) }
{
    if state.at >= text.len() {
        return end(text, state);
    }
    let byte = text[state.at];
    if is_word(byte) {
        return word(text, state);
    }
    match sign(text, state) {
        Some(short) => Some(Quick::Short(short)),
        None => seldom(text, state),
    }
}

// The end of the text, where it ends no inner C text.
#[inline(always)]
fn end(text: &[u8], state: &State) -> Option<Quick>
    requires calm { is_calm state.now.part state.now.comments ≡ true }
    requires end { state.now.at ≡ length text.now }
    ensures { IfSome result (IsQuick text.now (where_of state.now) state.now.at) }
{
    if state.ends_at_bar() {
        return None;
    }
    Some(Quick::End)
}

// An identifier or a constant.
#[inline(always)]
fn word(text: &[u8], state: &State) -> Option<Quick>
    requires calm { is_calm state.now.part state.now.comments ≡ true }
    requires place { state.now.at < length text.now }
    requires word { is_in Class.Word (slice_index text.now state.now.at) ≡ true }
    ensures { IfSome result (IsQuick text.now (where_of state.now) state.now.at) }
{
    if is_digit(text[state.at]) {
        return number(text, state).map(Quick::Short);
    }
    identifier(text, state).map(Quick::Short)
}

#[inline(always)]
fn identifier(text: &[u8], state: &State) -> Option<Short>
    requires calm { is_calm state.now.part state.now.comments ≡ true }
    requires place { state.now.at < length text.now }
    requires letter { is_letter (slice_index text.now state.now.at) ≡ true }
    ensures { IfSome result (IsShort text.now (where_of state.now) state.now.at) }
{
    let bytes = from(text, state.at);
    if 0 < prefix_size(bytes) {
        return None;
    }
    Some(Short {
        kind: TokKind::Identifier,
        size: run(Class::Word, bytes),
    })
}

#[inline(always)]
fn number(text: &[u8], state: &State) -> Option<Short>
    requires calm { is_calm state.now.part state.now.comments ≡ true }
    requires place { state.now.at < length text.now }
    requires letter { is_letter (slice_index text.now state.now.at) ≡ false }
    requires digit { is_in Class.Digit (slice_index text.now state.now.at) ≡ true }
    ensures { IfSome result (IsShort text.now (where_of state.now) state.now.at) }
{
    let size = constant(from(text, state.at));
    if size == 0 {
        return None;
    }
    Some(Short {
        kind: TokKind::Constant,
        size,
    })
}

#[inline(always)]
fn sign(text: &[u8], state: &State) -> Option<Short>
    requires calm { is_calm state.now.part state.now.comments ≡ true }
    requires place { state.now.at < length text.now }
    requires letter { is_letter (slice_index text.now state.now.at) ≡ false }
    requires digit { is_in Class.Digit (slice_index text.now state.now.at) ≡ false }
    ensures { IfSome result (IsShort text.now (where_of state.now) state.now.at) }
{
    let byte = text[state.at];
    let rest = from(text, state.at + 1);
    if !is_alone(byte, rest) {
        return None;
    }
    match sign_at(byte, rest) {
        Some(sign) => Some(Short {
            kind: TokKind::Sign(sign),
            size: sign.size(),
        }),
        None => None,
    }
}

// What begins here by a byte that seldom does.
#[inline(always)]
fn seldom(text: &[u8], state: &State) -> Option<Quick>
    requires calm { is_calm state.now.part state.now.comments ≡ true }
    requires place { state.now.at < length text.now }
    requires letter { is_letter (slice_index text.now state.now.at) ≡ false }
    requires digit { is_in Class.Digit (slice_index text.now state.now.at) ≡ false }
    ensures { IfSome result (IsQuick text.now (where_of state.now) state.now.at) }
{
    let byte = text[state.at];
    if is_mark(byte) {
        return Some(Quick::Quoted(byte));
    }
    if byte == b'|' {
        return bar(text, state);
    }
    None
}

// What a bar begins: the end of inner C text, or a sign.
#[inline(always)]
fn bar(text: &[u8], state: &State) -> Option<Quick>
    requires calm { is_calm state.now.part state.now.comments ≡ true }
    requires place { state.now.at < length text.now }
    requires bar { slice_index text.now state.now.at ≡ 124 }
    ensures { IfSome result (IsQuick text.now (where_of state.now) state.now.at) }
{
    let rest = from(text, state.at + 1);
    if ends_inner(state, rest) {
        return Some(Quick::EndOfInner);
    }
    match sign_at(b'|', rest) {
        Some(sign) => Some(Quick::Short(Short {
            kind: TokKind::Sign(sign),
            size: sign.size(),
        })),
        None => None,
    }
}

// Whether a bar before these bytes ends inner C text.
#[inline(always)]
fn ends_inner(state: &State, rest: &[u8]) -> bool
    ensures { result ≡ (ends_at_bar state.now.part state.now.comments && not (begins 124 rest.now)) }
{
    state.ends_at_bar() && !begins(b'|', rest)
}

// Whether the byte begins no token but signs, where it begins a sign and no include name is wanted.
#[inline(always)]
fn is_lone(byte: u8) -> bool
    ensures { result ≡ is_lone byte }
{
    !matches!(byte, b'/' | b'.' | b'|' | b'#')
}

// The same of a byte with those behind it. A dot begins a constant before a digit.
#[inline(always)]
fn is_alone(byte: u8, rest: &[u8]) -> bool
    ensures { result ≡ is_alone byte rest.now }
{
    is_lone(byte) || (byte == b'.' && !begins_digit(rest))
}

#[inline(always)]
fn begins_digit(bytes: &[u8]) -> bool
    ensures { result ≡ begins_by (is_in Class.Digit) bytes.now }
{
    match bytes {
        [] => false,
        [byte, ..] => is_digit(*byte),
    }
}

/// Answers a short token at the scanner's place.
#[inline(always)]
pub(crate) fn give_short<'a>(text: &'a [u8], state: &mut State, short: Short) -> Lexed<'a>
    requires ready { IsReady text.now state.old }
    requires calm { IsCalm state.old }
    requires short { IsShort text.now (where_of state.old) state.old.at short }
    ensures gives { Gives (coming text.now state.old) result (coming text.now state.new) }
    ensures ready { IsReady text.now state.new }
    ensures calm { IsCalm state.new }
{
    let token = token(text, state.at, short.size, short.kind, false);
    state.at += short.size;
    Lexed::Token(token)
}
