//! The macros of signs.
ghost use Rattle.std.specs.Prelude.{◌≡◌, ◌∷◌, ◌++◌, [], OnOk};
ghost use Rattle.cw_print.specs.model.Signs.{HasForm};
ghost use Rattle.cw_print.specs.Tokens.{sign_macro};

use crate::escaping::put_few;
use cw_base::{Bytes, Memory};
use cw_lex::Sign;

/// What a sign prints: a macro, or itself.
#[inline(always)]
pub(crate) fn sign_macro(sign: Sign) -> &'static [u8]
    ensures { result.now ≡ sign_macro sign }
{
    match sign {
        Sign::Slash => b"/",
        Sign::Dot => b".",
        Sign::Less => b"<",
        Sign::Greater => b">",
        Sign::Bar => b"\\OR",
        Sign::Assign => b"\\K",
        Sign::Caret => b"\\XOR",
        Sign::Percent => b"\\MOD",
        Sign::Arrow => b"\\MG",
        Sign::ShiftLeft => b"\\LL",
        Sign::ShiftRight => b"\\GG",
        Sign::Equal => b"\\E",
        Sign::NotEqual => b"\\I",
        Sign::AtMost => b"\\Z",
        Sign::AtLeast => b"\\G",
        Sign::AndAnd => b"\\W",
        Sign::OrOr => b"\\V",
        Sign::Not => b"\\R",
        Sign::Tilde => b"\\CM",
        Sign::PlusPlus => b"\\PP",
        Sign::MinusMinus => b"\\MM",
        Sign::Plus => b"+",
        Sign::Minus => b"-",
        Sign::Hash => b"\\#",
        Sign::Star => b"*",
        Sign::Ampersand => b"\\AND",
        Sign::Question => b"\\?",
        Sign::LeftParen => b"(",
        Sign::LeftBracket => b"[",
        Sign::RightParen => b")",
        Sign::RightBracket => b"]",
        Sign::LeftBrace => b"\\{",
        Sign::RightBrace => b"\\}",
        Sign::Comma => b",",
        Sign::Semicolon => b";",
        Sign::Colon => b":",
        Sign::Ellipsis => b"\\,\\ldots\\,",
        Sign::DoubleColon => b"\\DC",
        Sign::QuestionColon => b"\\?:",
        Sign::DoubleBracket => b"[[",
    }
}

// What a sign prints, by its length: itself, a backslash and a letter, or more.
#[derive(Clone, Copy)]
enum Form {
    Itself(u8),
    Letter(u8),
    Longer,
}

#[inline(always)]
fn form_of(sign: Sign) -> Form
    ensures { HasForm sign result }
{
    match sign {
        Sign::Slash => Form::Itself(b'/'),
        Sign::Dot => Form::Itself(b'.'),
        Sign::Less => Form::Itself(b'<'),
        Sign::Greater => Form::Itself(b'>'),
        Sign::Assign => Form::Letter(b'K'),
        Sign::Equal => Form::Letter(b'E'),
        Sign::NotEqual => Form::Letter(b'I'),
        Sign::AtMost => Form::Letter(b'Z'),
        Sign::AtLeast => Form::Letter(b'G'),
        Sign::AndAnd => Form::Letter(b'W'),
        Sign::OrOr => Form::Letter(b'V'),
        Sign::Not => Form::Letter(b'R'),
        Sign::Plus => Form::Itself(b'+'),
        Sign::Minus => Form::Itself(b'-'),
        Sign::Hash => Form::Letter(b'#'),
        Sign::Star => Form::Itself(b'*'),
        Sign::Question => Form::Letter(b'?'),
        Sign::LeftParen => Form::Itself(b'('),
        Sign::LeftBracket => Form::Itself(b'['),
        Sign::RightParen => Form::Itself(b')'),
        Sign::RightBracket => Form::Itself(b']'),
        Sign::LeftBrace => Form::Letter(b'{'),
        Sign::RightBrace => Form::Letter(b'}'),
        Sign::Comma => Form::Itself(b','),
        Sign::Semicolon => Form::Itself(b';'),
        Sign::Colon => Form::Itself(b':'),
        _ => Form::Longer,
    }
}

/// Appends what a sign prints. No loop stands in it, so that the loop over the items keeps its values in registers.
#[inline(always)]
pub(crate) fn put_sign(out: &mut Bytes, sign: Sign) -> Result<(), Memory>
    ensures { OnOk result (out.new ≡ out.old ++ sign_macro sign) }
{
    match form_of(sign) {
        Form::Itself(byte) => out.push(byte),
        Form::Letter(letter) => put_two(out, b'\\', letter),
        Form::Longer => put_many(out, sign_macro(sign)),
    }
}

#[inline(always)]
fn put_two(out: &mut Bytes, first: u8, second: u8) -> Result<(), Memory>
    ensures { OnOk result (out.new ≡ out.old ++ (first ∷ second ∷ [])) }
{
    out.push(first)?;
    out.push(second)
}

// Appends bytes one by one. It stands apart, since few signs print as many.
#[inline(never)]
fn put_many(out: &mut Bytes, bytes: &[u8]) -> Result<(), Memory>
    ensures { OnOk result (out.new ≡ out.old ++ bytes.now) }
{
    put_few(out, bytes)
}
