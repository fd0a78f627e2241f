//! The bytes of strings, include names and control texts.
ghost use Rattle.std.specs.Prelude.{◌≡◌, ◌≤◌, ◌++◌, ◌∷◌, IfOk, OnOk, length};
ghost use Rattle.cw_print.specs.model.Dividing.{rest_bytes};
ghost use Rattle.cw_print.specs.Escaping.{escaped};
ghost use Rattle.cw_rules.specs.ControlTexts.{is_at_pair, is_text_end, text_to_end};
ghost use Rattle.cw_print.specs.Texts.{divided, is_continued, is_pair, string_bytes, include_bytes};

use crate::dividing::{Portion, is_special};
use crate::escaping::{put_escaped, put_escaped_byte};
use cw_base::{Bytes, Memory};

fn is_continued(byte: u8, next: u8) -> bool
    ensures { result ≡ is_continued byte next }
{
    byte == b'\\' && next == b'\n'
}

fn is_pair(byte: u8, next: u8, behind: &[u8]) -> bool
    ensures { result ≡ is_pair byte next behind.now }
{
    if byte != b'\\' {
        return false;
    }
    match behind {
        [] => true,
        [third, ..] => !(next == b'\\' && *third == b'\n'),
    }
}

pub(crate) fn is_at_pair(byte: u8, next: u8) -> bool
    ensures { result ≡ is_at_pair byte next }
{
    byte == b'@' && next == b'@'
}

fn is_text_end(byte: u8, next: u8) -> bool
    ensures { result ≡ is_text_end byte next }
{
    byte == b'@' && next == b'>'
}

// Appends what the next byte of a string prints, with the one that it takes along or prints for, and answers what
// stands behind them. It stands apart, since most bytes print themselves.
#[inline(never)]
fn put_special<'a>(
    out: &mut Bytes,
    portion: &mut Portion,
    byte: u8,
    others: &'a [u8],
) -> Result<&'a [u8], Memory>
    ensures printed { IfOk result (λ rest. out.new ++ rest_bytes portion.new (string_bytes rest.now)
        ≡ out.old ++ rest_bytes portion.old (string_bytes (byte ∷ others.now))) }
    ensures shorter { IfOk result (λ rest. length rest.now ≤ length others.now) }
{
    let [next, behind @ ..] = others else {
        portion.put(out, byte)?;
        return Ok(others);
    };
    if is_continued(byte, *next) {
        return Ok(behind);
    }
    portion.put(out, byte)?;
    if is_pair(byte, *next, behind) {
        portion.put(out, *next)?;
        return Ok(behind);
    }
    Ok(if is_at_pair(byte, *next) {
        behind
    } else {
        others
    })
}

// The same of any byte.
#[inline(always)]
fn put_next<'a>(
    out: &mut Bytes,
    portion: &mut Portion,
    byte: u8,
    others: &'a [u8],
) -> Result<&'a [u8], Memory>
    ensures printed { IfOk result (λ rest. out.new ++ rest_bytes portion.new (string_bytes rest.now)
        ≡ out.old ++ rest_bytes portion.old (string_bytes (byte ∷ others.now))) }
    ensures shorter { IfOk result (λ rest. length rest.now ≤ length others.now) }
{
    if portion.has_room() && !is_special(byte) {
        out.push(byte)?;
        portion.room -= 1;
        return Ok(others);
    }
    put_special(out, portion, byte, others)
}

// Appends what the rest of a string says, from where its portion has come to.
fn put_string_rest(out: &mut Bytes, first: Portion, text: &[u8]) -> Result<(), Memory>
    ensures { OnOk result (out.new ≡ out.old ++ rest_bytes first (string_bytes text.now)) }
{
    let mut portion = first;
    let mut rest = text;
    while let [byte, others @ ..] = rest {
        rest = put_next(out, &mut portion, *byte, others)?;
    }
    Ok(())
}

/// Appends what a string says, escaped and divided.
pub(crate) fn put_string(out: &mut Bytes, text: &[u8]) -> Result<(), Memory>
    ensures { OnOk result (out.new ≡ out.old ++ divided (string_bytes text.now)) }
{
    put_string_rest(out, Portion::behind(0), text)
}

/// The same of a string behind `@'`: these two bytes are its first.
pub(crate) fn put_quote(out: &mut Bytes, text: &[u8]) -> Result<(), Memory>
    ensures { OnOk result (out.new ≡ out.old ++ divided (64 ∷ 39 ∷ string_bytes text.now)) }
{
    out.append(b"@'")?;
    put_string_rest(out, Portion::behind(2), text)
}

// Appends what the rest of an include name says, from where its portion has come to.
fn put_include_rest(out: &mut Bytes, first: Portion, text: &[u8]) -> Result<(), Memory>
    ensures { OnOk result (out.new ≡ out.old ++ rest_bytes first (include_bytes text.now)) }
{
    let mut portion = first;
    let mut rest = text;
    while let [byte, others @ ..] = rest {
        let [next, behind @ ..] = others else {
            return portion.put(out, *byte);
        };
        portion.put(out, *byte)?;
        rest = if is_at_pair(*byte, *next) {
            behind
        } else {
            others
        };
    }
    Ok(())
}

/// Appends what an include name says, escaped and divided.
pub(crate) fn put_include_name(out: &mut Bytes, text: &[u8]) -> Result<(), Memory>
    ensures { OnOk result (out.new ≡ out.old ++ divided (include_bytes text.now)) }
{
    put_include_rest(out, Portion::behind(0), text)
}

/// Appends what a control text says.
pub(crate) fn put_control_text(out: &mut Bytes, text: &[u8]) -> Result<(), Memory>
    ensures { OnOk result (out.new ≡ out.old ++ text_to_end text.now) }
{
    let mut rest = text;
    while let [byte, others @ ..] = rest {
        let [next, behind @ ..] = others else {
            return out.append(rest);
        };
        if is_text_end(*byte, *next) {
            return Ok(());
        }
        out.push(*byte)?;
        rest = if is_at_pair(*byte, *next) {
            behind
        } else {
            others
        };
    }
    Ok(())
}

/// Appends the escaped bytes that a control text says.
pub(crate) fn put_escaped_control_text(out: &mut Bytes, text: &[u8]) -> Result<(), Memory>
    ensures { OnOk result (out.new ≡ out.old ++ escaped (text_to_end text.now)) }
{
    let mut rest = text;
    while let [byte, others @ ..] = rest {
        let [next, behind @ ..] = others else {
            return put_escaped(out, rest);
        };
        if is_text_end(*byte, *next) {
            return Ok(());
        }
        put_escaped_byte(out, *byte)?;
        rest = if is_at_pair(*byte, *next) {
            behind
        } else {
            others
        };
    }
    Ok(())
}
