//! How far a constant of C goes.
ghost use Rattle.std.specs.Prelude.{◌≡◌, ◌≤◌, ◌<◌, true, length};
ghost use Rattle.cw_rules.specs.Bytes.{begins_by, is_in};
ghost use Rattle.cw_rules.specs.Constants.{digits_go_on, digits, fraction, exponent_sign, exponent, mantissa, scaled};
ghost use Rattle.cw_rules.specs.Constants.{is_prefixed, hexadecimal, binary, decimal, number, constant};

use crate::classes::{Class, begins, from, is_letter_of, run};

/// How many bytes a constant takes at the beginning of these bytes, or 0 where none begins.
pub fn constant(bytes: &[u8]) -> usize
    ensures value { result ≡ constant bytes.now }
    ensures within { result ≤ length bytes.now }
{
    let size = number(bytes);
    if 0 < size {
        size + run(Class::Suffix, from(bytes, size))
    } else {
        0
    }
}

#[inline(always)]
fn number(bytes: &[u8]) -> usize
    ensures value { result ≡ number bytes.now }
    ensures within { result ≤ length bytes.now }
{
    let hexadecimal = hexadecimal(bytes);
    if 0 < hexadecimal {
        return hexadecimal;
    }
    let binary = binary(bytes);
    if 0 < binary { binary } else { decimal(bytes) }
}

#[inline(always)]
fn hexadecimal(bytes: &[u8]) -> usize
    ensures value { result ≡ hexadecimal bytes.now }
    ensures within { result ≤ length bytes.now }
{
    if !is_prefixed(b'x', Class::HexDigit, bytes) {
        return 0;
    }
    2 + scaled(Class::HexDigit, b'p', from(bytes, 2))
}

#[inline(always)]
fn binary(bytes: &[u8]) -> usize
    ensures value { result ≡ binary bytes.now }
    ensures within { result ≤ length bytes.now }
{
    if !is_prefixed(b'b', Class::BinaryDigit, bytes) {
        return 0;
    }
    2 + digits(Class::BinaryDigit, from(bytes, 2))
}

// Whether a digit of the class stands behind `0` and this letter.
#[inline(always)]
fn is_prefixed(letter: u8, class: Class, bytes: &[u8]) -> bool
    ensures value { result ≡ is_prefixed letter class bytes.now }
    ensures within { result ≡ true → 2 < length bytes.now }
{
    bytes.len() > 2 && bytes[0] == b'0' && is_letter_of(letter, bytes[1]) && class.has(bytes[2])
}

#[inline(always)]
fn decimal(bytes: &[u8]) -> usize
    ensures value { result ≡ decimal bytes.now }
    ensures within { result ≤ length bytes.now }
{
    scaled(Class::Digit, b'e', bytes)
}

// A mantissa and perhaps an exponent with this letter.
#[inline(always)]
fn scaled(class: Class, letter: u8, bytes: &[u8]) -> usize
    ensures value { result ≡ scaled class letter bytes.now }
    ensures within { result ≤ length bytes.now }
{
    let size = mantissa(class, bytes);
    if 0 < size {
        size + exponent(letter, from(bytes, size))
    } else {
        0
    }
}

#[inline(always)]
fn mantissa(class: Class, bytes: &[u8]) -> usize
    ensures value { result ≡ mantissa class bytes.now }
    ensures within { result ≤ length bytes.now }
{
    let digits = digits(class, bytes);
    digits + fraction(class, 0 < digits, from(bytes, digits))
}

#[inline(always)]
fn fraction(class: Class, behind_digit: bool, bytes: &[u8]) -> usize
    ensures value { result ≡ fraction class behind_digit bytes.now }
    ensures within { result ≤ length bytes.now }
{
    if !begins(b'.', bytes) {
        return 0;
    }
    let rest = from(bytes, 1);
    let digits = digits(class, rest);
    if !begins(b'.', rest) && (behind_digit || 0 < digits) {
        1 + digits
    } else {
        0
    }
}

#[inline(always)]
fn exponent(letter: u8, bytes: &[u8]) -> usize
    ensures value { result ≡ exponent letter bytes.now }
    ensures within { result ≤ length bytes.now }
{
    if bytes.is_empty() || !is_letter_of(letter, bytes[0]) {
        return 0;
    }
    let sign = 1 + exponent_sign(from(bytes, 1));
    let digits = digits(Class::Digit, from(bytes, sign));
    if 0 < digits { sign + digits } else { 0 }
}

#[inline(always)]
fn exponent_sign(bytes: &[u8]) -> usize
    ensures value { result ≡ exponent_sign bytes.now }
    ensures within { result ≤ length bytes.now }
{
    if begins(b'+', bytes) || begins(b'-', bytes) {
        1
    } else {
        0
    }
}

// How many bytes a run of digits has, with its `'`.
#[inline(always)]
fn digits(class: Class, bytes: &[u8]) -> usize
    ensures value { result ≡ digits class bytes.now }
    ensures within { result ≤ length bytes.now }
{
    if !begins_digit(class, bytes) {
        return 0;
    }
    let mut n = 0;
    while n < bytes.len() && goes_on(class, bytes[n], from(bytes, n + 1)) {
        n += 1;
    }
    n
}

// Whether a run of digits goes on with this byte, before the others.
#[inline(always)]
fn goes_on(class: Class, byte: u8, bytes: &[u8]) -> bool
    ensures { result ≡ digits_go_on class byte bytes.now }
{
    class.has(byte) || (byte == b'\'' && begins_digit(class, bytes))
}

#[inline(always)]
fn begins_digit(class: Class, bytes: &[u8]) -> bool
    ensures { result ≡ begins_by (is_in class) bytes.now }
{
    match bytes {
        [] => false,
        [byte, ..] => class.has(*byte),
    }
}
