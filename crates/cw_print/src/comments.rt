//! The text of a comment.
ghost use Rattle.std.specs.Prelude.{◌≡◌, ℕ, [], ◌∷◌, ◌++◌, ◌≤◌, ◌+◌, length, OnOk, IfOk, IfSome, IfNone};
ghost use Rattle.std.specs.List.{position_or_len};
ghost use Rattle.cw_print.specs.Comments.{Prints, blank_for, byte_piece, closing_braces, is_special, comment_piece};
ghost use Rattle.cw_print.specs.Comments.{takes_along};

use crate::texts::is_at_pair;
use cw_base::{Bytes, Memory};

fn blank_for(byte: u8) -> u8
    ensures { result ≡ blank_for byte }
{
    if byte == b'\n' { b' ' } else { byte }
}

fn takes_next(byte: u8, next: u8) -> bool
    ensures { result ≡ takes_along byte next }
{
    byte == b'\\' && !(next == b'@')
}

// One byte of a comment in which so many braces are open. Answers how many are open behind it.
#[inline(always)]
fn put_byte(out: &mut Bytes, byte: u8, braces: usize) -> Result<usize, Memory>
    ensures bytes { OnOk result (out.new ≡ out.old ++ (byte_piece byte braces).bytes) }
    ensures braces { IfOk result (λ after. after ≡ (byte_piece byte braces).braces) }
{
    match byte {
        b'@' => Ok(braces),
        b'{' => {
            out.push(byte)?;
            one_more(braces)
        }
        b'}' => put_closed(out, braces),
        _ => {
            out.push(blank_for(byte))?;
            Ok(braces)
        }
    }
}

// Memory cannot hold as many braces as are not counted.
fn one_more(braces: usize) -> Result<usize, Memory>
    ensures { IfOk result (λ more. more ≡ braces + 1) }
{
    match braces.checked_add(1) {
        Some(more) => Ok(more),
        None => Err(Memory),
    }
}

// A brace that closes.
fn put_closed(out: &mut Bytes, braces: usize) -> Result<usize, Memory>
    ensures bytes { OnOk result (out.new ≡ out.old ++ (byte_piece 125 braces).bytes) }
    ensures braces { IfOk result (λ after. after ≡ (byte_piece 125 braces).braces) }
{
    if braces == 0 {
        return Ok(0);
    }
    out.push(b'}')?;
    Ok(braces - 1)
}

// The first two bytes of a text, and what stands behind each.
#[derive(Clone, Copy)]
struct Two<'a> {
    first: u8,
    second: u8,
    others: &'a [u8],
    behind: &'a [u8],
}

fn two_at(text: &[u8]) -> Option<Two>
    ensures both { IfSome result (λ two. text.now ≡ two.first ∷ two.second ∷ two.behind.now) }
    ensures others { IfSome result (λ two. two.others.now ≡ two.second ∷ two.behind.now) }
    ensures none { IfNone result (length text.now ≤ 1) }
{
    let [first, others @ ..] = text else {
        return None;
    };
    let [second, behind @ ..] = others else {
        return None;
    };
    Some(Two {
        first: *first,
        second: *second,
        others,
        behind,
    })
}

// The last byte, if there is one: a blank keeps a backslash from the brace that closes the comment.
fn put_last(out: &mut Bytes, text: &[u8], braces: usize) -> Result<usize, Memory>
    requires { length text.now ≤ 1 }
    ensures bytes { OnOk result (out.new ≡ out.old ++ (comment_piece text.now braces).bytes) }
    ensures braces { IfOk result (λ after. after ≡ (comment_piece text.now braces).braces) }
{
    match text {
        [] => Ok(braces),
        [b'\\', ..] => {
            put_pair(out, b'\\', b' ')?;
            Ok(braces)
        }
        [byte, ..] => put_byte(out, *byte, braces),
    }
}

fn put_pair(out: &mut Bytes, first: u8, second: u8) -> Result<(), Memory>
    ensures { OnOk result (out.new ≡ out.old ++ (first ∷ blank_for second ∷ [])) }
{
    out.push(first)?;
    out.push(blank_for(second))
}

// Whether a byte of a comment doesn't print itself, or not whatever stands beside it.
#[inline(always)]
fn is_special(byte: u8) -> bool
    ensures { result ≡ is_special byte }
{
    matches!(byte, b'\n' | b'@' | b'\\' | b'{' | b'}')
}

// How many bytes come before the first that is special.
fn plain_size(text: &[u8]) -> usize
    ensures size { result ≡ position_or_len is_special text.now }
    ensures within { result ≤ length text.now }
{
    for (i, byte) in text.iter().enumerate() {
        if is_special(*byte) {
            return i;
        }
    }
    text.len()
}

// Appends the plain bytes with which a text begins, and answers what stands behind them.
fn put_plain<'a>(out: &mut Bytes, text: &'a [u8]) -> Result<&'a [u8], Memory>
    ensures printed { IfOk result (λ rest. (braces : ℕ) → Prints out.old text.now braces out.new rest.now braces) }
    ensures shorter { IfOk result (λ rest. length rest.now ≤ length text.now) }
{
    let (plain, rest) = text.split_at(plain_size(text));
    out.append(plain)?;
    Ok(rest)
}

/// Appends a piece of a comment's text in which so many braces are open, and answers how many are open behind it.
pub(crate) fn put_piece(out: &mut Bytes, text: &[u8], braces: usize) -> Result<usize, Memory>
    ensures bytes { OnOk result (out.new ≡ out.old ++ (comment_piece text.now braces).bytes) }
    ensures braces { IfOk result (λ after. after ≡ (comment_piece text.now braces).braces) }
{
    let mut rest = put_plain(out, text)?;
    let mut open = braces;
    while let Some(two) = two_at(rest) {
        let behind = if takes_next(two.first, two.second) {
            put_pair(out, two.first, two.second)?;
            two.behind
        } else if is_at_pair(two.first, two.second) {
            out.push(two.first)?;
            two.behind
        } else {
            open = put_byte(out, two.first, open)?;
            two.others
        };
        rest = put_plain(out, behind)?;
    }
    put_last(out, rest, open)
}

/// Appends the braces that a comment lacks at its end, and the one that ends it.
pub(crate) fn put_closing_braces(out: &mut Bytes, braces: usize) -> Result<(), Memory>
    ensures { OnOk result (out.new ≡ out.old ++ closing_braces braces) }
{
    let mut open = braces;
    while open > 0 {
        out.push(b'}')?;
        open -= 1;
    }
    out.push(b'}')
}
