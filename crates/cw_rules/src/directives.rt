//! The words of directives, which stand directly behind the `#` of a `#` line.
ghost use Rattle.std.specs.Prelude.{◌≡◌, ◌<◌, ◌≤◌, true, length, drop};
ghost use Rattle.cw_rules.specs.Bytes.{begins_by, is_letter};
ghost use Rattle.cw_rules.specs.Tokens.{is_line_space, behind_space, is_define, begins_parameters, has_parameters};
ghost use Rattle.cw_rules.specs.Tokens.{defines_macro, directive_at};

use crate::classes::{Class, begins, begins_with, from, is_blank, is_letter, run};
use crate::parts::Part;
use crate::tokens::Directive;

/// Whether the identifier that begins the bytes is a word of a directive.
pub fn directive_at(part: Part, bytes: &[u8]) -> Directive
    ensures { result ≡ directive_at part bytes.now }
{
    if !part.behind_hash() {
        return Directive::No;
    }
    if defines_macro(bytes) {
        Directive::Macro
    } else {
        Directive::Word
    }
}

// Whether the bytes begin with the `define` of a macro with parameters.
fn defines_macro(bytes: &[u8]) -> bool
    ensures { result ≡ defines_macro bytes.now }
{
    is_define(bytes) && has_parameters(from(bytes, 6))
}

fn is_define(bytes: &[u8]) -> bool
    ensures word { result ≡ is_define bytes.now }
    ensures within { result ≡ true → 6 ≤ length bytes.now }
{
    begins_with(b"define", bytes) && run(Class::Word, bytes) == 6
}

// Whether white space, an identifier and directly `(` stand here.
fn has_parameters(bytes: &[u8]) -> bool
    ensures { result ≡ has_parameters bytes.now }
{
    begins_parameters(behind_space(bytes))
}

fn begins_parameters(bytes: &[u8]) -> bool
    ensures { result ≡ begins_parameters bytes.now }
{
    begins_letter(bytes) && begins(b'(', from(bytes, run(Class::Word, bytes)))
}

/// Whether an identifier begins.
pub fn begins_letter(bytes: &[u8]) -> bool
    ensures value { result ≡ begins_by is_letter bytes.now }
    ensures some { result ≡ true → 0 < length bytes.now }
{
    match bytes {
        [] => false,
        [byte, ..] => is_letter(*byte),
    }
}

// The bytes behind the white space of a `#` line.
fn behind_space(bytes: &[u8]) -> &[u8]
    ensures { result.now ≡ behind_space 0 bytes.now }
{
    let mut last = 0;
    let mut at = 0;
    while at < bytes.len() {
        let byte = bytes[at];
        if !is_line_space(last, byte, from(bytes, at + 1)) {
            return from(bytes, at);
        }
        last = byte;
        at += 1;
    }
    from(bytes, at)
}

fn is_line_space(last: u8, byte: u8, bytes: &[u8]) -> bool
    ensures { result ≡ is_line_space last byte bytes.now }
{
    is_blank(byte) || (byte == b'\\' && begins(b'\n', bytes)) || (byte == b'\n' && last == b'\\')
}
