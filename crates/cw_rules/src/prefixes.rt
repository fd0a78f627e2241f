//! The prefixes of strings.
ghost use Rattle.std.specs.Prelude.{◌≡◌, ◌<◌, length};
ghost use Rattle.cw_rules.specs.Prefixes.{prefix_size, is_prefix_letter};

use crate::classes::is_mark;

#[inline(always)]
fn is_prefix_letter(byte: u8) -> bool
    ensures { result ≡ is_prefix_letter byte }
{
    byte == b'L' || byte == b'u' || byte == b'U'
}

/// How many bytes the prefix has with which a string begins here, or 0 where none does.
#[inline(always)]
pub fn prefix_size(bytes: &[u8]) -> usize
    ensures value { result ≡ prefix_size bytes.now }
    ensures within { 0 < length bytes.now → result < length bytes.now }
{
    if bytes.len() < 2 || !is_prefix_letter(bytes[0]) {
        return 0;
    }
    if is_mark(bytes[1]) {
        return 1;
    }
    if bytes.len() >= 3 && bytes[0] == b'u' && bytes[1] == b'8' && is_mark(bytes[2]) {
        2
    } else {
        0
    }
}
