//! Where a blank stands between two words.
ghost use Rattle.std.specs.Prelude.{◌≡◌, [], codes, cond};
ghost use Rattle.cw_plain.specs.Lines.{blank_before, clash, is_joining, is_wordy, last_behind};
ghost use Rattle.cw_plain.specs.Lines.{signs_touch, words_touch};

use cw_rules::classes::{is_mark, is_word};

fn is_wordy(byte: u8) -> bool
    ensures { result ≡ is_wordy byte }
{
    is_word(byte) || byte == b'.'
}

fn is_joining(byte: u8) -> bool
    ensures { result ≡ is_joining byte }
{
    matches!(
        byte,
        b'+' | b'-'
            | b'*'
            | b'/'
            | b'<'
            | b'>'
            | b'='
            | b'!'
            | b'&'
            | b'|'
            | b'^'
            | b'%'
            | b'~'
            | b'?'
            | b':'
            | b'.'
            | b'#'
    )
}

fn words_touch(byte: u8, next: u8) -> bool
    ensures { result ≡ words_touch byte next }
{
    is_wordy(byte) && (is_wordy(next) || is_mark(next))
}

fn signs_touch(byte: u8, next: u8) -> bool
    ensures { result ≡ signs_touch byte next }
{
    byte == b'[' && next == b'[' || is_joining(byte) && is_joining(next)
}

fn clash(byte: u8, next: u8) -> bool
    ensures { result ≡ clash byte next }
{
    words_touch(byte, next) || signs_touch(byte, next)
}

/// Whether a blank parts a word from the byte before it.
pub(crate) fn has_blank(last: Option<u8>, word: &[u8]) -> bool
    ensures { blank_before last word.now ≡ cond result (codes " ") [] }
{
    let Some(last) = last else {
        return false;
    };
    match word {
        [] => false,
        [first, ..] => clash(last, *first),
    }
}

/// The last byte, once these stand behind it.
pub(crate) fn last_behind(last: Option<u8>, bytes: &[u8]) -> Option<u8>
    ensures { result ≡ last_behind last bytes.now }
{
    match bytes {
        [.., byte] => Some(*byte),
        [] => last,
    }
}
