//! Words of a command line that begin with two hyphens and a letter.

ghost use Rattle.std.specs.Prelude.{◌≡◌, option_copied};
ghost use Rattle.cw_input.specs.LongWords.{first_unknown, is_long, is_unknown, option_word};

use cw_base::Words;

const QUIET: &[u8] = b"--quiet";

const VERBOSE: &[u8] = b"--verbose";

// A long word begins with two hyphens and a letter.
fn is_long(word: &[u8]) -> bool
    ensures { result ≡ is_long word.now }
{
    match word {
        [first, second, third, ..] => *first == b'-'
            && *second == b'-'
            && third.is_ascii_alphabetic(),
        _ => false,
    }
}

/// The option word that a word stands for: letters where they have a long word, nothing for any other long word.
pub(crate) fn spelled(word: &[u8]) -> &[u8]
    ensures { result.now ≡ option_word word.now }
{
    if word == QUIET {
        return b"-bph";
    }
    if word == VERBOSE {
        return b"+bph";
    }
    if is_long(word) {
        return b"";
    }
    word
}

// Whether a word is long and stands for no letters.
fn is_unknown(word: &[u8]) -> bool
    ensures { result ≡ is_unknown word.now }
{
    is_long(word) && !(word == QUIET || word == VERBOSE)
}

/// The first word of a line that is long and stands for no letters.
pub(crate) fn first_unknown(words: &Words) -> Option<&[u8]>
    ensures { option_copied result ≡ first_unknown words.now }
{
    for i in 0..words.len() {
        let word = words.word(i);
        if is_unknown(word) {
            return Some(word);
        }
    }
    None
}
