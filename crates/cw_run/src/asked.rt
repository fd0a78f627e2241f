//! What the words of a command line ask a tool for.
ghost use Rattle.std.specs.Prelude.{◌≡◌, option_map};
ghost use Rattle.cw_run.specs.Asked.{asked, asked_for, asked_of, is_name};

use cw_base::Words;

/// A web and its change file, as they are read, and the file that is written.
#[derive(Clone, Copy, Debug)]
pub struct Asked<'a> {
    pub web: &'a [u8],
    pub change: &'a [u8],
    pub out: &'a [u8],
}

impl<'a> Asked<'a> {
    /// What a web word, a change word and a file word ask for; nothing where the first or the last is no name.
    pub fn by_words(web: &'a [u8], change: &'a [u8], out: &'a [u8]) -> Option<Asked<'a>>
        ensures { option_map asked_of result ≡ asked_for web.now change.now out.now }
    {
        if is_name(web) && is_name(out) {
            return Some(Asked { web, change, out });
        }
        None
    }
}

// Whether a word names a web or the file that is written.
fn is_name(word: &[u8]) -> bool
    ensures { result ≡ is_name word.now }
{
    !word.is_empty() && word != b"-".as_slice()
}

/// What the words of a command line ask for; nothing where they are no three, or name no web or no file.
pub fn read_asked(words: &Words) -> Option<Asked>
    ensures { option_map asked_of result ≡ asked words.now }
{
    if words.len() != 3 {
        return None;
    }
    Asked::by_words(words.word(0), words.word(1), words.word(2))
}
