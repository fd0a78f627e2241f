//! The pieces of a line of a log: words between blanks, and names behind blanks.
ghost use Rattle.std.specs.Prelude.{MatchOption};
ghost use Rattle.cw_logs.specs.model.LinePieces.{AreNames, HasName, IsCut, NoName, NoNames};

use cw_rules::classes::{Class, from, is_letter, run};
use memchr::memchr;

/// A word, and what stands behind it.
#[derive(Clone, Copy)]
pub(crate) struct Cut<'a> {
    pub word: &'a [u8],
    pub rest: &'a [u8],
}

// The bytes before the first blank, and what begins there.
pub(crate) fn cut_word(text: &[u8]) -> Cut<'_>
    ensures { IsCut text.now result.word.now result.rest.now }
{
    match memchr(b' ', text) {
        Some(end) => Cut {
            word: &text[..end],
            rest: &text[end..],
        },
        None => Cut {
            word: text,
            rest: &[],
        },
    }
}

// The identifier behind a blank with which a text begins.
pub(crate) fn next_name(text: &[u8]) -> Option<Cut<'_>>
    ensures { MatchOption result (NoName text.now) (λ c. HasName text.now c.word.now c.rest.now) }
{
    let (blank, behind) = text.split_first()?;
    let (first, _more) = behind.split_first()?;
    if *blank != b' ' {
        return None;
    }
    if !is_letter(*first) {
        return None;
    }
    let size = run(Class::Word, behind);
    Some(Cut {
        word: &behind[..size],
        rest: from(behind, size),
    })
}

// How many identifiers there are, each behind a blank, if there is nothing else.
pub(crate) fn count_names(text: &[u8]) -> Option<usize>
    ensures { MatchOption result (NoNames text.now) (λ count. AreNames text.now count) }
{
    let mut rest = text;
    let mut count = 0;
    while !rest.is_empty() {
        let next = next_name(rest)?;
        rest = next.rest;
        count += 1;
    }
    Some(count)
}
