//! Whether a file is a log: line by line, with no memory but a spot.
ghost use Rattle.std.specs.Prelude.{◌≡◌, ◌≢◌, [], MatchOption, MatchResult};
ghost use Rattle.cw_base.specs.Text.{pieces_of};
ghost use Rattle.cw_logs.specs.model.LinePieces.{IsFirstLine};
ghost use Rattle.cw_logs.specs.LogReading.{IsFaultAt, IsLog, Step, Stuck};

use crate::items::{head_in, item_in};
use crate::leaves::leaf_in;
use crate::words::Cut;
use memchr::memchr;

/// Where a reader of a log stands.
#[derive(Clone, Copy, PartialEq, Eq, Debug)]
pub enum Spot {
    /// Between two blocks.
    Outside,
    /// In a block of which so many leaf lines are to come.
    Inside(u32),
}

/// A file is no log: the number of the first line that no log has behind the lines before it, or that of the lines
/// and 1 where the file ends in a block.
#[derive(Clone, Copy, PartialEq, Eq, Debug)]
pub struct NotALog {
    pub line: usize,
}

// The first line of a text that isn't empty, and what stands behind its end.
pub(crate) fn cut_line(text: &[u8]) -> Cut<'_>
    requires { text.now ≢ [] }
    ensures { IsFirstLine text.now result.word.now result.rest.now }
{
    match memchr(b'\n', text) {
        Some(end) => Cut {
            word: &text[..end],
            rest: &text[end + 1..],
        },
        None => Cut {
            word: text,
            rest: &[],
        },
    }
}

// Where the reader stands behind this line, if some log has it there.
pub(crate) fn step(spot: Spot, line: &[u8]) -> Option<Spot>
    ensures { MatchOption result (Stuck spot line.now) (λ next. Step spot line.now next) }
{
    match spot {
        Spot::Outside => {
            let count = head_in(line)?;
            Some(Spot::Inside(count))
        }
        Spot::Inside(0) => {
            if line == b"end".as_slice() {
                return Some(Spot::Outside);
            }
            item_in(line)?;
            Some(spot)
        }
        Spot::Inside(to_come) => {
            leaf_in(line)?;
            Some(Spot::Inside(to_come - 1))
        }
    }
}

/// Judges whether a file is a log.
pub fn judge(file: &[u8]) -> Result<(), NotALog>
    ensures { MatchResult result (λ _. IsLog (pieces_of file.now)) (λ e. IsFaultAt (pieces_of file.now) e.line) }
{
    let mut spot = Spot::Outside;
    let mut rest = file;
    let mut line = 1;
    while !rest.is_empty() {
        let cut = cut_line(rest);
        spot = match step(spot, cut.word) {
            Some(next) => next,
            None => return Err(NotALog { line }),
        };
        rest = cut.rest;
        line += 1;
    }
    match spot {
        Spot::Outside => Ok(()),
        Spot::Inside(_) => Err(NotALog { line }),
    }
}
