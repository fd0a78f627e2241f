//! The lines of a log that have numbers: the head of a block, and productions.
ghost use Rattle.std.specs.Prelude.{◌≡◌, MatchOption};
ghost use Rattle.cw_logs.specs.model.Lines.{HasHead, HasItem, NoHead, NoItem};

use crate::numbers::number_in;
use crate::words::cut_word;
use cw_leaves::LogItem;
use cw_rules::classes::begins_with;
use cw_table::{ROW_COUNT, RowNo};

/// The greatest number of leaf lines of a block, and the greatest place.
pub const GREATEST: u32 = 16_777_215;

// The number of leaf lines that the head of a block says.
pub(crate) fn head_in(line: &[u8]) -> Option<u32>
    ensures { MatchOption result (NoHead line.now) (λ count. HasHead line.now count) }
{
    let [b't', b'e', b'x', b't', b' ', digits @ ..] = line else {
        return None;
    };
    number_in(digits, GREATEST)
}

// The production that these bytes are.
pub(crate) fn item_in(line: &[u8]) -> Option<LogItem>
    ensures { MatchOption result (NoItem line.now) (λ item. HasItem line.now item) }
{
    let (letter, behind) = line.split_first()?;
    if *letter != b'P' {
        return None;
    }
    let cut = cut_word(behind);
    let (_blank, digits) = cut.rest.split_first()?;
    let number = number_in(cut.word, ROW_COUNT as u32)?;
    let place = number_in(digits, GREATEST)?;
    if number == 0 {
        return None;
    }
    let row = RowNo {
        number: number as u8,
    };
    Some(LogItem { row, place })
}
