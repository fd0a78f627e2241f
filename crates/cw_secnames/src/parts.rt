//! The parts of a section name that stand between bars: its inner texts.
ghost use Rattle.std.specs.Prelude.{◌≡◌, [], ◌≤◌, ◌<◌, ◌+◌, length, slice_index, IfSome, IfNone};
ghost use Rattle.cw_secnames.specs.model.Parts.{end_of_part, parts_at, IsNextPart};

use cw_base::Span;

// The place of the bar that ends a part which begins at a place. Two bars together are an operator in it.
fn end_of_part(text: &[u8], from: usize) -> Option<usize>
    requires { from ≤ length text.now }
    ensures value { result ≡ end_of_part text.now from }
    ensures order { IfSome result (λ place. from ≤ place) }
    ensures within { IfSome result (λ place. place < length text.now) }
{
    let mut place = from;
    while place < text.len() {
        if text[place] != b'|' {
            place += 1;
        } else if place + 1 < text.len() && text[place + 1] == b'|' {
            place += 2;
        } else {
            return Some(place);
        }
    }
    None
}

/// The next part of a name's text from a place on, without its bars: a bar opens it, and the next single bar ends it.
/// Behind that bar the text goes on. None comes where no part is left.
pub fn next_part(text: &[u8], from: usize) -> Option<Span>
    requires { from ≤ length text.now }
    ensures some { IfSome result (λ span. IsNextPart text.now from span) }
    ensures none { IfNone result (parts_at text.now from ≡ []) }
{
    let mut place = from;
    while place < text.len() {
        if text[place] == b'|' {
            return part_behind(text, place);
        }
        place += 1;
    }
    None
}

// The part that a bar opens, if a bar ends it.
fn part_behind(text: &[u8], bar: usize) -> Option<Span>
    requires within { bar < length text.now }
    requires bar { slice_index text.now bar ≡ 124 }
    ensures some { IfSome result (λ span. IsNextPart text.now bar span) }
    ensures none { IfNone result (parts_at text.now bar ≡ []) }
{
    let start = bar + 1;
    match end_of_part(text, start) {
        Some(end) => Some(Span { start, end }),
        None => None,
    }
}
