//! The places of bytes of the merged text, and its changed lines.
ghost use Rattle.std.specs.Prelude.{◌≡◌, ◌+◌, ◌<◌, length, slice_index_or};
ghost use Rattle.cw_base.specs.Web.{MergedLine};
ghost use Rattle.cw_phase1.specs.Places.{place_in};
ghost use Rattle.cw_phase1.specs.model.LinePlaces.{offset, IsLineOf};
ghost use Rattle.cw_phase1.specs.Places.{holds_changed};

use cw_base::{LineInfo, Place, Web};

/// Where a line lies in the merged text, and what it is.
fn line_of(web: &Web, i: usize) -> LineInfo
    requires { i < length web.now.lines }
    ensures start { result.start ≡ offset web.now.lines i }
    ensures ends { (none : MergedLine) →
        result.«end» ≡ offset web.now.lines i + length (slice_index_or web.now.lines i none).text }
    ensures place { (none : MergedLine) → result.place ≡ (slice_index_or web.now.lines i none).place }
    ensures changed { (none : MergedLine) → result.changed ≡ (slice_index_or web.now.lines i none).changed }
{
    web.line(i)
}

/// The line that has a byte of the merged text; for a byte behind the text the last line.
fn line_at(web: &Web, byte: usize) -> usize
    requires { 0 < length web.now.lines }
    ensures { IsLineOf web.now.lines byte result }
{
    let mut low = 0;
    let mut high = web.line_count();
    while low + 1 < high {
        let middle = low + (high - low) / 2;
        if line_of(web, middle).start <= byte {
            low = middle;
        } else {
            high = middle;
        }
    }
    low
}

/// The place of a byte of the merged text.
pub(crate) fn place_of(web: &Web, byte: usize) -> Place
    ensures { result ≡ place_in web.now.lines byte }
{
    if web.line_count() == 0 {
        return Place { file: 0, line: 0 };
    }
    line_of(web, line_at(web, byte)).place
}

/// Whether a part of the merged text holds a line that a change file put there.
pub(crate) fn holds_changed(web: &Web, start: usize, end: usize) -> bool
    ensures { result ≡ holds_changed web.now.lines 0 start end }
{
    if web.line_count() == 0 {
        return false;
    }
    let mut i = line_at(web, start);
    while i < web.line_count() {
        let line = line_of(web, i);
        if line.start >= end {
            return false;
        }
        if line.changed && start <= line.end {
            return true;
        }
        i += 1;
    }
    false
}
