//! Spans of a text, as far as they are there.
ghost use Rattle.std.specs.Prelude.{◌≡◌, ◌≤◌, length};
ghost use Rattle.cw_press.specs.Inks.{bytes_of};

use cw_base::Span;

/// The bytes of a span of a text.
pub fn part_of(text: &[u8], span: Span) -> &[u8]
    ensures part { result.now ≡ bytes_of text.now span }
    ensures within { length result.now ≤ length text.now }
{
    let end = span.end.min(text.len());
    let start = span.start.min(end);
    &text[start..end]
}
