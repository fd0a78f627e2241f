//! The division of long texts in typewriter type.
ghost use Rattle.std.specs.Prelude.{◌≡◌, ◌++◌, OnOk};
ghost use Rattle.cw_print.specs.model.Dividing.{has_room, is_full, is_special_in_string, next_byte, portion_behind};
ghost use Rattle.cw_print.specs.model.Dividing.{portion_for_next};
ghost use Rattle.cw_print.specs.model.Dividing.{with_byte};

use crate::escaping::{is_escaped, put_escaped_byte};
use cw_base::{Bytes, Memory};

// After so many bytes a text may be divided.
const PORTION: usize = 20;

/// The portion of a text that is being printed: what has come since the last division, or since the beginning.
#[derive(Clone, Copy)]
pub(crate) struct Portion {
    /// How many bytes more have to come before the text may be divided.
    pub(crate) room: usize,
    /// Whether a backslash takes the next byte along.
    pub(crate) takes_next: bool,
}

impl Portion {
    /// So many bytes have come, and no backslash last.
    pub(crate) fn behind(come: usize) -> Portion
        ensures { result ≡ portion_behind come }
    {
        Portion {
            room: PORTION.saturating_sub(come),
            takes_next: false,
        }
    }

    /// Whether a byte more may come before the next division, and stands behind no backslash that takes it along.
    #[inline(always)]
    pub(crate) fn has_room(self) -> bool
        ensures { result ≡ has_room self }
    {
        !self.takes_next && self.room > 0
    }

    #[inline(always)]
    fn is_full(self) -> bool
        ensures { result ≡ is_full self }
    {
        !self.takes_next && self.room == 0
    }

    /// Appends the next byte of a text escaped, and before it a division where one is due.
    #[inline(always)]
    pub(crate) fn put(&mut self, out: &mut Bytes, byte: u8) -> Result<(), Memory>
        ensures bytes { OnOk result (out.new ≡ out.old ++ next_byte self.old byte) }
        ensures portion { OnOk result (self.new ≡ with_byte (portion_for_next self.old) byte) }
    {
        if self.is_full() {
            out.append(b"}\\)\\.{")?;
            *self = Portion::behind(0);
        }
        put_escaped_byte(out, byte)?;
        self.room = self.room.saturating_sub(1);
        self.takes_next = !self.takes_next && byte == b'\\';
        Ok(())
    }
}

/// Whether a byte of a string doesn't print itself, or not whatever stands beside it. Most bytes are letters.
#[inline(always)]
pub(crate) fn is_special(byte: u8) -> bool
    ensures { result ≡ is_special_in_string byte }
{
    !byte.is_ascii_alphanumeric() && (is_escaped(byte) || byte == b'@')
}
