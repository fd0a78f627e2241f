//! Short names, made whole before they go to a line.
ghost use Rattle.std.specs.Prelude.{◌≡◌, ◌+◌, ◌*◌, ◌≤◌, ◌++◌, length};
ghost use Rattle.arrayvec.specs.ArrayVec.{array_vec_len};
ghost use Rattle.cw_trees.specs.Printing.{ident_bytes, name_bytes};

use crate::naming::{font, is_marked};
use arrayvec::ArrayVec;

/// Space for the bytes of a short name.
pub(crate) type ShortName = ArrayVec<u8, 64>;

/// A name of so many bytes is short: there is space for a backslash before each, its macro and its braces.
pub(crate) const LONGEST: usize = 30;

/// What an identifier prints that is short.
#[inline(always)]
pub(crate) fn short_ident(name: &[u8]) -> ShortName
    requires short { length name.now ≤ 30 }
    ensures { result.items ≡ ident_bytes name.now }
{
    let mut out = ShortName::new();
    if name.len() == 1 {
        add_all(b"\\|", &mut out);
        add_name(name, &mut out);
        return out;
    }
    add_all(font(name), &mut out);
    add_name(name, &mut out);
    out.push(b'}');
    out
}

// Adds bytes for which there is space.
#[inline(always)]
fn add_all(bytes: &[u8], out: &mut ShortName)
    requires room { array_vec_len out.old + length bytes.now ≤ 64 }
    ensures items { out.new.items ≡ out.old.items ++ bytes.now }
    ensures len { array_vec_len out.new ≡ array_vec_len out.old + length bytes.now }
{
    for byte in bytes {
        out.push(*byte);
    }
}

// Adds the bytes of a name; `_` and `$` have a backslash.
#[inline(always)]
fn add_name(name: &[u8], out: &mut ShortName)
    requires room { array_vec_len out.old + 2 * length name.now ≤ 64 }
    ensures items { out.new.items ≡ out.old.items ++ name_bytes name.now }
    ensures len { array_vec_len out.new ≤ array_vec_len out.old + 2 * length name.now }
{
    for byte in name {
        if is_marked(*byte) {
            out.push(b'\\');
        }
        out.push(*byte);
    }
}
