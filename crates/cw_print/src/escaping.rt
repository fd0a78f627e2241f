//! Escaped bytes, and texts in typewriter type.
ghost use Rattle.std.specs.Prelude.{◌≡◌, ◌++◌, OnOk};
ghost use Rattle.cw_print.specs.Escaping.{is_escaped, escaped_byte, escaped};

use cw_base::{Bytes, Memory};

pub(crate) fn is_escaped(byte: u8) -> bool
    ensures { result ≡ is_escaped byte }
{
    match byte {
        b' ' | 9 | 11 | 12 | 13 => true,
        b'\\' | b'#' | b'%' | b'$' | b'^' | b'{' | b'}' | b'~' | b'&' | b'_' => true,
        _ => false,
    }
}

/// Appends bytes one by one: of two or three that takes less than a copy of them together.
#[inline(always)]
pub(crate) fn put_few(out: &mut Bytes, bytes: &[u8]) -> Result<(), Memory>
    ensures { OnOk result (out.new ≡ out.old ++ bytes.now) }
{
    for byte in bytes {
        out.push(*byte)?;
    }
    Ok(())
}

#[inline(always)]
pub(crate) fn put_escaped_byte(out: &mut Bytes, byte: u8) -> Result<(), Memory>
    ensures { OnOk result (out.new ≡ out.old ++ escaped_byte byte) }
{
    if is_escaped(byte) {
        out.push(b'\\')?;
    }
    out.push(byte)
}

/// Appends a text with a backslash before each byte that TeX would take for its own.
pub(crate) fn put_escaped(out: &mut Bytes, text: &[u8]) -> Result<(), Memory>
    ensures { OnOk result (out.new ≡ out.old ++ escaped text.now) }
{
    for byte in text {
        put_escaped_byte(out, *byte)?;
    }
    Ok(())
}
