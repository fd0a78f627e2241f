//! The bytes of constants.
ghost use Rattle.std.specs.Prelude.{◌≡◌, ◌++◌, ◌∷◌, OnOk};
ghost use Rattle.cw_rules.specs.Bytes.{is_hex_digit};
ghost use Rattle.cw_print.specs.Constants.{upper, suffix, number_byte, is_exponent_byte, exponent_bytes};
ghost use Rattle.cw_print.specs.Constants.{behind_mantissa, is_mantissa_byte, mantissa_bytes, is_hex_byte};
ghost use Rattle.cw_print.specs.Constants.{behind_hex_digits, hex_digits, behind_zero, constant_bytes};

use cw_base::{Bytes, Memory};

fn is_hex_digit(byte: u8) -> bool
    ensures { result ≡ is_hex_digit byte }
{
    byte.is_ascii_digit() || (97 <= byte && byte <= 102) || (65 <= byte && byte <= 70)
}

fn is_hex_byte(byte: u8) -> bool
    ensures { result ≡ is_hex_byte byte }
{
    is_hex_digit(byte) || byte == b'.' || byte == b'\''
}

fn is_exponent_byte(byte: u8) -> bool
    ensures { result ≡ is_exponent_byte byte }
{
    byte.is_ascii_digit() || byte == b'+' || byte == b'-' || byte == b'\''
}

fn is_mantissa_byte(byte: u8) -> bool
    ensures { result ≡ is_mantissa_byte byte }
{
    byte.is_ascii_digit() || byte == b'.' || byte == b'\''
}

fn upper(byte: u8) -> u8
    ensures { result ≡ upper byte }
{
    if 97 <= byte { byte - 32 } else { byte }
}

fn put_suffix(out: &mut Bytes, bytes: &[u8]) -> Result<(), Memory>
    ensures { OnOk result (out.new ≡ out.old ++ suffix bytes.now) }
{
    for byte in bytes {
        out.append(b"\\$")?;
        out.push(upper(*byte))?;
    }
    Ok(())
}

// The suffix that begins with this byte.
fn put_suffix_from(out: &mut Bytes, byte: u8, bytes: &[u8]) -> Result<(), Memory>
    ensures { OnOk result (out.new ≡ out.old ++ suffix (byte ∷ bytes.now)) }
{
    out.append(b"\\$")?;
    out.push(upper(byte))?;
    put_suffix(out, bytes)
}

// One byte of a number before its suffix.
fn put_number_byte(out: &mut Bytes, byte: u8) -> Result<(), Memory>
    ensures { OnOk result (out.new ≡ out.old ++ number_byte byte) }
{
    if byte == b'\'' {
        return out.append(b"\\ ");
    }
    out.push(byte)
}

fn put_exponent(out: &mut Bytes, bytes: &[u8]) -> Result<(), Memory>
    ensures { OnOk result (out.new ≡ out.old ++ exponent_bytes bytes.now) }
{
    let mut rest = bytes;
    while let [byte, behind @ ..] = rest {
        if !is_exponent_byte(*byte) {
            return put_suffix(out, rest);
        }
        put_number_byte(out, *byte)?;
        rest = behind;
    }
    Ok(())
}

// What stands behind the digits and the dot of a number, of which this is the first byte.
fn put_behind_mantissa(out: &mut Bytes, byte: u8, bytes: &[u8]) -> Result<(), Memory>
    ensures { OnOk result (out.new ≡ out.old ++ behind_mantissa byte bytes.now) }
{
    if byte == b'E' || byte == b'e' {
        out.append(b"\\_")?;
        return put_exponent(out, bytes);
    }
    put_suffix_from(out, byte, bytes)
}

fn put_mantissa(out: &mut Bytes, bytes: &[u8]) -> Result<(), Memory>
    ensures { OnOk result (out.new ≡ out.old ++ mantissa_bytes bytes.now) }
{
    let mut rest = bytes;
    while let [byte, behind @ ..] = rest {
        if !is_mantissa_byte(*byte) {
            return put_behind_mantissa(out, *byte, behind);
        }
        put_number_byte(out, *byte)?;
        rest = behind;
    }
    Ok(())
}

// What stands behind the hexadecimal digits and the dot of a number, of which this is the first byte.
fn put_behind_hex_digits(out: &mut Bytes, byte: u8, bytes: &[u8]) -> Result<(), Memory>
    ensures { OnOk result (out.new ≡ out.old ++ behind_hex_digits byte bytes.now) }
{
    if byte == b'P' || byte == b'p' {
        out.push(byte)?;
        return put_exponent(out, bytes);
    }
    put_suffix_from(out, byte, bytes)
}

fn put_hex_digits(out: &mut Bytes, bytes: &[u8]) -> Result<(), Memory>
    ensures { OnOk result (out.new ≡ out.old ++ hex_digits bytes.now) }
{
    let mut rest = bytes;
    while let [byte, behind @ ..] = rest {
        if !is_hex_byte(*byte) {
            return put_behind_hex_digits(out, *byte, behind);
        }
        put_number_byte(out, *byte)?;
        rest = behind;
    }
    Ok(())
}

// A number that begins with `0`, by the byte behind that.
fn put_behind_zero(out: &mut Bytes, byte: u8, bytes: &[u8], behind: &[u8]) -> Result<(), Memory>
    requires { bytes.now ≡ byte ∷ behind.now }
    ensures { OnOk result (out.new ≡ out.old ++ behind_zero byte behind.now) }
{
    if byte == b'X' || byte == b'x' {
        out.append(b"\\^")?;
        return put_hex_digits(out, behind);
    }
    if byte == b'B' || byte == b'b' {
        out.append(b"\\\\")?;
        return put_mantissa(out, behind);
    }
    if byte.is_ascii_digit() {
        out.append(b"\\~")?;
    } else {
        out.push(b'0')?;
    }
    put_mantissa(out, bytes)
}

/// Appends what a constant prints in its braces.
pub(crate) fn put_constant(out: &mut Bytes, bytes: &[u8]) -> Result<(), Memory>
    ensures { OnOk result (out.new ≡ out.old ++ constant_bytes bytes.now) }
{
    let [first, rest @ ..] = bytes else {
        return Ok(());
    };
    let [next, behind @ ..] = rest else {
        return put_mantissa(out, bytes);
    };
    if *first == b'0' {
        return put_behind_zero(out, *next, rest, behind);
    }
    put_mantissa(out, bytes)
}
