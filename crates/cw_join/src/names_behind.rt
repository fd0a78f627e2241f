//! The bytes of names, behind others in memory.
ghost use Rattle.std.specs.Prelude.{◌≡◌, ◌<◌, ◌++◌, OnOk, OnErr, length};
ghost use Rattle.cw_trees.specs.Printing.{ident_bytes, name_bytes, reserved_bytes};
ghost use Rattle.cw_join.specs.Appending.{StaysBefore};
ghost use Rattle.cw_join.specs.Tokens.{macro_bytes, word_at};

use crate::naming::{font, is_macro, is_marked, macro_letter, text_of};
use cw_base::{Bytes, Memory};
use cw_names::{NameId, Names};

/// Appends an identifier, which may be a macro of TeX.
#[inline(always)]
pub(crate) fn append_ident_of(names: &Names, name: NameId, out: &mut Bytes) -> Result<(), Memory>
    requires { name.index < length names.now }
    ensures bytes { OnOk result (out.new ≡ out.old ++ word_at ident_bytes names.now name.index) }
    ensures stays { OnErr result (StaysBefore out.old out.new) }
{
    let text = text_of(names, name);
    if is_macro(names, name) {
        return append_macro(text, out);
    }
    append_ident(text, out)
}

/// Appends a reserved word, which may be a macro of TeX.
#[inline(always)]
pub(crate) fn append_reserved_of(names: &Names, name: NameId, out: &mut Bytes) -> Result<(), Memory>
    requires { name.index < length names.now }
    ensures bytes { OnOk result (out.new ≡ out.old ++ word_at reserved_bytes names.now name.index) }
    ensures stays { OnErr result (StaysBefore out.old out.new) }
{
    let text = text_of(names, name);
    if is_macro(names, name) {
        return append_macro(text, out);
    }
    append_reserved(text, out)
}

// Appends the name of a macro of TeX. It stands apart, since few names are one. It is marked as rare: else the compiler
// takes what appends other names for rare, and calls a function for each of their bytes.
#[cold]
#[inline(never)]
fn append_macro(name: &[u8], out: &mut Bytes) -> Result<(), Memory>
    ensures bytes { OnOk result (out.new ≡ out.old ++ macro_bytes name.now) }
    ensures stays { OnErr result (StaysBefore out.old out.new) }
{
    out.push(b'\\')?;
    for byte in name {
        out.push(macro_letter(*byte))?;
    }
    Ok(())
}

// Appends an identifier that is no macro.
#[inline(always)]
fn append_ident(name: &[u8], out: &mut Bytes) -> Result<(), Memory>
    ensures bytes { OnOk result (out.new ≡ out.old ++ ident_bytes name.now) }
    ensures stays { OnErr result (StaysBefore out.old out.new) }
{
    if name.len() == 1 {
        append_few(b"\\|", out)?;
        return append_name(name, out);
    }
    append_few(font(name), out)?;
    append_name(name, out)?;
    append_few(b"}", out)
}

// Appends a reserved word that is no macro.
#[inline(always)]
fn append_reserved(name: &[u8], out: &mut Bytes) -> Result<(), Memory>
    ensures bytes { OnOk result (out.new ≡ out.old ++ reserved_bytes name.now) }
    ensures stays { OnErr result (StaysBefore out.old out.new) }
{
    append_few(b"\\&{", out)?;
    append_name(name, out)?;
    out.push(b'}')
}

/// Appends bytes one by one: of two or three that takes less than a copy of them together.
#[inline(always)]
pub(crate) fn append_few(bytes: &[u8], out: &mut Bytes) -> Result<(), Memory>
    ensures bytes { OnOk result (out.new ≡ out.old ++ bytes.now) }
    ensures stays { OnErr result (StaysBefore out.old out.new) }
{
    for byte in bytes {
        out.push(*byte)?;
    }
    Ok(())
}

// Appends the bytes of a name; `_` and `$` have a backslash.
#[inline(always)]
fn append_name(name: &[u8], out: &mut Bytes) -> Result<(), Memory>
    ensures bytes { OnOk result (out.new ≡ out.old ++ name_bytes name.now) }
    ensures stays { OnErr result (StaysBefore out.old out.new) }
{
    for byte in name {
        if is_marked(*byte) {
            out.push(b'\\')?;
        }
        out.push(*byte)?;
    }
    Ok(())
}
