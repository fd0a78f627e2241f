//! The bytes of names.
ghost use Rattle.std.specs.Prelude.{◌≡◌, ◌+◌, ◌<◌, ◌≤◌, ◌∷◌, ◌++◌, codes, drop, length, map};
ghost use Rattle.std.specs.List.{list_any, position_or_len};
ghost use Rattle.cw_trees.specs.Printing.{ident_bytes, is_lower, name_bytes, reserved_bytes};
ghost use Rattle.cw_lines.specs.Sheets.{CanPrint, Prints};
ghost use Rattle.cw_join.specs.Tokens.{category_at, is_tex_like, macro_bytes};
ghost use Rattle.cw_join.specs.model.Tokens.{BeginsMarked, font_bytes, is_marked};
ghost use Rattle.cw_join.specs.Tokens.{macro_letter, text_at, word_at};

use crate::short_names::{LONGEST, short_ident};
use cw_base::Cat;
use cw_desk::Desk;
use cw_lines::{PutError, Sheet};
use cw_names::{NameId, Names};

/// The text of a name.
pub(crate) fn text_of(names: &Names, name: NameId) -> &[u8]
    requires { name.index < length names.now }
    ensures { result.now ≡ text_at names.now name.index }
{
    names.text(name)
}

/// Whether a name is a macro of TeX.
pub(crate) fn is_macro(names: &Names, name: NameId) -> bool
    requires { name.index < length names.now }
    ensures { result ≡ is_tex_like (category_at names.now name.index) }
{
    matches!(names.category(name), Cat::TexLike)
}

/// Puts an identifier, which may be a macro of TeX.
pub fn put_ident_of<D: Desk>(
    names: &Names,
    name: NameId,
    sheet: &mut Sheet<D>,
) -> Result<(), PutError>
    requires can { CanPrint D.told sheet.old }
    requires named { name.index < length names.now }
    ensures { Prints D.told (word_at ident_bytes names.now name.index) sheet.old sheet.new result }
{
    let text = text_of(names, name);
    if is_macro(names, name) {
        return put_macro(text, sheet);
    }
    put_ident(text, sheet)
}

/// Puts a reserved word, which may be a macro of TeX.
pub fn put_reserved_of<D: Desk>(
    names: &Names,
    name: NameId,
    sheet: &mut Sheet<D>,
) -> Result<(), PutError>
    requires can { CanPrint D.told sheet.old }
    requires named { name.index < length names.now }
    ensures { Prints D.told (word_at reserved_bytes names.now name.index) sheet.old sheet.new result }
{
    let text = text_of(names, name);
    if is_macro(names, name) {
        return put_macro(text, sheet);
    }
    put_reserved(text, sheet)
}

// Puts the name of a macro of TeX.
fn put_macro<D: Desk>(name: &[u8], sheet: &mut Sheet<D>) -> Result<(), PutError>
    requires can { CanPrint D.told sheet.old }
    ensures { Prints D.told (macro_bytes name.now) sheet.old sheet.new result }
{
    sheet.put_all(b"\\")?;
    put_letters(name, sheet)
}

// Puts the letters of a macro of TeX, one by one.
fn put_letters<D: Desk>(name: &[u8], sheet: &mut Sheet<D>) -> Result<(), PutError>
    requires can { CanPrint D.told sheet.old }
    ensures { Prints D.told (map macro_letter name.now) sheet.old sheet.new result }
{
    'letters: for byte in name {
        sheet.put_all(&[macro_letter(*byte)])?;
    }
    Ok(())
}

/// The letter that stands for a byte of a name in the macro of that name.
pub(crate) fn macro_letter(byte: u8) -> u8
    ensures { result ≡ macro_letter byte }
{
    match byte {
        b'_' => b'x',
        b'$' => b'X',
        _ => byte,
    }
}

// Puts an identifier that is no macro.
fn put_ident<D: Desk>(name: &[u8], sheet: &mut Sheet<D>) -> Result<(), PutError>
    requires can { CanPrint D.told sheet.old }
    ensures { Prints D.told (ident_bytes name.now) sheet.old sheet.new result }
{
    if name.len() <= LONGEST {
        return sheet.put_all(short_ident(name).as_slice());
    }
    put_word(font(name), name, sheet)
}

// Puts a reserved word that is no macro.
fn put_reserved<D: Desk>(name: &[u8], sheet: &mut Sheet<D>) -> Result<(), PutError>
    requires can { CanPrint D.told sheet.old }
    ensures { Prints D.told (reserved_bytes name.now) sheet.old sheet.new result }
{
    put_word(b"\\&{", name, sheet)
}

// Puts a name in braces, behind the macro of its font.
fn put_word<D: Desk>(font: &[u8], name: &[u8], sheet: &mut Sheet<D>) -> Result<(), PutError>
    requires can { CanPrint D.told sheet.old }
    ensures { Prints D.told (font.now ++ name_bytes name.now ++ codes "}") sheet.old sheet.new result }
{
    sheet.put_all(font)?;
    put_name(name, sheet)?;
    sheet.put_all(b"}")
}

/// The macro of names with lower case letters, or of names without.
pub(crate) fn font(name: &[u8]) -> &'static [u8]
    ensures { result.now ≡ font_bytes (list_any is_lower name.now) }
{
    if has_lower(name) { b"\\\\{" } else { b"\\.{" }
}

fn has_lower(name: &[u8]) -> bool
    ensures { result ≡ list_any is_lower name.now }
{
    for byte in name {
        if (*byte >= b'a' && *byte <= b'z') || *byte >= 128 {
            return true;
        }
    }
    false
}

// Puts the bytes of a name; `_` and `$` have a backslash. What stands between them goes to the line whole.
fn put_name<D: Desk>(name: &[u8], sheet: &mut Sheet<D>) -> Result<(), PutError>
    requires can { CanPrint D.told sheet.old }
    ensures { Prints D.told (name_bytes name.now) sheet.old sheet.new result }
{
    let size = plain_size(name);
    let (first, rest) = name.split_at(size);
    sheet.put_all(first)?;
    put_pieces(rest, sheet)
}

// Puts the rest of a name, piece by piece: each begins with a byte that has a backslash.
fn put_pieces<D: Desk>(bytes: &[u8], sheet: &mut Sheet<D>) -> Result<(), PutError>
    requires can { CanPrint D.told sheet.old }
    requires begins { BeginsMarked bytes.now }
    ensures { Prints D.told (name_bytes bytes.now) sheet.old sheet.new result }
{
    let mut rest = bytes;
    'pieces: while !rest.is_empty() {
        let size = piece_size(rest);
        let (piece, behind) = rest.split_at(size);
        put_marked(piece, sheet)?;
        rest = behind;
    }
    Ok(())
}

// Puts bytes with a backslash before them.
fn put_marked<D: Desk>(bytes: &[u8], sheet: &mut Sheet<D>) -> Result<(), PutError>
    requires can { CanPrint D.told sheet.old }
    ensures { Prints D.told (92 ∷ bytes.now) sheet.old sheet.new result }
{
    sheet.put_all(b"\\")?;
    sheet.put_all(bytes)
}

// How many bytes come before the next one with a backslash, the first one aside.
fn piece_size(bytes: &[u8]) -> usize
    requires { 0 < length bytes.now }
    ensures size { result ≡ 1 + position_or_len is_marked (drop 1 bytes.now) }
    ensures within { result ≤ length bytes.now }
{
    1 + plain_size(&bytes[1..])
}

/// Whether a byte has a backslash in a name.
pub(crate) fn is_marked(byte: u8) -> bool
    ensures { result ≡ is_marked byte }
{
    byte == b'_' || byte == b'$'
}

// How many bytes come before the first one with a backslash.
fn plain_size(bytes: &[u8]) -> usize
    ensures size { result ≡ position_or_len is_marked bytes.now }
    ensures within { result ≤ length bytes.now }
{
    for (i, byte) in bytes.iter().enumerate() {
        if is_marked(*byte) {
            return i;
        }
    }
    bytes.len()
}
