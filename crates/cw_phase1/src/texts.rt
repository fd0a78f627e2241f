//! The texts of index entries and of section names.
ghost use Rattle.std.specs.Prelude.{◌≡◌, ◌<◌, ◌≤◌, ◌∷◌, ◌++◌, ℕ, List, [], true, drop, length, MatchOption, OnOk};
ghost use Rattle.cw_rules.specs.Bytes.{is_in};
ghost use Rattle.cw_rules.specs.Names.{uncoded};
ghost use Rattle.cw_rules.specs.declared.classes.Class.TheVariants.{White};
ghost use Rattle.cw_rules.specs.ControlTexts.{text_behind_code, text_to_end};
ghost use Rattle.cw_phase1.specs.Texts.{name_text};
ghost use Rattle.cw_phase1.specs.model.Texts.{byte_of, is_begun, rest_of};

use cw_base::Memory;

// A byte of a text that several bytes stand for.
#[derive(Clone, Copy)]
struct TextByte {
    byte: u8,
    size: usize,
}

// The first byte of a control text; None where it ends.
fn first_piece(bytes: &[u8]) -> Option<TextByte>
    requires { 0 < length bytes.now }
    ensures value { MatchOption result (text_to_end bytes.now ≡ [])
        (λ p. text_to_end bytes.now ≡ p.byte ∷ text_to_end (drop p.size bytes.now)) }
    ensures size { MatchOption result (Unit {0}) (λ p. (0 < p.size) × (p.size ≤ length bytes.now)) }
{
    let byte = bytes[0];
    if byte != b'@' || bytes.len() == 1 {
        return Some(TextByte { byte, size: 1 });
    }
    let next = bytes[1];
    if next == b'>' {
        return None;
    }
    if next == b'@' {
        return Some(TextByte { byte, size: 2 });
    }
    Some(TextByte { byte, size: 1 })
}

/// The text of an index entry, in a buffer.
pub(crate) fn entry_text(buffer: &mut Vec<u8>, token: &[u8]) -> Result<(), Memory>
    ensures { OnOk result (buffer.new.items ≡ text_behind_code token.now) }
{
    buffer.clear();
    let mut at = 2;
    while at < token.len() {
        match first_piece(&token[at..]) {
            Some(piece) => {
                buffer.push(piece.byte)?;
                at += piece.size;
            }
            None => return Ok(()),
        }
    }
    Ok(())
}

// A piece of a section name: a byte, unless it is a code that is dropped.
#[derive(Clone, Copy)]
struct NamePiece {
    byte: Option<u8>,
    size: usize,
}

fn name_piece(bytes: &[u8]) -> NamePiece
    requires { 0 < length bytes.now }
    ensures value { uncoded bytes.now ≡ byte_of result.byte ++ uncoded (drop result.size bytes.now) }
    ensures some { 0 < result.size }
    ensures within { result.size ≤ length bytes.now }
{
    let byte = bytes[0];
    if byte != b'@' {
        return NamePiece {
            byte: Some(byte),
            size: 1,
        };
    }
    if bytes.len() == 1 {
        return NamePiece {
            byte: None,
            size: 1,
        };
    }
    if bytes[1] == b'@' {
        return NamePiece {
            byte: Some(byte),
            size: 2,
        };
    }
    NamePiece {
        byte: None,
        size: 2,
    }
}

fn is_white(byte: u8) -> bool
    ensures { result ≡ is_in White byte }
{
    byte == 10 || byte == 32 || byte == 9 || byte == 11 || byte == 12 || byte == 13
}

// A byte of a name. Of white space only whether it came is kept, until another byte comes.
fn take_byte(buffer: &mut Vec<u8>, blank: &mut bool, byte: u8) -> Result<(), Memory>
    ensures { (rest : List ℕ) → OnOk result (buffer.new.items ++ rest_of (is_begun buffer.new.items) blank.new rest
        ≡ buffer.old.items ++ rest_of (is_begun buffer.old.items) blank.old (byte ∷ rest)) }
{
    if is_white(byte) {
        *blank = true;
        return Ok(());
    }
    if *blank && !buffer.is_empty() {
        buffer.push(b' ')?;
    }
    *blank = false;
    buffer.push(byte)?;
    Ok(())
}

/// The text of a section name, in a buffer: without codes, and with single blanks for its white space.
pub(crate) fn name_text(buffer: &mut Vec<u8>, token: &[u8]) -> Result<(), Memory>
    ensures { OnOk result (buffer.new.items ≡ name_text token.now) }
{
    buffer.clear();
    let mut blank = false;
    let mut at = 2;
    while at < token.len() {
        let piece = name_piece(&token[at..]);
        if let Some(byte) = piece.byte {
            take_byte(buffer, &mut blank, byte)?;
        }
        at += piece.size;
    }
    Ok(())
}
