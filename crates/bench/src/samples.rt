//! The texts of samples, which repeat a piece up to a size.
use std::alloc::{AllocError, Global};

/// The size where no word gives one.
pub(crate) const SMALL: usize = 10_000;

/// The greatest size that a text of the scanner may have.
pub(crate) const LARGEST: usize = 16_777_216;

/// Ordinary C.
pub(crate) const ORDINARY: &[u8] =
    b"for (i = 0; i < count; i++) {\n    total += values[i] * 0x1f; /* the |sum| so far */\n}\n";

/// Whether the part or the sample of a name is wanted: each is, where no word says which.
pub(crate) fn is_wanted(word: Option<&str>, name: &str) -> bool {
    match word {
        Some(word) => word.as_bytes() == name.as_bytes(),
        None => true,
    }
}

/// The digits of a number of five digits.
pub(crate) fn put_number(text: &mut Vec<u8>, number: usize) -> Result<(), AllocError> {
    for divisor in [10_000usize, 1_000, 100, 10, 1] {
        text.push(b'0' + (number / divisor % 10) as u8)?;
    }
    Ok(())
}

/// A piece again and again, with its number or without, up to a size.
pub(crate) fn repeated(
    alloc: Global,
    size: usize,
    begin: &[u8],
    numbered: bool,
    end: &[u8],
) -> Result<Vec<u8>, AllocError> {
    let mut text = Vec::with_capacity(alloc, size)?;
    for number in 0..size {
        if text.len() >= size {
            return Ok(text);
        }
        text.extend_from_slice(begin)?;
        if numbered {
            put_number(&mut text, number)?;
        }
        text.extend_from_slice(end)?;
    }
    Ok(text)
}
