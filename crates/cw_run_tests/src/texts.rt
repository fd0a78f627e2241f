//! Texts, made of pieces.
use cw_base::{Bytes, Memory};
use std::alloc::Global;

/// A piece of a text, and how many times it stands there.
pub(crate) type Piece<'a> = (&'a [u8], usize);

fn append_times(text: &mut Bytes, piece: &[u8], times: usize) -> Result<(), Memory> {
    for _ in 0..times {
        text.append(piece)?;
    }
    Ok(())
}

/// Appends pieces, one behind the other.
pub(crate) fn append_pieces(text: &mut Bytes, pieces: &[Piece]) -> Result<(), Memory> {
    for (piece, times) in pieces {
        append_times(text, piece, *times)?;
    }
    Ok(())
}

/// The text of these pieces.
pub(crate) fn text_of(alloc: Global, pieces: &[Piece]) -> Result<Bytes, Memory> {
    let mut text = Bytes::new_in(alloc);
    append_pieces(&mut text, pieces)?;
    Ok(text)
}
