//! What a journal tells.
use cw_base::{Bytes, Event, Memory};
use std::alloc::Global;

fn append_written(text: &mut Bytes, journal: &[Event]) -> Result<(), Memory> {
    for event in journal {
        if let Event::Byte(_, byte) = event {
            text.push(*byte)?;
        }
    }
    Ok(())
}

/// All bytes that were written, on the terminal as in files.
pub fn written(alloc: Global, journal: &[Event]) -> Result<Bytes, Memory> {
    let mut text = Bytes::new_in(alloc);
    append_written(&mut text, journal).and(Ok(text))
}
