//! That worked webs have their plain texts.
use crate::plain_rows::{ROWS, Row};
use crate::programs::Program;
use cw_base::{Bytes, Exit, Memory};
use std::alloc::Global;
use std::test::Fail;

/// What is written of a web with its changes.
fn seen(alloc: Global, row: &Row) -> Result<(Bytes, Exit), Memory> {
    let files: [(&[u8], &[u8]); 2] = [(b"foo.w", row.web), (b"foo.ch", row.change)];
    let change: &[u8] = if row.change.is_empty() {
        b"-"
    } else {
        b"foo.ch"
    };
    let (text, exit, _) = Program::Plain.told(alloc, &[b"foo", change, b"out"], &files)?;
    Ok((text, exit))
}

/// What has to be told: the file is made, and has these bytes.
fn told(alloc: Global, row: &Row) -> Result<Bytes, Memory> {
    let mut text = Bytes::from_slice(alloc, b"[tex]out\n")?;
    text.append(row.file)?;
    Ok(text)
}

#[test]
fn worked_webs_have_their_plain_texts(rt: HostRuntime) -> Result<(), Fail> {
    let alloc = rt.alloc();
    for row in &ROWS {
        let (text, exit) = seen(alloc, row)?;
        let told = told(alloc, row)?;
        assert_eq!(rt; (text.as_slice(), exit), (told.as_slice(), Exit::Clean));
    }
    Ok(())
}
