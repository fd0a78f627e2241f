//! The first block of a log, read and written again.
use cw_base::{Bytes, Memory};
use cw_logs::{append_block, judge, read_block};
use cw_names::Names;
use std::alloc::Global;
use std::test::Fail;

const LOG: &[u8] = b"text 2\nb exp x\ns semi\nP8 0\nend\ntext 1\nc dead f x\nend\n";

const FIRST: &[u8] = b"text 2\nb exp x\ns semi\nP8 0\nend\n";

/// The first block of a log as it is written, how many names it has added, and how many bytes stand behind it. Nothing
/// comes of an empty file, or of one that is no log.
fn first_block(alloc: Global, log: &[u8]) -> Result<(Bytes, [usize; 2]), Memory> {
    let mut text = Bytes::new_in(alloc);
    let Ok(()) = judge(log) else {
        return Ok((text, [0; 2]));
    };
    if log.is_empty() {
        return Ok((text, [0; 2]));
    }
    let mut names = Names::with_words(alloc)?;
    let known = names.len();
    let block = read_block(alloc, log, &mut names)?;
    append_block(&mut text, &names, &block.log)?;
    Ok((text, [names.len().saturating_sub(known), block.rest.len()]))
}

#[test]
fn a_block_is_read_and_written_again(rt: HostRuntime) -> Result<(), Fail> {
    let (text, sizes) = first_block(rt.alloc(), LOG)?;
    assert_eq!(rt; (text.as_slice(), sizes), (FIRST, [1, 22]));
    Ok(())
}
