//! The file of a log, read whole.
ghost use Rattle.std.specs.Prelude.{◌<◌, IfOk, IsErrOf, Some};
ghost use Rattle.std.specs.FinMap.{get};
ghost use Rattle.cw_desk.specs.Meaning.{Files, Rose};
ghost use Rattle.cw_desk.specs.State.{OnlyReads};
ghost use Rattle.cw_input.specs.Reading.{ReadsOnly};
ghost use Rattle.cw_log.specs.model.LogFile.{IsFileOf, IsShort};

use cw_base::Bytes;
use cw_desk::{Desk, Fetched, FileId, Opened};
use cw_lines::PutError;
use std::alloc::Global;

/// How many bytes a log may have at most.
pub const LOG_LIMIT: usize = 67_108_864;

// How many bytes are asked for at a time.
const PORTION: usize = 16_384;

/// What is found of the file of a log.
#[derive(Drop)]
pub(crate) enum LogFile {
    Missing,
    TooLong,
    Whole(Bytes),
}

/// Looks for a file and, where it is there, reads it, up to one byte past the limit.
pub(crate) fn read_log<D: Desk>(
    alloc: Global,
    desk: &mut D,
    name: &[u8],
) -> Result<LogFile, PutError>
    ensures finds { (files : Files) → (D.told desk.new).agrees files →
        IfOk result (λ file. IsFileOf (get files name.now) file) }
    ensures short { IfOk result IsShort }
    ensures same { OnlyReads (D.told desk.old) (D.told desk.new) }
    ensures fault { IsErrOf result PutError.Fault → Rose (D.told desk.old).faults (D.told desk.new).faults }
{
    match desk.open(name) {
        Opened::File(id) => read_file(alloc, desk, id),
        Opened::Missing => Ok(LogFile::Missing),
        Opened::Failed => Err(PutError::Fault),
        Opened::Memory => Err(PutError::Memory),
    }
}

// Reads an opened file to its end, if it isn't too long.
fn read_file<D: Desk>(alloc: Global, desk: &mut D, id: FileId) -> Result<LogFile, PutError>
    requires { id.index < (D.told desk.old).opened }
    ensures reads { (files : Files) → (D.told desk.new).agrees files →
        IfOk result (λ file. IsFileOf (Some ((D.told desk.old).rest files id.index)) file) }
    ensures short { IfOk result IsShort }
    ensures same { ReadsOnly id.index (D.told desk.old) (D.told desk.new) }
    ensures fault { IsErrOf result PutError.Fault → Rose (D.told desk.old).faults (D.told desk.new).faults }
{
    let mut bytes = Bytes::new_in(alloc);
    let mut portion = [0; PORTION];
    'reading: while bytes.len() <= LOG_LIMIT {
        let wanted = PORTION.min(LOG_LIMIT - bytes.len() + 1);
        match desk.read(id, &mut portion[..wanted]) {
            Fetched::Got(count) => bytes.append(&portion[..count])?,
            Fetched::End => return Ok(LogFile::Whole(bytes)),
            Fetched::Failed => return Err(PutError::Fault),
            Fetched::Memory => return Err(PutError::Memory),
        }
    }
    Ok(LogFile::TooLong)
}
