//! How a run ends.
ghost use Rattle.std.specs.Prelude.{◌≡◌};
ghost use Rattle.cw_run.specs.model.Ending.{status_of};

use cw_base::Exit;
use cw_lines::PutError;

/// The status of a run that may have been refused.
pub fn status_of(ended: Result<Exit, PutError>) -> Exit
    ensures { result ≡ status_of ended }
{
    match ended {
        Ok(exit) => exit,
        Err(PutError::Fault) => Exit::Fault,
        Err(PutError::Memory) => Exit::Memory,
    }
}
