//! A line of output together with the desk that its lines go to.
ghost use Rattle.std.specs.Prelude.{◌∷◌, []};
ghost use Rattle.cw_lines.specs.Sheets.{CanPrint, Prints};

use crate::line_out::LineOut;
use crate::put_error::PutError;
use cw_desk::Desk;

/// A line of output, and the desk that its lines go to.
#[derive(Drop)]
pub struct Sheet<'a, D: Desk> {
    /// The line that is filled.
    pub line: &'a mut LineOut,
    /// The desk that it is written to.
    pub desk: &'a mut D,
}

impl<D: Desk> Sheet<'_, D> {
    /// Puts one byte to the line.
    pub fn put(&mut self, byte: u8) -> Result<(), PutError>
        requires can { CanPrint D.told self.old }
        ensures { Prints D.told (byte ∷ []) self.old self.new result }
    {
        self.line.put(byte, self.desk)
    }

    /// Puts bytes to the line.
    pub fn put_all(&mut self, bytes: &[u8]) -> Result<(), PutError>
        requires can { CanPrint D.told self.old }
        ensures { Prints D.told bytes.now self.old self.new result }
    {
        self.line.put_all(bytes, self.desk)
    }

    /// Ends the line.
    pub fn end_line(&mut self) -> Result<(), PutError>
        requires can { CanPrint D.told self.old }
        ensures { Prints D.told (10 ∷ []) self.old self.new result }
    {
        self.line.end_line(self.desk)
    }
}
