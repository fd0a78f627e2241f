//! How a run of the program ends, and the status of its process.
ghost use Rattle.std.specs.Prelude.{◌≡◌};
ghost use Rattle.cw_base.specs.model.Exit.{code_of};

/// How a run of the program ends.
#[derive(Clone, Copy, Debug, PartialEq, Eq)]
pub enum Exit {
    /// There was no note, or there were harmless notes only.
    Clean,
    /// There was a note of grade Error, a fault in the command line, or input that can't be read.
    Errors,
    /// A device failed.
    Fault,
    /// Out of memory.
    Memory,
}

impl Exit {
    /// The status with which the process ends: 0, 1, 2 or 3, in the order of the variants.
    pub fn code(&self) -> u8
        ensures { result ≡ code_of self.now }
    {
        match self {
            Exit::Clean => 0,
            Exit::Errors => 1,
            Exit::Fault => 2,
            Exit::Memory => 3,
        }
    }
}
