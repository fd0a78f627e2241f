//! Laws of scraps and productions.
ghost use Rattle.cw_scraps.specs.model.Modes.{JoinsAgree};

/// The law of modes, for all pieces that agree with their modes. It does nothing: what it ensures is for proofs.
pub fn mode_law()
    ensures { JoinsAgree }
{}
