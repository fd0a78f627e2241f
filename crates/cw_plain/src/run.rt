//! What is kept of a run of breaks, blanks, indents and the like.
ghost use Rattle.std.specs.Prelude.{◌≡◌};
ghost use Rattle.cw_trees.specs.Flat.{is_run_sign};
ghost use Rattle.cw_trees.specs.Printing.{strength};
ghost use Rattle.cw_join.specs.model.Runs.{run_more};
ghost use Rattle.cw_plain.specs.model.Laying.{ended_strength, no_run};

use cw_trees::Control;
use std::marker::Model;

/// How strong the strongest break or blank of a run is, 0 where it has none, and whether it has a Cancel and a Backup.
#[derive(Drop)]
pub(crate) struct ControlRun {
    strength: u8,
    cancelled: bool,
    backed: bool,
}

impl Model for ControlRun {
    ghost use Rattle.cw_join.specs.Runs.{RunState};

    ghost Value = { RunState };

    ghost view = { λ r. record { strength = r.strength; cancelled = r.cancelled; backed = r.backed } };
}

impl ControlRun {
    /// A run of no controls.
    pub(crate) fn new() -> ControlRun
        ensures { result ≡ no_run }
    {
        ControlRun {
            strength: 0,
            cancelled: false,
            backed: false,
        }
    }

    /// Adds a control.
    pub(crate) fn add(&mut self, control: Control)
        ensures { self.new ≡ run_more self.old control }
    {
        self.strength = self.strength.max(strength(control));
        self.cancelled = self.cancelled || control == Control::Cancel;
        self.backed = self.backed || control == Control::Backup;
    }

    /// How strong the break or blank is that it prints when it has ended: 0 with a Cancel.
    pub(crate) fn ended(&self) -> u8
        ensures { result ≡ ended_strength self.now }
    {
        if self.cancelled { 0 } else { self.strength }
    }

    /// Whether it has a Backup.
    pub(crate) fn is_backed(&self) -> bool
        ensures { result ≡ self.now.backed }
    {
        self.backed
    }
}

fn strength(control: Control) -> u8
    ensures { result ≡ strength control }
{
    match control {
        Control::BigBreak => 4,
        Control::Break => 3,
        Control::OptionalBreak => 2,
        Control::Blank => 1,
        _ => 0,
    }
}

/// Whether a control goes into a run.
pub(crate) fn is_run(control: Control) -> bool
    ensures { result ≡ is_run_sign control }
{
    matches!(
        control,
        Control::Blank
            | Control::OptionalBreak
            | Control::Break
            | Control::BigBreak
            | Control::Cancel
            | Control::Backup
            | Control::Indent
            | Control::Outdent
    )
}
