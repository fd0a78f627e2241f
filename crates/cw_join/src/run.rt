//! What is kept of a run of breaks, blanks, indents and the like.
ghost use Rattle.std.specs.Prelude.{◌≡◌, false, max};
ghost use Rattle.std.specs.Bool.{OnTrue};
ghost use Rattle.cw_trees.specs.Printing.{break_bytes, indent_bytes, is_backup as is_backup_sign};
ghost use Rattle.cw_trees.specs.Printing.{is_cancel as is_cancel_sign, run_sign, strength};
ghost use Rattle.cw_tokens.specs.FlatItems.{item_is};
ghost use Rattle.cw_join.specs.model.Runs.{backs, pause_bytes, run_more, state_of, strength_of};

use cw_tokens::FlatItem;
use cw_trees::Control;

/// A break or a blank, the weaker before the stronger.
#[derive(Clone, Copy)]
pub(crate) enum Pause {
    Nothing,
    Blank,
    OptionalBreak,
    Break,
    BigBreak,
}

/// What is kept of a run: of one that has begun the strongest break or blank, and whether it has a Cancel and a Backup.
/// Most have neither.
#[derive(Clone, Copy)]
pub(crate) enum ControlRun {
    Empty,
    Plain(Pause),
    Marked {
        pause: Pause,
        cancelled: bool,
        backed: bool,
    },
}

impl Pause {
    fn of(control: Control) -> Pause
        ensures { strength_of result ≡ strength control }
    {
        match control {
            Control::BigBreak => Pause::BigBreak,
            Control::Break => Pause::Break,
            Control::OptionalBreak => Pause::OptionalBreak,
            Control::Blank => Pause::Blank,
            _ => Pause::Nothing,
        }
    }

    fn strength(self) -> u8
        ensures { result ≡ strength_of self }
    {
        match self {
            Pause::Nothing => 0,
            Pause::Blank => 1,
            Pause::OptionalBreak => 2,
            Pause::Break => 3,
            Pause::BigBreak => 4,
        }
    }

    fn stronger(self, other: Pause) -> Pause
        ensures { strength_of result ≡ max (strength_of self) (strength_of other) }
    {
        if self.strength() < other.strength() {
            other
        } else {
            self
        }
    }

    pub(crate) fn bytes(self) -> &'static [u8]
        ensures { result.now ≡ break_bytes (strength_of self) }
    {
        match self {
            Pause::Nothing => b"",
            Pause::Blank => b" ",
            Pause::OptionalBreak => b"\\5",
            Pause::Break => b"\\6\n",
            Pause::BigBreak => b"\\7\n",
        }
    }

    /// The same in inner C text or outside.
    pub(crate) fn bytes_in(self, inner: bool) -> &'static [u8]
        ensures { result.now
            ≡ pause_bytes inner (record { strength = strength_of self; cancelled = false; backed = false }) }
    {
        if !inner {
            return self.bytes();
        }
        if self.strength() > 0 { b" " } else { b"" }
    }
}

impl ControlRun {
    /// A run of no controls.
    pub(crate) fn new() -> ControlRun
        ensures { state_of result ≡ record { strength = 0; cancelled = false; backed = false } }
    {
        ControlRun::Empty
    }

    /// Whether it has no control, and so prints nothing when it has ended.
    #[inline(always)]
    pub(crate) fn is_empty(self) -> bool
        ensures { OnTrue result (state_of self ≡ record { strength = 0; cancelled = false; backed = false }) }
    {
        matches!(self, ControlRun::Empty)
    }

    /// Adds a control, in place: most runs end after one or two.
    #[inline(always)]
    pub(crate) fn add(&mut self, control: Control)
        ensures { state_of self.new ≡ run_more (state_of self.old) control }
    {
        match control {
            Control::Blank | Control::OptionalBreak | Control::Break | Control::BigBreak => {
                self.add_pause(Pause::of(control));
            }
            Control::Cancel | Control::Backup => self.add_mark(control),
            _ => {}
        }
    }

    #[inline(always)]
    fn add_pause(&mut self, other: Pause)
        ensures { state_of self.new ≡ record (state_of self.old) {
          strength = max (state_of self.old).strength (strength_of other);
        } }
    {
        match self {
            ControlRun::Empty => {
                *self = ControlRun::Plain(other);
            }
            ControlRun::Plain(pause) => {
                *pause = pause.stronger(other);
            }
            ControlRun::Marked { pause, .. } => {
                *pause = pause.stronger(other);
            }
        }
    }

    // It stands apart, since few controls are a Cancel or a Backup.
    #[inline(never)]
    fn add_mark(&mut self, control: Control)
        requires { strength control ≡ 0 }
        ensures { state_of self.new ≡ run_more (state_of self.old) control }
    {
        match self {
            ControlRun::Empty => {
                *self = ControlRun::marked(Pause::Nothing, control);
            }
            ControlRun::Plain(pause) => {
                let pause = *pause;
                *self = ControlRun::marked(pause, control);
            }
            ControlRun::Marked {
                cancelled,
                backed,
                ..
            } => {
                *cancelled = *cancelled || is_cancel(control);
                *backed = *backed || is_backup(control);
            }
        }
    }

    // The run of a break or a blank and of a control that is neither.
    fn marked(pause: Pause, control: Control) -> ControlRun
        ensures { state_of result ≡ record {
          strength = strength_of pause;
          cancelled = is_cancel_sign control;
          backed = is_backup_sign control;
        } }
    {
        ControlRun::Marked {
            pause,
            cancelled: is_cancel(control),
            backed: is_backup(control),
        }
    }

    /// The break or blank that it prints when it has ended.
    pub(crate) fn pause(self, inner: bool) -> &'static [u8]
        ensures { result.now ≡ pause_bytes inner (state_of self) }
    {
        match self {
            ControlRun::Plain(pause) => pause.bytes_in(inner),
            ControlRun::Marked {
                pause,
                cancelled,
                ..
            } if !cancelled => pause.bytes_in(inner),
            _ => b"",
        }
    }

    /// Whether it then moves the line to the left.
    pub(crate) fn backs(self, inner: bool) -> bool
        ensures { result ≡ backs inner (state_of self) }
    {
        match self {
            ControlRun::Marked {
                cancelled,
                backed,
                ..
            } => !inner && !cancelled && backed,
            ControlRun::Empty | ControlRun::Plain(_) => false,
        }
    }
}

fn is_cancel(control: Control) -> bool
    ensures { result ≡ is_cancel_sign control }
{
    match control {
        Control::Cancel => true,
        _ => false,
    }
}

fn is_backup(control: Control) -> bool
    ensures { result ≡ is_backup_sign control }
{
    match control {
        Control::Backup => true,
        _ => false,
    }
}

/// What an indent or an outdent prints.
pub(crate) fn indent(control: Control) -> &'static [u8]
    ensures { result.now ≡ indent_bytes control }
{
    match control {
        Control::Indent => b"\\1",
        Control::Outdent => b"\\2",
        _ => b"",
    }
}

/// The control of an item that goes into a run.
pub(crate) fn run_control(item: FlatItem) -> Option<Control>
    ensures { result ≡ run_sign (item_is item) }
{
    match item {
        FlatItem::Control(control) => match control {
            Control::Blank
            | Control::OptionalBreak
            | Control::Break
            | Control::BigBreak
            | Control::Cancel
            | Control::Backup
            | Control::Indent
            | Control::Outdent => Some(control),
            _ => None,
        },
        _ => None,
    }
}
