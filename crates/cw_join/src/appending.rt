//! The joining of items behind bytes in memory, which go to a line together.
ghost use Rattle.std.specs.Prelude.{◌≡◌, ◌∷◌, ◌++◌, [], false, IfSome, List, OnOk, OnErr, length};
ghost use Rattle.std.specs.Bool.{OnFalse};
ghost use Rattle.cw_trees.specs.declared.Control.TheVariants.{OpenRelation};
ghost use Rattle.cw_trees.specs.Printing.{Printable, break_bytes, indent_bytes, opened};
ghost use Rattle.cw_tokens.specs.FlatItems.{item_is};
ghost use Rattle.cw_join.specs.Appending.{StaysBefore};
ghost use Rattle.cw_join.specs.Early.{added, late, run_front};
ghost use Rattle.cw_join.specs.Runs.{run_state};
ghost use Rattle.cw_join.specs.model.Runs.{run_more, state_back, strength_of};
ghost use Rattle.cw_join.specs.Standing.{Stands};
ghost use Rattle.cw_join.specs.Stretches.{is_inner};
ghost use Rattle.cw_join.specs.Tokens.{CanCome, IsNamed, alone, control_bytes, item_bytes};
ghost use Rattle.cw_join.specs.model.Tokens.{PrintsByte};

use crate::joiner::{Joiner, depth_behind, step};
use crate::names_behind::{append_few, append_ident_of, append_reserved_of};
use crate::pieces::sign;
use crate::run::{ControlRun, Pause, run_control};
use cw_base::{Bytes, Memory};
use cw_names::Names;
use cw_tokens::FlatItem;
use cw_trees::Control;

impl Joiner {
    /// Appends what `push` would put of an item whose given bytes are none: those go behind it. After an `Err` the
    /// joiner is not to be used again, and what stood in `out` stands there, maybe with some of the item's bytes
    /// behind.
    #[inline(always)]
    pub fn append(&mut self, item: FlatItem, names: &Names, out: &mut Bytes) -> Result<(), Memory>
        requires come { CanCome (length names.now) self.old.depth item }
        ensures bytes { (ps : List Printable) → Stands self.old ps
            → OnOk result (out.new ≡ out.old ++ added self.old.inner ps (alone names.now item)) }
        ensures stands { (ps : List Printable) (p : Printable) → Stands self.old ps → p.item ≡ item_is item
            → OnOk result (Stands self.new (ps ++ p ∷ [])) }
        ensures inner { OnOk result (self.new.inner ≡ self.old.inner) }
        ensures stays { OnErr result (StaysBefore out.old out.new) }
    {
        if let Some(byte) = lone_byte(item) {
            return self.append_byte(byte, out);
        }
        match run_control(item) {
            Some(control) => self.append_control(control, out),
            None => self.append_other(item, names, out),
        }
    }

    /// Appends what a run at the end has still to print. The joiner is then as new.
    pub fn append_end(&mut self, out: &mut Bytes) -> Result<(), Memory>
        requires closed { self.old.depth ≡ 0 }
        ensures bytes { (ps : List Printable) → Stands self.old ps
            → OnOk result (out.new ≡ out.old ++ late self.old.inner ps) }
        ensures stands { OnOk result (Stands self.new []) }
        ensures inner { OnOk result (self.new.inner ≡ self.old.inner) }
        ensures stays { OnErr result (StaysBefore out.old out.new) }
    {
        self.append_rare_run(out)?;
        self.run = ControlRun::new();
        Ok(())
    }

    // A control goes into the run.
    #[inline(always)]
    fn append_control(&mut self, control: Control, out: &mut Bytes) -> Result<(), Memory>
        ensures bytes { OnOk result (out.new
            ≡ out.old ++ run_front (is_inner self.old.inner self.old.depth) (control ∷ [])) }
        ensures state { OnOk result (self.new ≡ record self.old { run = run_more self.old.run control }) }
        ensures stays { OnErr result (StaysBefore out.old out.new) }
    {
        self.run.add(control);
        if is_indent(control) {
            return append_indent(control, self.is_inner(), out);
        }
        Ok(())
    }

    // Appends what the run prints when it has ended. Most print a blank.
    #[inline(always)]
    fn append_run(&self, out: &mut Bytes) -> Result<(), Memory>
        ensures bytes { OnOk result (out.new
            ≡ out.old ++ state_back (is_inner self.now.inner self.now.depth) self.now.run) }
        ensures stays { OnErr result (StaysBefore out.old out.new) }
    {
        match self.run {
            ControlRun::Plain(Pause::Blank) => out.push(b' '),
            ControlRun::Plain(pause) if !self.is_inner() => append_break(pause, out),
            ControlRun::Marked {
                cancelled: true,
                ..
            } => Ok(()),
            _ => self.append_rare_run(out),
        }
    }

    // The same of a run that may have a Cancel or a Backup, or stand in inner text. It stands apart, since few do.
    #[inline(never)]
    fn append_rare_run(&self, out: &mut Bytes) -> Result<(), Memory>
        ensures bytes { OnOk result (out.new
            ≡ out.old ++ state_back (is_inner self.now.inner self.now.depth) self.now.run) }
        ensures stays { OnErr result (StaysBefore out.old out.new) }
    {
        let inner = self.is_inner();
        append_few(self.run.pause(inner), out)?;
        append_few(step(self.run.backs(inner)), out)
    }

    // Any other item ends the run.
    #[inline(always)]
    fn append_other(&mut self, item: FlatItem, names: &Names, out: &mut Bytes) -> Result<(), Memory>
        requires come { CanCome (length names.now) self.old.depth item }
        ensures bytes { OnOk result (out.new ≡ out.old
            ++ (state_back (is_inner self.old.inner self.old.depth) self.old.run ++ item_bytes names.now item [])) }
        ensures state { OnOk result (self.new ≡ record self.old {
          depth = opened self.old.depth (item_is item);
          run = run_state [];
        }) }
        ensures stays { OnErr result (StaysBefore out.old out.new) }
    {
        self.finish_run(out)?;
        append_item(item, names, out)?;
        self.depth = depth_behind(self.depth, item);
        Ok(())
    }

    // So does a control of one byte.
    #[inline(always)]
    fn append_byte(&mut self, byte: u8, out: &mut Bytes) -> Result<(), Memory>
        ensures bytes { OnOk result (out.new ≡ out.old
            ++ (state_back (is_inner self.old.inner self.old.depth) self.old.run ++ byte ∷ [])) }
        ensures state { OnOk result (self.new ≡ record self.old { run = run_state [] }) }
        ensures stays { OnErr result (StaysBefore out.old out.new) }
    {
        self.finish_run(out)?;
        out.push(byte)
    }

    // Appends what the run has still to print, if there is one. The next item begins a new one.
    #[inline(always)]
    fn finish_run(&mut self, out: &mut Bytes) -> Result<(), Memory>
        ensures bytes { OnOk result (out.new
            ≡ out.old ++ state_back (is_inner self.old.inner self.old.depth) self.old.run) }
        ensures state { OnOk result (self.new ≡ record self.old { run = run_state [] }) }
        ensures stays { OnErr result (StaysBefore out.old out.new) }
    {
        if !self.run.is_empty() {
            self.append_run(out)?;
            self.run = ControlRun::new();
        }
        Ok(())
    }
}

// The byte of a control that prints one and is in no run. Most controls are such.
#[inline(always)]
fn lone_byte(item: FlatItem) -> Option<u8>
    ensures { IfSome result (PrintsByte item) }
{
    match item {
        FlatItem::Control(Control::OpenBrace) => Some(b'{'),
        FlatItem::Control(Control::CloseBrace) => Some(b'}'),
        FlatItem::Control(Control::Dollar) => Some(b'$'),
        _ => None,
    }
}

// Whether a control moves the lines that come to the right or to the left.
fn is_indent(control: Control) -> bool
    ensures { OnFalse result (indent_bytes control ≡ []) }
{
    matches!(control, Control::Indent | Control::Outdent)
}

// Appends what it prints at once, in inner text or outside. It stands apart, since few controls are one.
#[inline(never)]
fn append_indent(control: Control, inner: bool, out: &mut Bytes) -> Result<(), Memory>
    ensures bytes { OnOk result (out.new ≡ out.old ++ run_front inner (control ∷ [])) }
    ensures stays { OnErr result (StaysBefore out.old out.new) }
{
    match control {
        Control::Indent if !inner => append_few(b"\\1", out),
        Control::Outdent if !inner => append_few(b"\\2", out),
        _ => Ok(()),
    }
}

// Appends what a break prints outside of inner text. No loop stands in it, so that the loop over the items keeps its
// values in registers.
#[inline(always)]
fn append_break(pause: Pause, out: &mut Bytes) -> Result<(), Memory>
    ensures bytes { OnOk result (out.new ≡ out.old ++ break_bytes (strength_of pause)) }
    ensures stays { OnErr result (StaysBefore out.old out.new) }
{
    match pause.bytes() {
        [first, second] => {
            out.push(*first)?;
            out.push(*second)
        }
        [first, second, third] => {
            out.push(*first)?;
            out.push(*second)?;
            out.push(*third)
        }
        bytes => append_many(bytes, out),
    }
}

// Appends bytes one by one. It stands apart, since few signs print as many.
#[inline(never)]
fn append_many(bytes: &[u8], out: &mut Bytes) -> Result<(), Memory>
    ensures bytes { OnOk result (out.new ≡ out.old ++ bytes.now) }
    ensures stays { OnErr result (StaysBefore out.old out.new) }
{
    append_few(bytes, out)
}

// Appends the bytes of a name or of a sign.
#[inline(always)]
fn append_item(item: FlatItem, names: &Names, out: &mut Bytes) -> Result<(), Memory>
    requires named { IsNamed (length names.now) item }
    ensures bytes { OnOk result (out.new ≡ out.old ++ item_bytes names.now item []) }
    ensures stays { OnErr result (StaysBefore out.old out.new) }
{
    match item {
        FlatItem::Ident(name, _) => append_ident_of(names, name, out),
        FlatItem::Reserved(name, _) => append_reserved_of(names, name, out),
        FlatItem::Control(control) => append_sign(control, out),
        FlatItem::Source(_) | FlatItem::Open | FlatItem::Close => Ok(()),
    }
}

// Appends what a control prints that is in no run. Many begin or end a formula, or begin a relation.
#[inline(always)]
fn append_sign(control: Control, out: &mut Bytes) -> Result<(), Memory>
    ensures bytes { OnOk result (out.new ≡ out.old ++ control_bytes control []) }
    ensures stays { OnErr result (StaysBefore out.old out.new) }
{
    match control {
        Control::ToMath => append_few(b"${}", out),
        Control::ToText => append_few(b"{}$", out),
        Control::OpenRelation => append_relation(out),
        _ => match sign(control, &[]) {
            [] => Ok(()),
            [byte] => out.push(*byte),
            bytes => append_many(bytes, out),
        },
    }
}

// Appends what begins a relation. It stands apart, so that the loop over the items stays small.
#[inline(never)]
fn append_relation(out: &mut Bytes) -> Result<(), Memory>
    ensures bytes { OnOk result (out.new ≡ out.old ++ control_bytes OpenRelation []) }
    ensures stays { OnErr result (StaysBefore out.old out.new) }
{
    out.append(b"\\MRL{")
}
