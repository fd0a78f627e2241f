//! The joining of the items of one C text.
ghost use Rattle.std.specs.Prelude.{◌≡◌, ◌∷◌, ◌++◌, [], List, OnOk, length};
ghost use Rattle.cw_trees.specs.Printing.{Printable, opened};
ghost use Rattle.cw_tokens.specs.FlatItems.{item_is};
ghost use Rattle.cw_lines.specs.Sheets.{CanPrint, Prints};
ghost use Rattle.cw_join.specs.Early.{late, run_front};
ghost use Rattle.cw_join.specs.Runs.{run_state};
ghost use Rattle.cw_join.specs.model.Runs.{run_more, state_back, state_of, step_bytes};
ghost use Rattle.cw_join.specs.Standing.{Stands};
ghost use Rattle.cw_join.specs.Stretches.{is_inner};
ghost use Rattle.cw_join.specs.Tokens.{CanCome, HasRoom, IsNamed, item_bytes};

use crate::naming::{put_ident_of, put_reserved_of};
use crate::pieces::{put_some, sign};
use crate::run::{ControlRun, indent};
use crate::token::FlatToken;
use cw_desk::Desk;
use cw_lines::{PutError, Sheet};
use cw_names::Names;
use cw_tokens::FlatItem;
use cw_trees::Control;
use std::marker::Model;

/// What is kept while the items of a C text are printed one after another: of the run that may go on only the strongest
/// break, and whether it has a Cancel and a Backup. It takes no memory.
#[derive(Drop)]
pub struct Joiner {
    pub(crate) run: ControlRun,
    pub(crate) inner: bool,
    pub(crate) depth: u64,
}

impl Model for Joiner {
    ghost use Rattle.cw_join.specs.Standing.{JoinerState};

    ghost Value = { JoinerState };

    ghost use Rattle.cw_join.specs.model.Runs.{state_of};

    ghost view = { λ j. record { inner = j.inner; depth = j.depth; run = state_of j.run } };
}

impl Joiner {
    /// A joiner to which nothing was pushed, of inner C text or of the C text of a part or a definition.
    pub fn new(inner: bool) -> Joiner
        ensures inner { result.inner ≡ inner }
        ensures stands { Stands result [] }
    {
        Joiner {
            inner,
            depth: 0,
            run: ControlRun::new(),
        }
    }

    /// The run ends on a sheet.
    pub(crate) fn end<D: Desk>(&mut self, sheet: &mut Sheet<D>) -> Result<(), PutError>
        requires can { CanPrint D.told sheet.old }
        requires closed { self.old.depth ≡ 0 }
        ensures prints { (ps : List Printable) → Stands self.old ps
            → Prints D.told (late self.old.inner ps) sheet.old sheet.new result }
        ensures stands { OnOk result (Stands self.new []) }
        ensures inner { OnOk result (self.new.inner ≡ self.old.inner) }
    {
        end_run(self.run, self.is_inner(), sheet)?;
        self.run = ControlRun::new();
        Ok(())
    }

    /// Whether runs are now those of inner C text.
    pub(crate) fn is_inner(&self) -> bool
        ensures { result ≡ is_inner self.now.inner self.now.depth }
    {
        self.inner || self.depth > 0
    }

    /// A control goes into the run.
    pub(crate) fn push_control<D: Desk>(
        &mut self,
        control: Control,
        sheet: &mut Sheet<D>,
    ) -> Result<(), PutError>
        requires can { CanPrint D.told sheet.old }
        ensures prints { Prints D.told (run_front (is_inner self.old.inner self.old.depth) (control ∷ []))
            sheet.old sheet.new result }
        ensures state { OnOk result (self.new ≡ record self.old { run = run_more self.old.run control }) }
    {
        let front: &[u8] = if self.is_inner() {
            b""
        } else {
            indent(control)
        };
        put_some(front, sheet)?;
        self.run.add(control);
        Ok(())
    }

    /// Any other item ends the run and prints its own bytes.
    pub(crate) fn push_other<D: Desk>(
        &mut self,
        token: FlatToken,
        names: &Names,
        sheet: &mut Sheet<D>,
    ) -> Result<(), PutError>
        requires can { CanPrint D.told sheet.old }
        requires come { CanCome (length names.now) self.old.depth token.item }
        ensures prints { Prints D.told (state_back (is_inner self.old.inner self.old.depth) self.old.run
            ++ item_bytes names.now token.entry.item token.entry.bytes.now) sheet.old sheet.new result }
        ensures state { OnOk result (self.new ≡ record self.old {
          depth = opened self.old.depth (item_is token.entry.item);
          run = run_state [];
        }) }
    {
        end_run(self.run, self.is_inner(), sheet)?;
        put_item(token, names, sheet)?;
        self.depth = depth_behind(self.depth, token.item);
        self.run = ControlRun::new();
        Ok(())
    }
}

// Puts what a run prints when it has ended.
fn end_run<D: Desk>(run: ControlRun, inner: bool, sheet: &mut Sheet<D>) -> Result<(), PutError>
    requires can { CanPrint D.told sheet.old }
    ensures { Prints D.told (state_back inner (state_of run)) sheet.old sheet.new result }
{
    put_some(run.pause(inner), sheet)?;
    put_some(step(run.backs(inner)), sheet)
}

/// The step to the left of a run that has one.
pub(crate) fn step(backs: bool) -> &'static [u8]
    ensures { result.now ≡ step_bytes backs }
{
    if backs { b"\\4" } else { b"" }
}

// Puts the bytes of an item that is in no run.
fn put_item<D: Desk>(token: FlatToken, names: &Names, sheet: &mut Sheet<D>) -> Result<(), PutError>
    requires can { CanPrint D.told sheet.old }
    requires named { IsNamed (length names.now) token.item }
    ensures { Prints D.told (item_bytes names.now token.entry.item token.entry.bytes.now) sheet.old sheet.new result }
{
    match token.item {
        FlatItem::Ident(name, _) => put_ident_of(names, name, sheet),
        FlatItem::Reserved(name, _) => put_reserved_of(names, name, sheet),
        FlatItem::Control(control) => put_some(sign(control, token.bytes), sheet),
        FlatItem::Source(_) | FlatItem::Open | FlatItem::Close => put_some(token.bytes, sheet),
    }
}

/// How many inner texts are open behind an item.
pub(crate) fn depth_behind(depth: u64, item: FlatItem) -> u64
    requires { HasRoom depth item }
    ensures { result ≡ opened depth (item_is item) }
{
    match item {
        FlatItem::Open => depth + 1,
        FlatItem::Close => depth - 1,
        _ => depth,
    }
}
