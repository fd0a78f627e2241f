//! Items joined and printed one at a time, to a line and a desk. No program calls these, users of the library do.
ghost use Rattle.std.specs.Prelude.{◌≡◌, ◌∷◌, ◌++◌, [], List, OnOk, length};
ghost use Rattle.cw_trees.specs.Printing.{Printable};
ghost use Rattle.cw_lines.specs.Writes.{CanWrite, Puts};
ghost use Rattle.cw_join.specs.Early.{added, late};
ghost use Rattle.cw_join.specs.Standing.{Stands};
ghost use Rattle.cw_join.specs.Tokens.{CanCome, printable};

use crate::joiner::Joiner;
use crate::run::run_control;
use crate::token::FlatToken;
use cw_desk::Desk;
use cw_lines::{LineOut, PutError, Sheet};
use cw_names::Names;

impl Joiner {
    /// Prints one item more. The break or blank of a run is printed when the run has ended, its indents at once. After
    /// an `Err` the joiner is not to be used again.
    pub fn push<D: Desk>(
        &mut self,
        token: FlatToken,
        names: &Names,
        out: &mut LineOut,
        desk: &mut D,
    ) -> Result<(), PutError>
        requires can { CanWrite (D.told desk.old) out.old }
        requires come { CanCome (length names.now) self.old.depth token.item }
        ensures puts { (ps : List Printable) → Stands self.old ps
            → Puts (added self.old.inner ps (printable names.now token.entry)) out.old out.new
            (D.told desk.old) (D.told desk.new) result }
        ensures stands { (ps : List Printable) → Stands self.old ps
            → OnOk result (Stands self.new (ps ++ printable names.now token.entry ∷ [])) }
        ensures inner { OnOk result (self.new.inner ≡ self.old.inner) }
    {
        let mut sheet = Sheet { line: out, desk };
        match run_control(token.item) {
            Some(control) => self.push_control(control, &mut sheet),
            None => self.push_other(token, names, &mut sheet),
        }
    }

    /// Prints what a run at the end has still to print. The joiner is then as new.
    pub fn finish<D: Desk>(&mut self, out: &mut LineOut, desk: &mut D) -> Result<(), PutError>
        requires can { CanWrite (D.told desk.old) out.old }
        requires closed { self.old.depth ≡ 0 }
        ensures puts { (ps : List Printable) → Stands self.old ps
            → Puts (late self.old.inner ps) out.old out.new (D.told desk.old) (D.told desk.new) result }
        ensures stands { OnOk result (Stands self.new []) }
        ensures inner { OnOk result (self.new.inner ≡ self.old.inner) }
    {
        let mut sheet = Sheet { line: out, desk };
        self.end(&mut sheet)
    }
}
