//! Pieces of plain text, laid out in lines.
ghost use Rattle.std.specs.Prelude.{◌≡◌, ◌+◌, ◌++◌, ℕ, [], ◌∷◌, nat_lt, IfOk, OnOk};
ghost use Rattle.cw_trees.specs.Flat.{is_run_sign};
ghost use Rattle.cw_plain.specs.model.Laying.{Lays, begun, ended, ended_text, no_run};
ghost use Rattle.cw_plain.specs.Lines.{backed, break_text, indent, last_behind, level_in};
ghost use Rattle.cw_plain.specs.Pieces.{Closing, Ending, Opening, Part, Word, run_or_nothing};

use crate::blanks::{has_blank, last_behind};
use crate::run::{ControlRun, is_run};
use cw_base::{Bytes, Memory};
use cw_trees::Control;
use std::marker::Model;

/// Where the layout stands: the level of the text, how many inner texts are open, the byte before, where nothing but
/// words stands behind the last run and the last bar, and what is kept of a run that may go on.
#[derive(Drop)]
pub(crate) struct Lines {
    level: usize,
    depth: usize,
    last: Option<u8>,
    run: ControlRun,
}

impl Model for Lines {
    ghost use Rattle.cw_plain.specs.model.Laying.{Laying};

    ghost Value = { Laying };

    ghost view = { λ l. record { layout = record { level = l.level; depth = l.depth; last = l.last }; run = l.run } };
}

impl Lines {
    /// Before the first piece.
    pub(crate) fn new() -> Lines
        ensures { result ≡ begun }
    {
        Lines {
            level: 0,
            depth: 0,
            last: None,
            run: ControlRun::new(),
        }
    }

    /// Lays a control, which goes into a run or prints nothing and ends one.
    pub(crate) fn control(&mut self, control: Control, out: &mut Bytes) -> Result<(), Memory>
        ensures { OnOk result
            (Lays self.old (run_or_nothing (is_run_sign control) control) out.old self.new out.new) }
    {
        if !is_run(control) {
            return self.end_run(out);
        }
        self.level = self.moved(control)?;
        self.run.add(control);
        Ok(())
    }

    /// Lays a word: a blank stands before it where the two bytes would be one token, or a part of one.
    pub(crate) fn word(&mut self, bytes: &[u8], out: &mut Bytes) -> Result<(), Memory>
        ensures { (number : ℕ) → OnOk result (Lays self.old (Word number bytes.now) out.old self.new out.new) }
    {
        self.end_run(out)?;
        if has_blank(self.last, bytes) {
            out.push(b' ')?;
        }
        self.put(bytes, out)
    }

    /// Lays bytes directly behind what stands there.
    pub(crate) fn part(&mut self, bytes: &[u8], out: &mut Bytes) -> Result<(), Memory>
        ensures part { (number : ℕ) → OnOk result (Lays self.old (Part number bytes.now) out.old self.new out.new) }
        ensures ending { OnOk result (Lays self.old (Ending bytes.now) out.old self.new out.new) }
    {
        self.end_run(out)?;
        self.put(bytes, out)
    }

    /// Lays the bar before an inner text of a comment.
    pub(crate) fn open(&mut self, out: &mut Bytes) -> Result<(), Memory>
        ensures { OnOk result (Lays self.old Opening out.old self.new out.new) }
    {
        self.end_run(out)?;
        self.depth = one_more(self.depth)?;
        self.last = None;
        out.push(b'|')
    }

    /// Lays the bar behind it.
    pub(crate) fn close(&mut self, out: &mut Bytes) -> Result<(), Memory>
        ensures { OnOk result (Lays self.old Closing out.old self.new out.new) }
    {
        self.end_run(out)?;
        self.depth = self.depth.saturating_sub(1);
        self.last = Some(b'|');
        out.push(b'|')
    }

    /// Ends a run, and prints what it has still to print.
    pub(crate) fn end_run(&mut self, out: &mut Bytes) -> Result<(), Memory>
        ensures text { OnOk result (out.new ≡ out.old ++ ended_text self.old) }
        ensures laying { OnOk result (self.new ≡ record { layout = ended self.old; run = no_run }) }
    {
        let strength = self.run.ended();
        self.put_break(strength, out)?;
        if strength > 0 {
            self.last = None;
        }
        self.run = ControlRun::new();
        Ok(())
    }

    // In an inner text a break is a blank.
    fn put_break(&self, strength: u8, out: &mut Bytes) -> Result<(), Memory>
        ensures { OnOk result (out.new ≡ out.old ++ break_text (nat_lt 0 self.now.layout.depth)
            (backed self.now.run.backed self.now.layout.level) strength) }
    {
        match strength {
            0 => Ok(()),
            1 | 2 => out.push(b' '),
            _ if self.depth > 0 => out.push(b' '),
            3 => self.begin_line(b"\n", out),
            _ => self.begin_line(b"\n\n", out),
        }
    }

    // Begins a line, behind these line ends.
    fn begin_line(&self, ends: &[u8], out: &mut Bytes) -> Result<(), Memory>
        ensures { OnOk result
            (out.new ≡ out.old ++ (ends.now ++ indent (backed self.now.run.backed self.now.layout.level))) }
    {
        out.append(ends)?;
        let level = if self.run.is_backed() {
            self.level.saturating_sub(1)
        } else {
            self.level
        };
        put_indent(level, out)
    }

    fn put(&mut self, bytes: &[u8], out: &mut Bytes) -> Result<(), Memory>
        ensures text { OnOk result (out.new ≡ out.old ++ bytes.now) }
        ensures level { self.new.layout.level ≡ self.old.layout.level }
        ensures depth { self.new.layout.depth ≡ self.old.layout.depth }
        ensures last { self.new.layout.last ≡ last_behind self.old.layout.last bytes.now }
        ensures run { self.new.run ≡ self.old.run }
    {
        self.last = last_behind(self.last, bytes);
        match bytes {
            [byte] => out.push(*byte),
            _ => out.append(bytes),
        }
    }

    // The level behind a control. An inner text has one of its own, which is no matter: no line ends in it.
    fn moved(&self, control: Control) -> Result<usize, Memory>
        ensures { IfOk result
            (λ level. level ≡ level_in self.now.layout.depth self.now.layout.level (control ∷ [])) }
    {
        if self.depth > 0 {
            return Ok(self.level);
        }
        match control {
            Control::Indent => one_more(self.level),
            Control::Outdent => Ok(self.level.saturating_sub(1)),
            _ => Ok(self.level),
        }
    }
}

// Memory cannot hold as many items as are not counted.
pub(crate) fn one_more(count: usize) -> Result<usize, Memory>
    ensures { IfOk result (λ more. more ≡ count + 1) }
{
    match count.checked_add(1) {
        Some(more) => Ok(more),
        None => Err(Memory),
    }
}

fn put_indent(level: usize, out: &mut Bytes) -> Result<(), Memory>
    ensures { OnOk result (out.new ≡ out.old ++ indent level) }
{
    let mut left = level;
    while left > 0 {
        out.append(b"  ")?;
        left -= 1;
    }
    Ok(())
}
