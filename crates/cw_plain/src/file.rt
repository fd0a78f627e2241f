//! The file of plain texts, which is written part by part, and the command that writes it.
ghost use Rattle.std.specs.Prelude.{◌≡◌, ◌<◌, ◌≤◌, [], All, IfOk, IsTrue, None, codes, length};
ghost use Rattle.std.specs.FinMap.{get};
ghost use Rattle.cw_base.specs.declared.event.Out.TheVariants.{Tex};
ghost use Rattle.cw_desk.specs.Answer.{Agree};
ghost use Rattle.cw_desk.specs.Journal.{byte_events};
ghost use Rattle.cw_desk.specs.Meaning.{Files, Rose, is_open};
ghost use Rattle.cw_desk.specs.State.{OnlyPuts};
ghost use Rattle.cw_lines.specs.Writes.{Adds};
ghost use Rattle.cw_run.specs.Program.{Outcome, words_of};
ghost use Rattle.cw_run.specs.Asked.{asked};
ghost use Rattle.cw_run.specs.Tool.{tool_run};
ghost use Rattle.cw_each.specs.EachForms.{IsWholeRef};
ghost use Rattle.cw_translator.specs.NameParts.{AreNamesOf};
ghost use Rattle.cw_plain.specs.File.{lines_by, part_lines, plain_web, texts_lines};
ghost use Rattle.cw_plain.specs.Plain.{plain_tree};
ghost use Rattle.cw_plain.specs.Titles.{source_by};
ghost use Rattle.cw_tokens.specs.Shapes.{unfolded};

use crate::plainer::BookNames;
use crate::translated::plain_answers;
use cw_base::{Bytes, Exit, Flags, Ledger, Memory, Out, Steps, Web, Words};
use cw_desk::{Desk, FileDesk};
use cw_each::{EachText, NextText, whole_texts_law};
use cw_lex::Mode;
use cw_lines::{PutError, write_all};
use cw_names::Names;
use cw_phase1::Book;
use cw_reduce::Context;
use cw_run::{Tool, tool_command, tool_files};
use cw_texts::BookTexts;
use itoa::Buffer;
use std::alloc::Global;

/// The tool `cwplain`.
#[derive(Clone, Copy)]
pub struct Plain;

impl Tool for Plain {
    ghost use Rattle.std.specs.Prelude.{codes};
    ghost use Rattle.cw_plain.specs.File.{plain_web};

    ghost usage = { codes "! Usage: cwplain web change|- out" };

    ghost text = { plain_web };

    fn usage_line(&self) -> &'static [u8] {
        b"! Usage: cwplain web change|- out\n"
    }

    fn write<D: Desk, L: Ledger>(
        &self,
        alloc: Global,
        web: &Web,
        book: &mut Book,
        desk: &mut D,
        steps: &mut Steps<L>,
    ) -> Result<(), PutError> {
        whole_texts_law(); // (for the proof)
        let flags = Flags::start();
        let context = Context {
            sec_names: &book.sec_names,
            uses: &book.name_uses,
            flags: &flags,
            alloc,
        };
        // By its type a text has at most 16,777,216 bytes, and no section name is longer.
        let text = web.text();
        let texts = BookTexts::over(alloc, text, &book.name_uses, &book.outline);
        let mut each = EachText::over(text, context, texts);
        write_texts(alloc, &mut each, &mut book.names, desk, steps)
    }
}

// Writes the lines of each text that is still to come.
fn write_texts<D: Desk, L: Ledger>(
    alloc: Global,
    each: &mut EachText,
    names: &mut Names,
    desk: &mut D,
    steps: &mut Steps<L>,
) -> Result<(), PutError>
    requires made { IsTrue (is_open (D.told desk.old).outputs Tex) }
    requires kept { AreNamesOf each.old.source.sec_names each.old.source.name_uses }
    requires whole { All (IsWholeRef each.old.source.text) each.old.coming }
    ensures { Adds (byte_events Tex (texts_lines each.old.source each.old.coming names.old))
        (D.told desk.old) (D.told desk.new) result }
{
    'all: loop {
        match each.next(names, steps)? {
            Some(next) => write_text(alloc, each, next, desk)?,
            None => return Ok(()),
        }
    }
}

// Writes the lines of the text that was translated last: those of a C part, and none of another text.
fn write_text<D: Desk>(
    alloc: Global,
    each: &EachText,
    next: NextText,
    desk: &mut D,
) -> Result<(), PutError>
    requires made { IsTrue (is_open (D.told desk.old).outputs Tex) }
    requires list { next.translated.list.index < length each.now.lists }
    ensures { Adds (byte_events Tex (lines_by next.text.mode next.text.section (plain_tree
        (source_by each.now.answers each.now.source.sec_names each.now.source.name_uses)
        (unfolded each.now.lists next.translated.list.index)))) (D.told desk.old) (D.told desk.new) result }
{
    let Mode::CPart = next.text.mode else {
        return Ok(());
    };
    let names = BookNames {
        kept: each.sec_names(),
        uses: each.name_uses(),
    };
    let plain = plain_answers(
        alloc,
        each.answers(),
        names,
        each.store(),
        next.translated.list,
    )?;
    let lines = part_lines(alloc, next.text.section, &plain)?;
    write_all(desk, Out::Tex, lines.as_slice())
}

// A line with the section's number, the plain text of its part, a line's end and an empty line.
fn part_lines(alloc: Global, number: u32, plain: &Bytes) -> Result<Bytes, Memory>
    ensures { IfOk result (λ bytes. bytes ≡ part_lines number plain.now) }
{
    let mut lines = Bytes::from_slice(alloc, b"section ")?;
    lines.append(Buffer::new().format(number).as_bytes())?;
    lines.push(b'\n')?;
    lines.append(plain.as_slice())?;
    lines.append(b"\n\n")?;
    Ok(lines)
}

/// Does what the words of a command line ask for: reads a web over the files of the desk, writes the plain text of each
/// C part of the woven book, and answers the status of the run. The section numbers, the categories and the names are
/// those of the book; nothing is printed but why there is no web.
pub fn plain_command<D: Desk, L: Ledger>(
    alloc: Global,
    words: &Words,
    desk: &mut D,
    steps: &mut Steps<L>,
) -> Exit
    ensures written { (files : Files) → (D.told desk.new).agrees files →
        Outcome (tool_run (codes "! Usage: cwplain web change|- out") plain_web words.now (get files))
        (D.told desk.old).journal (D.told desk.new).journal result }
    ensures kept { (D.told desk.old).faults ≤ (D.told desk.new).faults }
    ensures fault { result ≡ Exit.Fault → Rose (D.told desk.old).faults (D.told desk.new).faults }
    ensures unread { asked words.now ≡ None → OnlyPuts (D.told desk.old) (D.told desk.new) }
{
    tool_command(alloc, &Plain, words, desk, steps)
}

/// The whole program over real files. Over all files that would have given the answers that the system gave, it has
/// done what the words of the command line ask for, or a first part of it, with Fault or Memory.
pub fn plain_files(rt: HostRuntime, alloc: Global, line: &Words) -> (Exit, FileDesk)
    ensures written { (files : Files) → Agree result.1.heard files →
        Outcome (tool_run (codes "! Usage: cwplain web change|- out") plain_web (words_of line.now) (get files))
        [] result.1.journal result.0 }
    ensures fault { result.0 ≡ Exit.Fault → Rose 0 result.1.faults }
{
    tool_files(rt, alloc, &Plain, line)
}
