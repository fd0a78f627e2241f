//! A whole run: the words of a command line are read, and what they ask for is done.
ghost use Rattle.std.specs.Prelude.{◌≡◌, ◌+◌, ◌<◌, ◌≤◌, ◌≢◌, ◌++◌, Some, length, option_copied, IfOk, [], unwrap_or};
ghost use Rattle.std.specs.FinMap.{get};
ghost use Rattle.cw_desk.specs.Meaning.{Files, Rose};
ghost use Rattle.cw_input.specs.Merged.{merged};
ghost use Rattle.cw_input.specs.Overwriting.{overwriting};
ghost use Rattle.cw_lines.specs.Writes.{Adds};
ghost use Rattle.cw_run.specs.Program.{Outcome};
ghost use Rattle.cw_press.specs.Texts.{lasting};
ghost use Rattle.cw_run.specs.Emits.{EmitsBy, Faults, Runs, RunsBy};
ghost use Rattle.cw_weave.specs.Looks.{book_looks, command_looks, looks_of, web_looks};
ghost use Rattle.cw_run.specs.Notes.{note_events};
ghost use Rattle.cw_weave.specs.model.Pressing.{IsPrintable, flags_in, text_in};
ghost use Rattle.cw_weave.specs.laws.Proper.{IsProper};
ghost use Rattle.cw_weave.specs.Woven.{book_of, weave_book, weave_command_of, weave_unless, weave_web, woven};
ghost use Rattle.cw_weave.specs.model.Written.{AreWritten, events_of};

use crate::ending::end_run;
use crate::files::WrittenFiles;
use crate::index_files::write_index_files;
use crate::reading::book_of;
use crate::sample::weave_sample;
use crate::source::WeaveSource;
use crate::tex_file::{totals_of, write_tex};
use cw_base::{Exit, Ledger, Steps, Words};
use cw_desk::Desk;
use cw_input::{
    Command, CommandLine, LoadError, first_overwriting, load, outputs_of, read_command,
};
use cw_lines::PutError;
use cw_phase1::Book;
use cw_run::{
    Judgement, Message, NoteSource, print_notes, say_if, status_of, stop, stop_at_unknown,
    stop_before_overwriting, stop_without_change, stop_without_web, tell,
};
use std::alloc::Global;

// Prints the notes of reading, and those of the first phase.
fn print_all_notes<D: Desk>(source: WeaveSource, book: &Book, desk: &mut D) -> Result<(), PutError>
    ensures { Adds (note_events source.entry.web.now.files book.now.sec_names
        (source.entry.web.now.notes ++ book.now.outline.notes))
        (D.told desk.old) (D.told desk.new) result }
{
    let noted = NoteSource {
        alloc: source.alloc,
        web: source.web,
        names: &book.sec_names,
    };
    print_notes(noted, source.web.notes(), desk)?;
    print_notes(noted, book.notes(), desk)
}

// Writes the TeX file, and with flag x the index and the list of section names.
fn write_files<D: Desk, L: Ledger>(
    source: WeaveSource,
    book: &mut Book,
    desk: &mut D,
    steps: &mut Steps<L>,
) -> Result<WrittenFiles, PutError>
    requires printable { IsPrintable (text_in source) (lasting book.old) }
    ensures emits { EmitsBy (events_of source.entry book.old) (D.told desk.old) (D.told desk.new) result }
    ensures written { IfOk result (λ w. AreWritten source.entry book.old w) }
    ensures bound { steps.new ≤ steps.old + book_looks (text_in source.entry) (flags_in source.entry) book.old }
{
    let tex = write_tex(source, book, desk, steps)?;
    let totals = totals_of(book.section_count(), tex.counts, tex.lines.lines());
    let index = write_index_files(source, book, desk, steps)?;
    Ok(WrittenFiles {
        tex: tex.lines,
        totals,
        index,
    })
}

// Prints the notes of a web, writes its files, and ends the run.
fn weave_book<D: Desk, L: Ledger>(
    source: WeaveSource,
    book: &mut Book,
    desk: &mut D,
    steps: &mut Steps<L>,
) -> Result<Exit, PutError>
    requires printable { IsPrintable (text_in source) (lasting book.old) }
    ensures runs { RunsBy (weave_book source.entry.line.now source.entry.web.now book.old)
        (D.told desk.old) (D.told desk.new) result }
    ensures bound { steps.new ≤ steps.old + book_looks (text_in source.entry) (flags_in source.entry) book.old }
{
    print_all_notes(source, book, desk)?;
    let judgement = Judgement::of(source.web.notes(), book.notes());
    let written = write_files(source, book, desk, steps)?;
    end_run(source.alloc, desk, source.line, judgement, &written)
}

// Weaves a web that was read.
fn weave_web<D: Desk, L: Ledger>(
    source: WeaveSource,
    desk: &mut D,
    steps: &mut Steps<L>,
) -> Result<Exit, PutError>
    ensures runs { RunsBy
        (weave_book source.entry.line.now source.entry.web.now (book_of (flags_in source.entry) source.entry.web.now))
        (D.told desk.old) (D.told desk.new) result }
    ensures bound { steps.new ≤ steps.old
        + book_looks (text_in source.entry) (flags_in source.entry)
        (book_of (flags_in source.entry) source.entry.web.now) }
    ensures real { IfOk result (λ exit. exit ≢ Exit.Fault) }
{
    let mut book = book_of(source.alloc, source.web, &source.line.flags)?;
    weave_book(source, &mut book, desk, steps)
}

// Weaves a web that was read, if no output would overwrite an input or an output before it.
fn weave_whole<D: Desk, L: Ledger>(
    source: WeaveSource,
    desk: &mut D,
    steps: &mut Steps<L>,
) -> Result<Exit, PutError>
    ensures runs { RunsBy (weave_unless (overwriting source.entry.web.now.files source.entry.line.now)
        source.entry.line.now source.entry.web.now) (D.told desk.old) (D.told desk.new) result }
    ensures bound { steps.new ≤ steps.old
        + book_looks (text_in source.entry) (flags_in source.entry)
        (book_of (flags_in source.entry) source.entry.web.now) }
    ensures real { IfOk result (λ exit. exit ≢ Exit.Fault) }
{
    let outputs = outputs_of(source.alloc, source.line)?;
    match first_overwriting(source.web, &outputs) {
        Some(name) => stop_before_overwriting(source.alloc, desk, name),
        None => weave_web(source, desk, steps),
    }
}

// The change word of a command line.
fn change_word(line: &CommandLine) -> Option<&[u8]>
    ensures { option_copied result ≡ line.now.change }
{
    match &line.change {
        Some(word) => Some(word.as_slice()),
        None => None,
    }
}

// The change word of a command line, empty where there is none.
fn change_text(line: &CommandLine) -> &[u8]
    ensures { result.now ≡ unwrap_or line.now.change [] }
{
    match &line.change {
        Some(word) => word.as_slice(),
        None => b"",
    }
}

// Reads a web and weaves it.
fn weave_line<D: Desk, L: Ledger>(
    alloc: Global,
    desk: &mut D,
    line: &CommandLine,
    steps: &mut Steps<L>,
) -> Result<Exit, PutError>
    requires { 0 < length line.now.web }
    ensures runs { (files : Files) → (D.told desk.new).agrees files →
        Runs (weave_web line.now (merged (get files) line.now.web line.now.change) (get files))
        (D.told desk.old) (D.told desk.new) result }
    ensures faults { Faults (D.told desk.old) (D.told desk.new) result }
    ensures bound { (files : Files) → (D.told desk.new).agrees files →
        steps.new ≤ steps.old + web_looks line.now.flags (merged (get files) line.now.web line.now.change) }
    ensures real { IfOk result (λ exit. exit ≢ Exit.Fault) }
{
    match load(alloc, desk, line.web.as_slice(), change_word(line)) {
        Ok(web) => weave_whole(
            WeaveSource {
                alloc,
                web: &web,
                line,
            },
            desk,
            steps,
        ),
        Err(LoadError::NoWeb) => stop_without_web(alloc, desk, line.web.as_slice()),
        Err(LoadError::NoChange) => stop_without_change(alloc, desk, change_text(line)),
        Err(LoadError::TooLong) => stop(desk, Message::TooLong),
        Err(LoadError::Fault) => Err(PutError::Fault),
        Err(LoadError::Memory) => Err(PutError::Memory),
    }
}

// Does what a command asks for.
fn run<D: Desk, L: Ledger>(
    alloc: Global,
    desk: &mut D,
    command: &Command,
    steps: &mut Steps<L>,
) -> Result<Exit, PutError>
    requires { IsProper command.now }
    ensures runs { (files : Files) → (D.told desk.new).agrees files →
        Runs (weave_command_of command.now (get files))
        (D.told desk.old) (D.told desk.new) result }
    ensures faults { Faults (D.told desk.old) (D.told desk.new) result }
    ensures bound { (files : Files) → (D.told desk.new).agrees files →
        steps.new ≤ steps.old + command_looks command.now (get files) }
    ensures real { IfOk result (λ exit. exit ≢ Exit.Fault) }
{
    match command {
        Command::Help => tell(desk, Message::Help),
        Command::Version => tell(desk, Message::Banner),
        Command::Unknown(unknown) => {
            say_if(desk, unknown.flags.banner, Message::Banner)?;
            stop_at_unknown(alloc, desk, unknown.word.as_slice())
        }
        Command::Usage(flags) => {
            say_if(desk, flags.banner, Message::Banner)?;
            stop(desk, Message::Usage)
        }
        Command::Sample(sections) => weave_sample(alloc, *sections, desk, steps),
        Command::Weave(line) => {
            say_if(desk, line.flags.banner, Message::Banner)?;
            weave_line(alloc, desk, line, steps)
        }
    }
}

/// Reads the words of a command line and does what they ask for: weaves a web over the files of the desk into its
/// outputs, and answers the status of the run. It prints nothing after a fault or out of memory, and tries no failed
/// call again.
///
/// Whatever the desk is: over all files that would have given the answers that it gave, it has done what these files
/// ask for.
pub fn weave_command<D: Desk, L: Ledger>(
    alloc: Global,
    words: &Words,
    desk: &mut D,
    steps: &mut Steps<L>,
) -> Exit
    ensures woven { (files : Files) → (D.told desk.new).agrees files →
        Outcome (woven words.now (get files)) (D.told desk.old).journal (D.told desk.new).journal result }
    ensures passed { (files : Files) → (D.told desk.new).agrees files →
        (D.told desk.old).handed ≤ (D.told desk.new).handed }
    ensures kept { (D.told desk.old).faults ≤ (D.told desk.new).faults }
    ensures fault { result ≡ Exit.Fault → Rose (D.told desk.old).faults (D.told desk.new).faults }
    ensures steps { (files : Files) → (D.told desk.new).agrees files →
        steps.new ≤ steps.old + looks_of words.now (get files) }
{
    let Ok(command) = read_command(alloc, words) else {
        return Exit::Memory;
    };
    status_of(run(alloc, desk, &command, steps))
}
