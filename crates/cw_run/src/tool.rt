//! The top call of a program that reads a web and writes one file of it.
ghost use Rattle.std.specs.Prelude.{◌≡◌, ◌≢◌, ◌<◌, ◌≤◌, ◌++◌, [], ◌∷◌, ℕ, List, None, Some, IfOk, IsTrue, length};
ghost use Rattle.std.specs.FinMap.{get};
ghost use Rattle.cw_base.specs.Web.{WebState};
ghost use Rattle.cw_base.specs.declared.event.Out.TheVariants.{Tex};
ghost use Rattle.cw_desk.specs.Journal.{byte_events};
ghost use Rattle.cw_desk.specs.Meaning.{Files, Rose, is_open};
ghost use Rattle.cw_desk.specs.State.{OnlyPuts};
ghost use Rattle.cw_input.specs.Merged.{merged};
ghost use Rattle.cw_input.specs.Overwriting.{first_overwriting};
ghost use Rattle.cw_lines.specs.Writes.{Adds};
ghost use Rattle.cw_run.specs.Program.{Outcome};
ghost use Rattle.cw_run.specs.Emits.{Faults, Runs};
ghost use Rattle.cw_run.specs.Asked.{asked, asked_of};
ghost use Rattle.cw_run.specs.Given.{IsBookOf};
ghost use Rattle.cw_run.specs.Tool.{made, made_unless, tool_run, tool_web};

use crate::asked::{Asked, read_asked};
use crate::ending::status_of;
use crate::files::begin_file;
use crate::refusal::{refuse, refuse_word};
use crate::tool_book::read_book;
use cw_base::{Exit, Ledger, Out, Steps, Web, Words};
use cw_desk::Desk;
use cw_input::{LoadError, first_overwriting, load};
use cw_lines::PutError;
use cw_phase1::Book;
use std::alloc::Global;

/// What differs from tool to tool: its usage text, and the bytes of the file that it writes of a web.
pub trait Tool {
    ghost usage: { List ℕ };

    ghost text: { WebState → List ℕ };

    /// The usage text, with its line's end.
    fn usage_line(&self) -> &'static [u8]
        ensures { result.now ≡ usage ++ 10 ∷ [] };

    /// Writes these bytes, in as many pieces as it likes: the file need not stand in memory whole. The book is that of
    /// the web, and what it is afterwards doesn't matter.
    fn write<D: Desk, L: Ledger>(
        &self,
        alloc: Global,
        web: &Web,
        book: &mut Book,
        desk: &mut D,
        steps: &mut Steps<L>,
    ) -> Result<(), PutError>
        requires made { IsTrue (is_open (D.told desk.old).outputs Tex) }
        requires given { IsBookOf web.now.lines book.old }
        ensures { Adds (byte_events Tex (text web.now)) (D.told desk.old) (D.told desk.new) result };
}

// What the file of a tool is made from, and its name.
#[derive(Drop)]
struct ToolSource<'a, T> {
    alloc: Global,
    tool: &'a T,
    web: &'a Web,
    out: &'a [u8],
}

// Makes the file, and writes it.
fn write_file<T: Tool, D: Desk, L: Ledger>(
    source: &ToolSource<T>,
    book: &mut Book,
    desk: &mut D,
    steps: &mut Steps<L>,
) -> Result<Exit, PutError>
    requires { IsBookOf source.now.web.now.lines book.old }
    ensures { Runs (made source.now.out.now (T.text source.now.web.now)) (D.told desk.old) (D.told desk.new) result }
{
    // The bytes go to the file itself, since its lines aren't cut.
    begin_file(source.alloc, desk, Out::Tex, source.out, false)?;
    source
        .tool
        .write(source.alloc, source.web, book, desk, steps)?;
    Ok(Exit::Clean)
}

// Reads the book of a web, and writes the file.
fn write_web<T: Tool, D: Desk, L: Ledger>(
    source: &ToolSource<T>,
    desk: &mut D,
    steps: &mut Steps<L>,
) -> Result<Exit, PutError>
    ensures { Runs (made source.now.out.now (T.text source.now.web.now)) (D.told desk.old) (D.told desk.new) result }
{
    let mut book = read_book(source.alloc, source.web)?;
    write_file(source, &mut book, desk, steps)
}

// Writes the file of a web, if it would overwrite no input.
fn write_sparing<T: Tool, D: Desk, L: Ledger>(
    source: &ToolSource<T>,
    desk: &mut D,
    steps: &mut Steps<L>,
) -> Result<Exit, PutError>
    ensures { Runs
        (made_unless (first_overwriting source.now.web.now.files (source.now.out.now ∷ [])) source.now.out.now
        (T.text source.now.web.now)) (D.told desk.old) (D.told desk.new) result }
{
    let mut outputs = Words::new_in(source.alloc);
    outputs.push(source.out)?;
    match first_overwriting(source.web, &outputs) {
        Some(name) => refuse_word(source.alloc, desk, b"! Output file would overwrite ", name),
        None => write_web(source, desk, steps),
    }
}

/// Reads the web that was asked for and writes the tool's file of it, or prints why there is no web, or that the file
/// would overwrite an input.
pub fn run_tool<T: Tool, D: Desk, L: Ledger>(
    alloc: Global,
    tool: &T,
    asked: Asked,
    desk: &mut D,
    steps: &mut Steps<L>,
) -> Result<Exit, PutError>
    requires { 0 < length asked.web.now }
    ensures runs { (files : Files) → (D.told desk.new).agrees files →
        Runs (tool_web T.text (asked_of asked.entry)
        (merged (get files) asked.entry.web.now (Some asked.entry.change.now)))
        (D.told desk.old) (D.told desk.new) result }
    ensures faults { Faults (D.told desk.old) (D.told desk.new) result }
    ensures real { IfOk result (λ exit. exit ≢ Exit.Fault) }
{
    match load(alloc, desk, asked.web, Some(asked.change)) {
        Ok(web) => {
            let out = asked.out;
            let source = ToolSource {
                alloc,
                tool,
                web: &web,
                out,
            };
            write_sparing(&source, desk, steps)
        }
        Err(LoadError::NoWeb) => refuse_word(alloc, desk, b"! Cannot open web file ", asked.web),
        Err(LoadError::NoChange) => {
            refuse_word(alloc, desk, b"! Cannot open change file ", asked.change)
        }
        Err(LoadError::TooLong) => refuse(desk, b"! Input is longer than 8388608 bytes\n"),
        Err(LoadError::Fault) => Err(PutError::Fault),
        Err(LoadError::Memory) => Err(PutError::Memory),
    }
}

// Does what the words ask for.
fn run_words<T: Tool, D: Desk, L: Ledger>(
    alloc: Global,
    tool: &T,
    words: &Words,
    desk: &mut D,
    steps: &mut Steps<L>,
) -> Result<Exit, PutError>
    ensures runs { (files : Files) → (D.told desk.new).agrees files →
        Runs (tool_run T.usage T.text words.now (get files)) (D.told desk.old) (D.told desk.new) result }
    ensures faults { Faults (D.told desk.old) (D.told desk.new) result }
    ensures real { IfOk result (λ exit. exit ≢ Exit.Fault) }
    ensures unread { asked words.now ≡ None → OnlyPuts (D.told desk.old) (D.told desk.new) }
{
    match read_asked(words) {
        Some(asked) => run_tool(alloc, tool, asked, desk, steps),
        None => refuse(desk, tool.usage_line()),
    }
}

/// Reads the words of a command line and does what they ask a tool for: reads a web over the files of the desk, writes
/// the tool's file of it, and answers the status of the run. It prints nothing after a fault or out of memory, and
/// tries no failed call again.
///
/// Whatever the desk is: over all files that would have given the answers that it gave, it has done what these files
/// ask for. Words that ask for nothing open no file.
pub fn tool_command<T: Tool, D: Desk, L: Ledger>(
    alloc: Global,
    tool: &T,
    words: &Words,
    desk: &mut D,
    steps: &mut Steps<L>,
) -> Exit
    ensures written { (files : Files) → (D.told desk.new).agrees files →
        Outcome (tool_run T.usage T.text words.now (get files))
        (D.told desk.old).journal (D.told desk.new).journal result }
    ensures passed { (files : Files) → (D.told desk.new).agrees files →
        (D.told desk.old).handed ≤ (D.told desk.new).handed }
    ensures kept { (D.told desk.old).faults ≤ (D.told desk.new).faults }
    ensures fault { result ≡ Exit.Fault → Rose (D.told desk.old).faults (D.told desk.new).faults }
    ensures unread { asked words.now ≡ None → OnlyPuts (D.told desk.old) (D.told desk.new) }
{
    status_of(run_words(alloc, tool, words, desk, steps))
}
