//! The log of a web, written text by text.
ghost use Rattle.std.specs.Prelude.{[], ◌≡◌, All, IfOk, IsTrue, OnOk};
ghost use Rattle.std.specs.List.{flat_map};
ghost use Rattle.cw_base.specs.declared.event.Out.TheVariants.{Tex};
ghost use Rattle.cw_desk.specs.Journal.{byte_events};
ghost use Rattle.cw_desk.specs.Meaning.{is_open};
ghost use Rattle.cw_each.specs.EachText.{text_ended};
ghost use Rattle.cw_each.specs.EachForms.{IsWholeRef};
ghost use Rattle.cw_lines.specs.Writes.{Adds};
ghost use Rattle.cw_logs.specs.LogText.{log_text};
ghost use Rattle.cw_translator.specs.NameParts.{AreNamesOf};
ghost use Rattle.cw_log.specs.LogOfWeb.{blocks_from, text_blocks};
ghost use Rattle.cw_log.specs.model.Writing.{block_bytes, ended_by, source_of, texts_in};

use crate::logs::ProductionLog;
use cw_base::{Bytes, Flags, Ledger, Memory, Out, Steps, Web};
use cw_desk::Desk;
use cw_each::whole_texts_law;
use cw_lines::{PutError, write_all};
use cw_logs::append_block;
use cw_names::Names;
use cw_phase1::{Book, Outline};
use cw_reduce::{Context, Work, translate_recorded};
use cw_run::Tool;
use cw_scraps::Marks;
use cw_texts::{BookTexts, TextRef};
use cw_tokens::TokenStore;
use std::alloc::Global;

/// The tool that writes the log of a web.
#[derive(Clone, Copy)]
pub struct LogTool;

impl Tool for LogTool {
    ghost use Rattle.cw_log.specs.Command.{usage_text};
    ghost use Rattle.cw_log.specs.LogOfWeb.{log_file};

    ghost usage = { usage_text };

    ghost text = { λ web. log_file web.lines };

    fn usage_line(&self) -> &'static [u8] {
        USAGE
    }

    fn write<D: Desk, L: Ledger>(
        &self,
        alloc: Global,
        web: &Web,
        book: &mut Book,
        desk: &mut D,
        steps: &mut Steps<L>,
    ) -> Result<(), PutError> {
        whole_texts_law(); // (for the proof)
        let flags = Flags::start();
        let context = Context {
            sec_names: &book.sec_names,
            uses: &book.name_uses,
            flags: &flags,
            alloc,
        };
        let source = WebSource {
            text: web.text(),
            context,
            outline: &book.outline,
        };
        write_book(&source, &mut book.names, desk, steps)
    }
}

/// The usage text of the program, with its line's end.
pub(crate) const USAGE: &[u8] = b"! Usage: cwlog write web change|- out, or cwlog check log\n";

// What stays while the C texts of a web are translated.
#[derive(Clone, Copy)]
pub(crate) struct WebSource<'a> {
    pub text: &'a [u8],
    pub context: Context<'a>,
    pub outline: &'a Outline,
}

// Writes the blocks of all texts of a web, which begins with these names.
fn write_book<D: Desk, L: Ledger>(
    source: &WebSource,
    names: &mut Names,
    desk: &mut D,
    steps: &mut Steps<L>,
) -> Result<(), PutError>
    requires made { IsTrue (is_open (D.told desk.old).outputs Tex) }
    requires kept { AreNamesOf (source_of source.now).sec_names (source_of source.now).name_uses }
    requires whole { All (IsWholeRef source.now.text.now) (texts_in source.now) }
    ensures { Adds (byte_events Tex (log_text (blocks_from (source_of source.now) (texts_in source.now) names.old)))
        (D.told desk.old) (D.told desk.new) result }
{
    let alloc = source.context.alloc;
    let mut texts = BookTexts::over(alloc, source.text, source.context.uses, source.outline);
    let mut store = TokenStore::new_in(alloc);
    let mut marks = Marks::new_in(alloc);
    let mut work = Work {
        names,
        store: &mut store,
        marks: &mut marks,
        steps,
        recorder: ProductionLog::new_in(alloc),
    };
    write_texts(source, &mut texts, &mut work, desk)
}

// Writes the blocks of all texts that are to come: those of each as soon as it is translated.
fn write_texts<D: Desk, L: Ledger>(
    source: &WebSource,
    texts: &mut BookTexts,
    work: &mut Work<L, ProductionLog>,
    desk: &mut D,
) -> Result<(), PutError>
    requires made { IsTrue (is_open (D.told desk.old).outputs Tex) }
    requires kept { AreNamesOf (source_of source.now).sec_names (source_of source.now).name_uses }
    requires whole { All (IsWholeRef source.now.text.now) texts.old }
    ensures { Adds (byte_events Tex (log_text (blocks_from (source_of source.now) texts.old work.old.names.now)))
        (D.told desk.old) (D.told desk.new) result }
{
    'all: loop {
        match texts.next()? {
            Some(text) => write_text(source, text, work, desk)?,
            None => return Ok(()),
        }
    }
}

// Writes the blocks of a text and of its inner texts.
fn write_text<D: Desk, L: Ledger>(
    source: &WebSource,
    text: TextRef,
    work: &mut Work<L, ProductionLog>,
    desk: &mut D,
) -> Result<(), PutError>
    requires made { IsTrue (is_open (D.told desk.old).outputs Tex) }
    requires kept { AreNamesOf (source_of source.now).sec_names (source_of source.now).name_uses }
    requires whole { IsWholeRef source.now.text.now text }
    ensures names { OnOk result (work.new.names.now ≡
        (text_ended (source_of source.now) text work.old.names.now).known.names) }
    ensures written { Adds (byte_events Tex (log_text (text_blocks (source_of source.now).flags
        (ended_by (source_of source.now) text work.old.names.now)))) (D.told desk.old) (D.told desk.new) result }
{
    let blocks = text_blocks(source, text, work)?;
    write_all(desk, Out::Tex, blocks.as_slice())
}

// The blocks of a text and of its inner texts, as they are written. The store is emptied first.
fn text_blocks<L: Ledger>(
    source: &WebSource,
    part: TextRef,
    work: &mut Work<L, ProductionLog>,
) -> Result<Bytes, Memory>
    requires kept { AreNamesOf (source_of source.now).sec_names (source_of source.now).name_uses }
    requires whole { IsWholeRef source.now.text.now part }
    ensures names { OnOk result (work.new.names.now ≡
        (text_ended (source_of source.now) part work.old.names.now).known.names) }
    ensures text { IfOk result (λ bytes. bytes ≡ log_text (text_blocks (source_of source.now).flags
        (ended_by (source_of source.now) part work.old.names.now))) }
{
    let alloc = source.context.alloc;
    let marks = Marks::new_in(alloc);
    let recorder = ProductionLog::new_in(alloc);
    work.store.reset();
    *work.marks = marks;
    work.recorder = recorder;
    translate_recorded(source.text, part.span, part.mode, &source.context, work)?;
    blocks_of(alloc, work.names, &work.recorder)
}

// For how many bytes the blocks of a short text have capacity, so that they seldom grow.
const ROOM: usize = 64;

// No blocks yet.
fn no_blocks(alloc: Global) -> Result<Bytes, Memory>
    ensures { IfOk result (λ bytes. bytes ≡ []) }
{
    Ok(Bytes::from_vec(Vec::with_capacity(alloc, ROOM)?))
}

// The blocks of logs, as they are written.
fn blocks_of(alloc: Global, names: &Names, log: &ProductionLog) -> Result<Bytes, Memory>
    ensures { IfOk result (λ bytes. bytes ≡ flat_map (block_bytes names.now) log.now.ended) }
{
    let mut blocks = no_blocks(alloc)?;
    for i in 0..log.len() {
        append_block(&mut blocks, names, log.text_log(i))?;
    }
    Ok(blocks)
}
