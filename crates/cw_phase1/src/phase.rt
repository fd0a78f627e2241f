//! The first phase.
ghost use Rattle.std.specs.Prelude.{◌≡◌, ◌<◌, ◌≤◌, ◌++◌, All, length, IfOk, IfSome, OnOk};
ghost use Rattle.cw_base.specs.Web.{text_of};
ghost use Rattle.cw_phase1.specs.Book.{book};
ghost use Rattle.cw_phase1.specs.model.Ending.{AreOfKept, IsMadeOf, IsScanned, notes_at, section_total};
ghost use Rattle.cw_phase1.specs.model.Ending.{with_references};
ghost use Rattle.cw_phase1.specs.model.Holding.{held_of};
ghost use Rattle.cw_phase1.specs.Missing.{missing_equals};
ghost use Rattle.cw_phase1.specs.Notes.{name_note as noted_name, name_notes};
ghost use Rattle.cw_phase1.specs.model.Outlining.{closing};
ghost use Rattle.cw_phase1.specs.model.Ready.{held_start};
ghost use Rattle.cw_phase1.specs.Sound.{IsNamedBy, LiesIn, RefersUpTo};

use crate::book::{Book, Outline};
use crate::missing::Search;
use crate::name_lists::{NameLists, References};
use crate::note_list::NoteList;
use crate::pass_state::PassState;
use crate::sections::or_else;
use crate::token_lists::TokenLists;
use crate::words::Words;
use cw_base::{Memory, Note, NoteKind, Place, Span, Web};
use cw_lex::{Lexed, Lexer, Mode, limbo_law};
use cw_secnames::{SecId, SecKind, SecNames};
use std::alloc::Global;

/// Reads the scanner's answers for a web once, from the left, and makes its book.
pub fn phase_one(alloc: Global, web: &Web) -> Result<Book, Memory>
    ensures book { IfOk result (λ b. b ≡ book web.now.lines) }
    ensures references { IfOk result (λ b. All (RefersUpTo (length b.outline.sections)) b.sec_names) }
    ensures texts { IfOk result (λ b. All (λ n. length n.text ≤ length (text_of web.now.lines)) b.sec_names) }
    ensures use_ids { IfOk result (λ b. All (λ u. u.name < length b.sec_names) b.name_uses) }
    ensures section_names { IfOk result (λ b. All (IsNamedBy b.name_uses) b.outline.sections) }
    ensures section_ids { IfOk result
        (λ b. All (λ s. IfSome s.name (λ id. id.index < length b.sec_names)) b.outline.sections) }
    ensures spans { IfOk result (λ b. All (LiesIn (length (text_of web.now.lines))) b.outline.sections) }
    ensures limbo_span { IfOk result (λ b. b.outline.limbo.«end» ≤ length (text_of web.now.lines)) }
{
    limbo_law(); // (for the proof)
    let held = scan(alloc, web)?;
    let book = make_book(web, held)?;
    Ok(book)
}

// Takes all answers of the scanner.
fn scan<'a>(alloc: Global, web: &'a Web) -> Result<PassState<'a>, Memory>
    ensures { IfOk result (λ h. IsScanned web.now.lines (held_of h)) }
{
    let mut held = PassState::new_in(alloc)?;
    hold_answers(web, &mut held).and(Ok(held))
}

// The same, where nothing is held yet.
fn hold_answers<'a>(web: &'a Web, held: &mut PassState<'a>) -> Result<(), Memory>
    requires { held_of held.old ≡ held_start }
    ensures { OnOk result (IsScanned web.now.lines (held_of held.new)) }
{
    let text = web.text();
    let mut lexer = Lexer::over(text, 0, text.len(), Mode::Limbo);
    'answers: loop {
        match lexer.next() {
            Lexed::Token(token) => held.token(web, token)?,
            Lexed::Begin(_begin) => held.begin(web)?,
            Lexed::Finish(_finish) => held.finish(web)?,
            Lexed::Note(kind, place) => held.note(web, kind, place)?,
            Lexed::End => break,
        }
    }
    held.finish(web)?;
    Ok(())
}

// Adds each reference to its name.
fn refer(names: &mut SecNames, references: &References) -> Result<(), Memory>
    requires { AreOfKept names.old references.now }
    ensures referred { OnOk result (names.new ≡ with_references references.now names.old) }
    ensures len { OnOk result (length names.new ≡ length names.old) }
{
    for reference in references.as_slice() {
        names.add_ref(reference.id(), reference.how, reference.section)?;
    }
    Ok(())
}

// The notes on a kept name.
fn note_name(names: &SecNames, k: usize, notes: &mut NoteList) -> Result<(), Memory>
    requires within { k < length names.now }
    requires few { length names.now ≤ 16777216 }
    ensures { OnOk result (notes.new ≡ notes.old ++ notes_at k names.now) }
{
    let id = SecId { index: k };
    if !names.complete(id) {
        return notes.push(name_note(NoteKind::NameIncomplete, k as u32));
    }
    if names.defined_in(id).is_empty() {
        notes.push(name_note(NoteKind::NeverDefined, k as u32))?;
    }
    if names.kind(id).is(SecKind::Named) && names.used_in(id).is_empty() {
        notes.push(name_note(NoteKind::NeverUsed, k as u32))?;
    }
    Ok(())
}

fn name_note(kind: NoteKind, value: u32) -> Note
    ensures { result ≡ noted_name kind value }
{
    Note {
        kind,
        value,
        place: Place { file: 0, line: 0 },
    }
}

// The notes on all kept names, in order of entry.
fn note_names(names: &SecNames, notes: &mut NoteList) -> Result<(), Memory>
    requires { length names.now ≤ 16777216 }
    ensures { OnOk result (notes.new ≡ notes.old ++ name_notes names.now) }
{
    for k in 0..names.len() {
        note_name(names, k, notes)?;
    }
    Ok(())
}

// The book of what is held when all answers came.
fn make_book(web: &Web, held: PassState) -> Result<Book, Memory>
    requires ids { AreOfKept held.kept held.told.named.references }
    requires total { section_total held.told.sections ≤ 16777216 }
    requires few { length held.kept ≤ 16777216 }
    requires lie { All (LiesIn (length (text_of web.now.lines)))
        (closing web.now.lines (length (text_of web.now.lines)) held.told.sections) }
    ensures { IfOk result (λ b. IsMadeOf web.now.lines (held_of held.entry) b) }
{
    let mut held = held;
    match complete(web, &mut held) {
        Ok(()) => {}
        Err(memory) => {
            // Dropped by a call: in place it would be proved field by field.
            drop(held);
            return Err(memory);
        }
    }
    let PassState {
        standing: _,
        waiting: _,
        kept,
        told,
        remark: _,
        notes,
        buffer: _,
    } = held;
    let TokenLists {
        words,
        named,
        sections,
    } = told;
    let Words {
        names,
        first: _,
        waits: _,
        xrefs,
    } = words;
    let NameLists {
        uses,
        references: _,
    } = named;
    let limbo = Span {
        start: 0,
        end: or_else(sections.limbo_end, web.text().len()),
    };
    Ok(Book {
        names,
        xrefs,
        sec_names: kept,
        name_uses: uses,
        outline: Outline {
            limbo,
            sections: sections.closed,
            notes,
        },
    })
}

// Closes the last section, and adds what is known of the kept names when all answers came.
fn complete(web: &Web, held: &mut PassState) -> Result<(), Memory>
    requires ids { AreOfKept held.old.kept held.old.told.named.references }
    requires few { length held.old.kept ≤ 16777216 }
    requires lie { All (LiesIn (length (text_of web.now.lines)))
        (closing web.now.lines (length (text_of web.now.lines)) held.old.told.sections) }
    ensures words { OnOk result (held.new.told.words ≡ held.old.told.words) }
    ensures named { OnOk result (held.new.told.named ≡ held.old.told.named) }
    ensures sections { OnOk result (held.new.told.sections ≡ record held.old.told.sections {
      closed = closing web.now.lines (length (text_of web.now.lines)) held.old.told.sections;
    }) }
    ensures kept { OnOk result
        (held.new.kept ≡ with_references held.old.told.named.references held.old.kept) }
    ensures count { OnOk result (length held.new.kept ≡ length held.old.kept) }
    ensures notes { OnOk result (held.new.notes ≡ held.old.notes
        ++ (missing_equals web.now.lines held.old.told.named.uses
        (with_references held.old.told.named.references held.old.kept)
        (closing web.now.lines (length (text_of web.now.lines)) held.old.told.sections)
        ++ name_notes (with_references held.old.told.named.references held.old.kept))) }
{
    held.told.sections.close(web, web.text().len())?;
    held.kept.release();
    refer(&mut held.kept, &held.told.named.references)?;
    let search = Search {
        web,
        names: &held.kept,
        uses: &held.told.named.uses,
    };
    search.note_sections(&held.told.sections.closed, &mut held.notes)?;
    note_names(&held.kept, &mut held.notes)
}
