//! The C texts of a book, which are translated and printed one by one.
ghost use Rattle.std.specs.Prelude.{◌≡◌, ◌^◌, ◌<◌, ◌≤◌, ◌++◌, false, length, true, IfOk, OnErr, OnOk};
ghost use Rattle.cw_lex.specs.Lexing.{tokens_of};
ghost use Rattle.cw_lex.specs.Nested.{begins_section_in, is_c_mode};
ghost use Rattle.cw_lines.specs.Sheets.{CanPrint, IsSameSheet, Prints};
ghost use Rattle.cw_translator.specs.NameParts.{AreNamesOf};
ghost use Rattle.cw_scraps.specs.Marking.{marked_names};
ghost use Rattle.cw_scraps.specs.Lines.{IsNamedBelow};
ghost use Rattle.cw_press.specs.model.Printing.{setting_of, text_bytes, text_printed};
ghost use Rattle.cw_press.specs.Texts.{lasting};
ghost use Rattle.cw_press.specs.model.Translation.{IsKept, Translates, in_store, stored, tree_of};
ghost use Rattle.cw_press.specs.Weaving.{NotesFirst, Weaves, press, underlined};
ghost use Rattle.cw_tokens.specs.Shapes.{unfolded};

use crate::Counts;
use cw_answers::{Answers, Reader};
use cw_base::{Flags, Ledger, Memory, Span, Steps};
use cw_desk::Desk;
use cw_lex::Mode;
use cw_lines::{PutError, Sheet};
use cw_names::Xrefs;
use cw_phase1::Book;
use cw_print::{KeptText, print_answers};
use cw_reduce::{Context, Unrecorded, Work, translate_read};
use cw_scraps::Marks;
use cw_tokens::{ListId, TokenStore};
use std::alloc::Global;
use std::marker::Model;
use std::mem;

/// A C text of a web's text: where it stands, how it is scanned, and how it is printed.
#[derive(Clone, Copy)]
pub struct CText<'a> {
    pub text: &'a [u8],
    pub span: Span,
    pub mode: Mode,
    /// Whether it is inner C text.
    pub inner: bool,
    /// The present section, or 0 in the section list.
    pub section: u32,
    pub flags: &'a Flags,
}

/// A C text that is translated and not yet printed: the answers of its scan, its tree, and what was counted.
#[derive(Drop)]
pub struct TranslatedText<'a> {
    text: CText<'a>,
    answers: Answers<'a>,
    store: TokenStore,
    list: ListId,
    counts: Counts,
}

/// A C text that is translated into a store: the list of its tree there, and what was counted.
#[derive(Clone, Copy)]
pub struct StoredText {
    pub list: ListId,
    pub counts: Counts,
}

/// What the translation of a C text works in, which may be kept from text to text.
#[derive(Drop)]
pub struct Rooms<'a> {
    pub store: TokenStore,
    pub answers: Answers<'a>,
    pub reader: Reader<'a>,
}

impl<'a> Rooms<'a> {
    /// Nothing is kept yet. It takes no memory.
    pub fn new_in(alloc: Global) -> Rooms<'a> {
        Rooms {
            store: TokenStore::new_in(alloc),
            answers: Answers::new_in(alloc),
            reader: Reader::over(alloc, b"", Span { start: 0, end: 0 }, Mode::Inner),
        }
    }
}

/// The list of a C text's tree, in the store that has it, with the answers of the text's scan.
#[derive(Clone, Copy)]
pub struct StoredTree<'s, 'a> {
    pub text: CText<'a>,
    pub answers: &'s Answers<'a>,
    pub store: &'s TokenStore,
    pub list: ListId,
}

impl StoredTree<'_, '_> {
    /// Prints it, with the book that its translation has left.
    pub fn print<D: Desk>(
        self,
        alloc: Global,
        book: &Book,
        sheet: &mut Sheet<D>,
    ) -> Result<(), PutError>
        requires can { CanPrint D.told sheet.old }
        requires kept { IsKept self.text self.answers.now self.list.index (length self.store.now.lists) }
        requires named { IsNamedBelow (length book.now.names) (unfolded self.store.now.lists self.list.index) }
        ensures { Prints D.told (text_bytes self.entry.text book.now
            (unfolded self.entry.store.now.lists self.entry.list.index))
            sheet.old sheet.new result }
    {
        let text = KeptText {
            answers: self.answers,
            book,
            section: self.text.section,
            flags: self.text.flags,
            inner: self.text.inner,
        };
        print_answers(alloc, text, self.store, self.list, sheet)
    }
}

impl<'a> Model for TranslatedText<'a> {
    ghost use Rattle.std.specs.Prelude.{length};
    ghost use Rattle.cw_press.specs.model.Translation.{IsKept, TranslatedState};

    ghost Value = { TranslatedState };

    ghost view = { λ t. record { text = t.text; lists = t.store.lists; root = t.list.index; counts = t.counts } };

    ghost invariant = { λ t. IsKept t.text t.answers t.list.index (length t.store.lists) };
}

impl<'a> TranslatedText<'a> {
    /// The scraps and the productions of the text, those of inner texts included.
    pub fn counts(&self) -> Counts
        ensures { result ≡ self.now.counts }
    {
        self.counts
    }

    /// Prints the text, with the book that its translation has left.
    pub fn print<D: Desk>(
        &self,
        alloc: Global,
        book: &Book,
        sheet: &mut Sheet<D>,
    ) -> Result<(), PutError>
        requires can { CanPrint D.told sheet.old }
        requires named { IsNamedBelow (length book.now.names) (tree_of self.now) }
        ensures { Prints D.told (text_bytes self.now.text book.now (tree_of self.now)) sheet.old sheet.new result }
    {
        let tree = StoredTree {
            text: self.text,
            answers: &self.answers,
            store: &self.store,
            list: self.list,
        };
        tree.print(alloc, book, sheet)
    }
}

// With how much capacity a translation begins: enough for most texts, so that their lists are never moved.
fn first_room(span: Span) -> usize
    requires order { span.start ≤ span.end }
{
    (span.end - span.start).min(4096) + 16
}

// Makes capacity for the lists of a text. Where there is too little, an inner text gets some for those behind it too.
fn make_room(store: &mut TokenStore, span: Span, inner: bool) -> Result<(), Memory>
    requires order { span.start ≤ span.end }
    ensures lists { store.new.lists ≡ store.old.lists }
    ensures building { store.new.building ≡ store.old.building }
{
    let room = first_room(span);
    if room <= store.spare() {
        return Ok(());
    }
    store.reserve(if inner { room.max(64) } else { room })
}

/// Translates a C text without printing it. Its marks go to the book's occurrences, and the book's names get the
/// categories behind it. After `Memory` the first of its marks, or none, are among the occurrences.
pub fn translate_text<'a, L: Ledger>(
    alloc: Global,
    c: CText<'a>,
    book: &mut Book,
    steps: &mut Steps<L>,
) -> Result<TranslatedText<'a>, Memory>
    requires order { c.span.start ≤ c.span.end }
    requires within { c.span.end ≤ length c.text.now }
    requires short { length c.text.now ≤ 2 ^ 24 }
    requires c_text { is_c_mode c.mode ≡ true }
    requires uncut { begins_section_in (tokens_of c.text.now c.span.start c.span.end c.mode) ≡ false }
    requires kept { AreNamesOf book.old.sec_names book.old.name_uses }
    ensures translates { Translates (setting_of c.entry (lasting book.old))
        (text_printed c.entry (lasting book.old) book.old.names) book.old book.new steps.old steps.new result }
    // Printed with the book that is left, the tree is what the text prints.
    ensures printed { IfOk result (λ text. text_bytes text.text book.new (tree_of text)
        ≡ (text_printed c.entry (lasting book.old) book.old.names).out) }
    ensures named { IfOk result (λ text. IsNamedBelow (length book.new.names) (tree_of text)) }
    ensures noted { OnErr result (NotesFirst (underlined c.entry.section
        (text_printed c.entry (lasting book.old) book.old.names).marks) book.old.xrefs book.new.xrefs) }
{
    let mut rooms = Rooms::new_in(alloc);
    let done = translate_into(&mut rooms, alloc, c, book, steps)?;
    Ok(TranslatedText {
        text: c,
        answers: rooms.answers,
        store: rooms.store,
        list: done.list,
        counts: done.counts,
    })
}

/// The same with a store, a reader and a vector for answers that may have been used before.
pub fn translate_into<'a, L: Ledger>(
    rooms: &mut Rooms<'a>,
    alloc: Global,
    c: CText<'a>,
    book: &mut Book,
    steps: &mut Steps<L>,
) -> Result<StoredText, Memory>
    requires order { c.span.start ≤ c.span.end }
    requires within { c.span.end ≤ length c.text.now }
    requires short { length c.text.now ≤ 2 ^ 24 }
    requires c_text { is_c_mode c.mode ≡ true }
    requires uncut { begins_section_in (tokens_of c.text.now c.span.start c.span.end c.mode) ≡ false }
    requires kept { AreNamesOf book.old.sec_names book.old.name_uses }
    ensures translates { Translates (setting_of c.entry (lasting book.old))
        (text_printed c.entry (lasting book.old) book.old.names) book.old book.new steps.old steps.new
        (stored c.entry rooms.new.store.lists result) }
    ensures printed { IfOk result (λ done. text_bytes c.entry book.new
        (tree_of (in_store c.entry rooms.new.store.lists done))
        ≡ (text_printed c.entry (lasting book.old) book.old.names).out) }
    ensures named { IfOk result
        (λ done. IsNamedBelow (length book.new.names) (tree_of (in_store c.entry rooms.new.store.lists done))) }
    ensures kept { IfOk result
        (λ done. IsKept c.entry rooms.new.answers done.list.index (length rooms.new.store.lists)) }
    ensures noted { OnErr result (NotesFirst (underlined c.entry.section
        (text_printed c.entry (lasting book.old) book.old.names).marks) book.old.xrefs book.new.xrefs) }
{
    rooms.store.reset();
    make_room(&mut rooms.store, c.span, c.inner)?;
    let room = mem::replace(&mut rooms.answers, Answers::new_in(alloc));
    rooms.reader.restart(room, c.text, c.span, c.mode);
    let mut marks = Marks::new_in(alloc);
    let context = Context {
        sec_names: &book.sec_names,
        uses: &book.name_uses,
        flags: c.flags,
        alloc,
    };
    let mut work = Work {
        names: &mut book.names,
        store: &mut rooms.store,
        marks: &mut marks,
        steps,
        recorder: Unrecorded,
    };
    let done = translate_read(&mut rooms.reader, &context, &mut work)?;
    rooms.answers = rooms.reader.take_answers(alloc)?;
    note_marks(&marks, c.section, &mut book.xrefs)?;
    Ok(StoredText {
        list: done.list,
        counts: Counts {
            scraps: done.scraps,
            productions: done.productions,
        },
    })
}

/// Translates a C text and prints it.
pub fn print_text<D: Desk, L: Ledger>(
    alloc: Global,
    c: CText,
    book: &mut Book,
    sheet: &mut Sheet<D>,
    steps: &mut Steps<L>,
) -> Result<Counts, PutError>
    requires can { CanPrint D.told sheet.old }
    requires order { c.span.start ≤ c.span.end }
    requires within { c.span.end ≤ length c.text.now }
    requires short { length c.text.now ≤ 2 ^ 24 }
    requires c_text { is_c_mode c.mode ≡ true }
    requires uncut { begins_section_in (tokens_of c.text.now c.span.start c.span.end c.mode) ≡ false }
    requires kept { AreNamesOf book.old.sec_names book.old.name_uses }
    ensures weaves { Weaves (setting_of c.entry (lasting book.old))
        (text_printed c.entry (lasting book.old) book.old.names)
        (press D.told book.old sheet.old steps.old) (press D.told book.new sheet.new steps.new) result }
    ensures same { IsSameSheet sheet.old sheet.new }
{
    let translated = translate_text(alloc, c, book, steps)?;
    translated.print(alloc, book, sheet)?;
    Ok(translated.counts())
}

// Adds each mark to the occurrences, underlined in this section. The section list has number 0, and none.
fn note_marks(marks: &Marks, section: u32, xrefs: &mut Xrefs) -> Result<(), Memory>
    ensures ok { OnOk result (xrefs.new ≡ xrefs.old ++ underlined section (marked_names marks.now)) }
    ensures err { OnErr result
        (NotesFirst (underlined section (marked_names marks.now)) xrefs.old xrefs.new) }
{
    if section == 0 {
        return Ok(());
    }
    for i in 0..marks.len() {
        xrefs.note(marks.name(i), section, true)?;
    }
    Ok(())
}
