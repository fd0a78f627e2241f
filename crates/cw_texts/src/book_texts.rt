//! The C texts of a book's sections, found section by section.
ghost use Rattle.std.specs.Prelude.{◌≡◌, ◌-◌, ◌<◌, ◌≤◌, [], IfOk, OnErr, OnOk, drop, length};
ghost use Rattle.cw_texts.specs.Coming.{GivesRef};
ghost use Rattle.cw_texts.specs.model.Coming.{left_in};
ghost use Rattle.cw_texts.specs.Texts.{texts_of};

use crate::text_list::{TextList, TextRef, add_section};
use cw_base::Memory;
use cw_phase1::Outline;
use cw_secnames::NameUses;
use std::alloc::Global;
use std::marker::Model;

/// The C texts of a web's sections that are still to come, in the order in which they are woven. Only those of one
/// section stand in memory at a time. They are seen as their list.
#[derive(Drop)]
pub struct BookTexts<'a> {
    book: Sections<'a>,
    // How many sections have begun.
    begun: u32,
    // The texts of the last of them, and how many of these were given.
    list: TextList,
    place: usize,
}

// The sections of a book, in their text.
#[derive(Clone, Copy)]
pub(crate) struct Sections<'a> {
    text: &'a [u8],
    uses: &'a NameUses,
    outline: &'a Outline,
}

impl<'a> Model for BookTexts<'a> {
    ghost use Rattle.std.specs.Prelude.{List, drop};
    ghost use Rattle.cw_texts.specs.model.Coming.{left_in};
    ghost use Rattle.cw_texts.specs.declared.text_list.TextRef.{TextRef};

    ghost Value = { List TextRef };

    ghost view = { λ t. left_in t.book t.begun (drop t.place t.list) };
}

impl<'a> BookTexts<'a> {
    /// The texts of all sections. It takes no memory.
    pub fn over(
        alloc: Global,
        text: &'a [u8],
        uses: &'a NameUses,
        outline: &'a Outline,
    ) -> BookTexts<'a>
        ensures { result ≡ texts_of text.now uses.now outline.now.sections }
    {
        BookTexts {
            book: Sections {
                text,
                uses,
                outline,
            },
            begun: 0,
            list: TextList::new_in(alloc),
            place: 0,
        }
    }

    /// The next text. After `Memory` it is still to come.
    pub fn next(&mut self) -> Result<Option<TextRef>, Memory>
        ensures gives { IfOk result (λ next. GivesRef self.old next self.new) }
        ensures memory { OnErr result (self.new ≡ self.old) }
    {
        find_texts(self.book, &mut self.begun, &mut self.list, &mut self.place)?;
        if self.place >= self.list.len() {
            return Ok(None);
        }
        let text = self.list.text_ref(self.place);
        self.place += 1;
        Ok(Some(text))
    }
}

// Begins sections as long as none of the texts found is left. Where none is left then, no section is left either.
fn find_texts(
    book: Sections,
    begun: &mut u32,
    list: &mut TextList,
    place: &mut usize,
) -> Result<(), Memory>
    ensures same { left_in book.entry begun.new (drop place.new list.new)
        ≡ left_in book.entry begun.old (drop place.old list.old) }
    ensures last { OnOk result (length list.new ≤ place.new → length book.entry.outline.now.sections ≤ begun.new) }
{
    'sections: while *place >= list.len() {
        if *begun >= book.outline.section_count() {
            return Ok(());
        }
        find_section(book, *begun + 1, list)?;
        *begun += 1;
        *place = 0;
    }
    Ok(())
}

// Finds the texts of the section of a number, in the vector of those that were found before.
fn find_section(book: Sections, number: u32, list: &mut TextList) -> Result<(), Memory>
    requires first { 0 < number }
    requires last { number ≤ length book.outline.now.sections }
    ensures texts { OnOk result (left_in book.entry number list.new ≡ left_in book.entry (number - 1) []) }
    ensures none { OnErr result (list.new ≡ []) }
{
    let section = book.outline.section(number);
    list.clear();
    match add_section(book.text, book.uses, number, section, list) {
        Ok(()) => Ok(()),
        Err(Memory) => {
            list.clear();
            Err(Memory)
        }
    }
}
