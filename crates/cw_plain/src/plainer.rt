//! The walk over the items of a C text, which makes its plain text.
ghost use Rattle.std.specs.Prelude.{◌≡◌, ◌++◌, ◌<◌, OnOk, Some, option_copied};
ghost use Rattle.cw_rules.specs.Answers.{seen};
ghost use Rattle.cw_rules.specs.declared.tokens.TokKind.TheVariants as kinds;
ghost use Rattle.cw_tokens.specs.FlatItems.{item_is, items_are};
ghost use Rattle.cw_plain.specs.Pieces.{control_placed, found_placed, name_behind, name_placed, number_placed};
ghost use Rattle.cw_plain.specs.Pieces.{token_placed};
ghost use Rattle.cw_plain.specs.Titles.{titles};
ghost use Rattle.cw_plain.specs.model.Walking.{MakesItem, MakesPlaced, items_text, source_of, walk_begun};

use crate::comments::OpenComments;
use crate::lines::{Lines, one_more};
use cw_answers::Answers;
use cw_base::{Bytes, Memory};
use cw_lex::{Code, Tok, TokKind};
use cw_print::{Finder, put_code_text};
use cw_secnames::{NameUses, SecNames};
use cw_tokens::FlatItem;
use cw_trees::Control;
use std::alloc::Global;
use std::marker::Model;

/// The section names of a book, and where they stand.
#[derive(Clone, Copy)]
pub(crate) struct BookNames<'s> {
    pub kept: &'s SecNames,
    pub uses: &'s NameUses,
}

impl<'s> BookNames<'s> {
    /// The text of the section name at a place.
    fn title(&self, place: u32) -> Option<&'s [u8]>
        ensures { option_copied result ≡ titles self.now.kept.now self.now.uses.now place }
    {
        let id = self.uses.at(place)?;
        if id.index >= self.kept.len() {
            return None;
        }
        Some(self.kept.text(id))
    }
}

/// Where the walk stands: among the tokens of the text, in a section name and in comments, and in the layout.
#[derive(Drop)]
pub(crate) struct Plainer<'s, 'a> {
    alloc: Global,
    finder: Finder<'s, 'a>,
    names: BookNames<'s>,
    // How deep in a section name it stands: 0 outside, 1 in one, and 1 more for each inner text there.
    name: usize,
    comments: OpenComments,
    lines: Lines,
}

impl<'s, 'a> Model for Plainer<'s, 'a> {
    ghost use Rattle.cw_plain.specs.model.Walking.{Walked};

    ghost Value = { Walked };

    ghost view = { λ p. record {
      reads = record { answers = p.finder; kept = p.names.kept.now; uses = p.names.uses.now };
      walk = record { stand = record { name = p.name; comments = p.comments }; laying = p.lines };
    } };
}

impl<'s, 'a> Plainer<'s, 'a> {
    /// A walk that stands before the first item of the text with these answers.
    pub(crate) fn over(
        alloc: Global,
        answers: &'s Answers<'a>,
        names: BookNames<'s>,
    ) -> Plainer<'s, 'a>
        ensures answers { result.reads.answers ≡ answers.now }
        ensures kept { result.reads.kept ≡ names.entry.kept.now }
        ensures uses { result.reads.uses ≡ names.entry.uses.now }
        ensures walk { result.walk ≡ walk_begun }
    {
        Plainer {
            alloc,
            finder: Finder::over(answers),
            names,
            name: 0,
            comments: OpenComments::new_in(alloc),
            lines: Lines::new(),
        }
    }

    /// Appends the text of these items, which are all that are left, and what a run at their end prints.
    pub(crate) fn items(&mut self, items: &[FlatItem], out: &mut Bytes) -> Result<(), Memory>
        ensures { OnOk result (out.new
            ≡ out.old ++ items_text (source_of self.old.reads) self.old.walk (items_are items.now)) }
    {
        for item in items {
            self.item(*item, out)?;
        }
        self.lines.end_run(out)
    }

    fn item(&mut self, item: FlatItem, out: &mut Bytes) -> Result<(), Memory>
        ensures reads { self.new.reads ≡ self.old.reads }
        ensures item { OnOk result (MakesItem self.old (item_is item) out.old self.new out.new) }
    {
        if self.name > 0 {
            return self.pass(item);
        }
        match item {
            FlatItem::Source(number) => self.token(number, out),
            FlatItem::Ident(_, number) => self.token(number, out),
            FlatItem::Reserved(_, number) => self.token(number, out),
            FlatItem::Control(control) => self.control(control, out),
            FlatItem::Open => self.lines.open(out),
            FlatItem::Close => self.lines.close(out),
        }
    }

    // Passes an item of a section name's leaf: only the name's end, outside its inner texts, leads out of it.
    fn pass(&mut self, item: FlatItem) -> Result<(), Memory>
        requires { 0 < self.old.walk.stand.name }
        ensures reads { self.new.reads ≡ self.old.reads }
        ensures name { OnOk result
            (self.new.walk.stand.name ≡ name_behind self.old.walk.stand.name (item_is item)) }
        ensures comments { self.new.walk.stand.comments ≡ self.old.walk.stand.comments }
        ensures laying { self.new.walk.laying ≡ self.old.walk.laying }
    {
        match item {
            FlatItem::Open => self.name = one_more(self.name)?,
            FlatItem::Close => self.name -= 1,
            FlatItem::Control(Control::NameEnd) if self.name == 1 => self.name = 0,
            _ => {}
        }
        Ok(())
    }

    fn control(&mut self, control: Control, out: &mut Bytes) -> Result<(), Memory>
        requires { self.old.walk.stand.name ≡ 0 }
        ensures reads { self.new.reads ≡ self.old.reads }
        ensures makes { OnOk result
            (MakesPlaced self.old (control_placed control self.old.walk.stand) out.old self.new out.new) }
    {
        match control {
            Control::CommentEnd => {
                let end = self.comments.end();
                self.lines.part(end, out)
            }
            _ => self.lines.control(control, out),
        }
    }

    // A number without a token prints nothing.
    fn token(&mut self, number: u32, out: &mut Bytes) -> Result<(), Memory>
        requires { self.old.walk.stand.name ≡ 0 }
        ensures reads { self.new.reads ≡ self.old.reads }
        ensures makes { OnOk result (MakesPlaced self.old
            (number_placed (source_of self.old.reads) number self.old.walk.stand) out.old self.new out.new) }
    {
        match self.finder.find(number) {
            Some(token) => self.found(number, token, out),
            None => self.lines.word(b"", out),
        }
    }

    fn found(&mut self, number: u32, token: Tok, out: &mut Bytes) -> Result<(), Memory>
        requires { self.old.walk.stand.name ≡ 0 }
        ensures reads { self.new.reads ≡ self.old.reads }
        ensures makes { OnOk result (MakesPlaced self.old (found_placed number
            ((source_of self.old.reads).titles number) (Some (seen token.entry)) self.old.walk.stand)
            out.old self.new out.new) }
    {
        match token.kind {
            TokKind::LongComment => {
                self.comments.begin(true)?;
                self.lines.word(b"/*", out)
            }
            TokKind::ShortComment => {
                self.comments.begin(false)?;
                self.lines.word(b"//", out)
            }
            TokKind::Text => self.lines.part(token.text, out),
            TokKind::HeadSign => self.lines.part(b"=", out),
            TokKind::Code(code) => self.code(number, code, token.text, out),
            _ => self.lines.word(token.text, out),
        }
    }

    // Another code than that of a section name prints nothing, but for a text that is copied and for a string.
    fn code(&mut self, number: u32, code: Code, text: &[u8], out: &mut Bytes) -> Result<(), Memory>
        requires { self.old.walk.stand.name ≡ 0 }
        ensures reads { self.new.reads ≡ self.old.reads }
        ensures makes { OnOk result (MakesPlaced self.old (token_placed number
            ((source_of self.old.reads).titles number) (kinds.Code code) text.now self.old.walk.stand)
            out.old self.new out.new) }
    {
        match code {
            Code::SectionName => self.name(number, out),
            Code::FileName => self.name(number, out),
            Code::Verbatim => {
                let mut word = Bytes::new_in(self.alloc);
                put_code_text(&mut word, text)?;
                self.lines.word(word.as_slice(), out)
            }
            Code::Quote => self.lines.word(text, out),
            _ => self.lines.word(b"", out),
        }
    }

    // A section name that has a title prints it in angles, and nothing else of its leaf.
    fn name(&mut self, number: u32, out: &mut Bytes) -> Result<(), Memory>
        requires { self.old.walk.stand.name ≡ 0 }
        ensures reads { self.new.reads ≡ self.old.reads }
        ensures makes { OnOk result (MakesPlaced self.old (name_placed number ((source_of self.old.reads).titles number)
            self.old.walk.stand) out.old self.new out.new) }
    {
        let Some(title) = self.names.title(number) else {
            return self.lines.word(b"", out);
        };
        let mut word = Bytes::from_slice(self.alloc, b"<")?;
        word.append(title)?;
        word.push(b'>')?;
        self.name = 1;
        self.lines.word(word.as_slice(), out)
    }
}
