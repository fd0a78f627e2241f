//! The walk over the items of a C text, which makes the bytes that they print by where they stand.
ghost use Rattle.std.specs.Prelude.{◌≡◌, ◌++◌, [], Bool, None, Option, IfSome, OnOk, option_map};
ghost use Rattle.std.specs.Prelude.{false};
ghost use Rattle.std.specs.Bool.{OnFalse};
ghost use Rattle.std.specs.Option.{option_map_or};
ghost use Rattle.cw_rules.specs.Answers.{seen};
ghost use Rattle.cw_base.specs.Conditions.{list_if};
ghost use Rattle.cw_lex.specs.Limbo.{is_name_kind};
ghost use Rattle.cw_print.specs.Found.{numbered};
ghost use Rattle.cw_print.specs.Showing.{number_shown};
ghost use Rattle.cw_print.specs.Sources.{titles};
ghost use Rattle.cw_print.specs.Tokens.{sign_macro};
ghost use Rattle.cw_print.specs.Walk.{Stand, Title, control_shown};
ghost use Rattle.cw_print.specs.Walk.{named_shown, outer_shown, outside};
ghost use Rattle.cw_print.specs.Walk.{shown_as, seen_shown, source_shown};
ghost use Rattle.cw_print.specs.model.Walked.{behind};

use crate::book_titles::title_at;
use crate::braces::OpenBraces;
use crate::comments::put_closing_braces;
use crate::name_walk::NameWalk;
use crate::scan::Seek;
use crate::showing::put_found;
use crate::signs::put_sign;
use cw_answers::Answers;
use cw_base::{Bytes, Memory};
use cw_lex::{Tok, is_section_name};
use cw_phase1::Book;
use cw_trees::Control;
use std::alloc::Global;
use std::marker::Model;

/// How a C text is printed.
#[derive(Clone, Copy)]
pub(crate) struct Manner {
    /// Inner texts stand in `\PB{` and `}`.
    pub wraps: bool,
    /// The present section is the first that defines its name.
    pub first: bool,
    /// Names list all sections that define them.
    pub lists: bool,
}

/// A walk over the items of a C text in their order: where the printing stands in section names, in comments, and among
/// the answers of the scanner.
#[derive(Drop)]
pub(crate) struct TextWalk<'s, 'a> {
    answers: &'s Answers<'a>,
    seek: Seek,
    alloc: Global,
    name: Option<NameWalk<'s>>,
    braces: OpenBraces,
    manner: Manner,
}

impl<'s, 'a> Model for TextWalk<'s, 'a> {
    ghost use Rattle.cw_print.specs.model.Scanning.{among, IsSeeking};
    ghost use Rattle.cw_print.specs.model.Walked.{Walked};

    ghost Value = { Walked };

    ghost view = { λ w. record {
      fixed = record {
        answers = among w.answers.now w.seek;
        wraps = w.manner.wraps;
        first = w.manner.first;
        lists = w.manner.lists;
      };
      stand = record { name = w.name; braces = w.braces };
    } };

    ghost invariant = { λ w. IsSeeking w.answers.now w.seek };
}

impl<'s, 'a> TextWalk<'s, 'a> {
    /// A walk that stands before the first item of the text with these answers.
    pub(crate) fn over(alloc: Global, answers: &'s Answers<'a>, manner: Manner) -> TextWalk<'s, 'a>
        ensures answers { result.fixed.answers ≡ answers.now }
        ensures wraps { result.fixed.wraps ≡ manner.wraps }
        ensures first { result.fixed.first ≡ manner.first }
        ensures lists { result.fixed.lists ≡ manner.lists }
        ensures outside { result.stand ≡ outside }
    {
        TextWalk {
            answers,
            seek: Seek::over(answers),
            alloc,
            name: None,
            braces: OpenBraces::new_in(alloc),
            manner,
        }
    }

    /// Appends what a token of the text prints by where it stands. A section name prints as the book keeps it.
    #[inline(always)]
    pub(crate) fn show_source(
        &mut self,
        out: &mut Bytes,
        number: u32,
        book: &'s Book,
    ) -> Result<(), Memory>
        ensures bytes { OnOk result (out.new ≡ out.old
            ++ (source_shown self.old.fixed (titles book.now number) self.old.stand.name number self.old.stand).bytes) }
        ensures stand { OnOk result (self.new ≡ behind self.old
            (source_shown self.old.fixed (titles book.now number) self.old.stand.name number self.old.stand)) }
    {
        if self.name.is_none() {
            if let Some(sign) = self.seek.next_sign(self.answers, number) {
                return put_sign(out, sign);
            }
        }
        self.show_other(out, number, book)
    }

    // The same of any token. It stands apart, since most tokens are signs.
    #[inline(never)]
    fn show_other(&mut self, out: &mut Bytes, number: u32, book: &'s Book) -> Result<(), Memory>
        ensures bytes { OnOk result (out.new ≡ out.old
            ++ (source_shown self.old.fixed (titles book.now number) self.old.stand.name number self.old.stand).bytes) }
        ensures stand { OnOk result (self.new ≡ behind self.old
            (source_shown self.old.fixed (titles book.now number) self.old.stand.name number self.old.stand)) }
    {
        match &mut self.name {
            Some(name) => {
                let token = name.find(number);
                put_found(out, self.manner.first, token, &mut self.braces)
            }
            None => self.show_outside(out, number, book),
        }
    }

    // The same outside section names, one of which may begin.
    #[inline(always)]
    fn show_outside(&mut self, out: &mut Bytes, number: u32, book: &'s Book) -> Result<(), Memory>
        requires outside { self.old.stand.name ≡ None }
        ensures bytes { OnOk result (out.new ≡ out.old
            ++ (outer_shown self.old.fixed (titles book.now number) number self.old.stand).bytes) }
        ensures stand { OnOk result (self.new ≡ behind self.old
            (outer_shown self.old.fixed (titles book.now number) number self.old.stand)) }
    {
        let token = self.seek.find(self.answers, number);
        if is_name(token) {
            return self.begin_name(out, number, book);
        }
        put_found(out, self.manner.first, token, &mut self.braces)
    }

    // Appends what the section name at a number prints up to its first inner text, if it has a title.
    #[inline(never)]
    fn begin_name(&mut self, out: &mut Bytes, number: u32, book: &'s Book) -> Result<(), Memory>
        requires outside { self.old.stand.name ≡ None }
        ensures bytes { OnOk result (out.new ≡ out.old
            ++ (named_shown self.old.fixed.lists (titles book.now number) self.old.stand).bytes) }
        ensures stand { OnOk result (self.new ≡ behind self.old
            (named_shown self.old.fixed.lists (titles book.now number) self.old.stand)) }
    {
        if let Some(title) = title_at(book, number) {
            let name = NameWalk::begin(self.alloc, out, &title, self.manner.lists)?;
            self.name = Some(name);
        }
        Ok(())
    }

    /// Appends what a control prints by where it stands; signs that print the same everywhere print nothing here.
    #[inline(never)]
    pub(crate) fn show_control(&mut self, out: &mut Bytes, control: Control) -> Result<(), Memory>
        ensures bytes { OnOk result (out.new ≡ out.old ++ (control_shown control self.old.stand).bytes) }
        ensures stand { OnOk result (self.new ≡ behind self.old (control_shown control self.old.stand)) }
    {
        match control {
            Control::CommentEnd => {
                put_closing_braces(out, self.braces.innermost())?;
                self.braces.end();
                Ok(())
            }
            Control::NameText => match &mut self.name {
                Some(name) => name.next(out),
                None => Ok(()),
            },
            Control::NameEnd => {
                out.append(b"\\X")?;
                self.name = None;
                Ok(())
            }
            _ => Ok(()),
        }
    }

    /// Appends the bytes that stand before or behind an inner text, where these are wrapped.
    pub(crate) fn put_bracket(&self, out: &mut Bytes, bytes: &[u8]) -> Result<(), Memory>
        ensures { OnOk result (out.new ≡ out.old ++ list_if self.now.fixed.wraps bytes.now) }
    {
        if self.manner.wraps {
            out.append(bytes)?;
        }
        Ok(())
    }
}

/// Whether a control prints by where it stands: the end of a comment, or a place in a section name.
pub(crate) fn is_placed(control: Control) -> bool
    ensures { OnFalse result ((stand : Stand) → control_shown control stand ≡ shown_as [] stand) }
{
    matches!(
        control,
        Control::CommentEnd | Control::NameText | Control::NameEnd
    )
}

// Whether a token was found and is a section name.
fn is_name(token: Option<Tok>) -> bool
    ensures { result ≡ option_map_or (λ token. is_name_kind token.kind) (option_map seen token.entry) false }
{
    match token {
        Some(token) => is_section_name(token.kind),
        None => false,
    }
}
