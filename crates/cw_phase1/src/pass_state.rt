//! What is held behind the answers of the scanner that came.
ghost use Rattle.std.specs.Prelude.{◌≡◌, ◌+◌, ◌<◌, ◌≤◌, true, false, None, IfOk, List, OnOk, length};
ghost use Rattle.cw_base.specs.Web.{MergedLine};
ghost use Rattle.cw_rules.specs.Answers.{seen, Token, Note as NoteAnswer};
ghost use Rattle.cw_rules.specs.Answers.{is_head_sign};
ghost use Rattle.cw_phase1.specs.Entering.{is_unended, note_on_name};
ghost use Rattle.cw_phase1.specs.model.Holding.{
  begun_held,
  ended_held,
  held_of,
  held_step,
  is_silent,
  name_held,
  plain_held,
  remark_of,
  remark_put,
  settled,
};
ghost use Rattle.cw_phase1.specs.model.Telling.{IsKnown};
ghost use Rattle.cw_phase1.specs.model.Ready.{CanSettle, CanTell, IsToken, WaitingIsKept, held_start};

use crate::entering::{enter, kept_id};
use crate::note_list::NoteList;
use crate::placing::Placement;
use crate::texts::name_text;
use crate::token_lists::TokenLists;
use crate::{Part, Role, Standing};
use cw_base::{Memory, NoteKind, Web};
use cw_lex::{Expectation, Tok, TokKind, is_section_name};
use cw_secnames::{Entered, SecId, SecNames};
use std::alloc::Global;

/// A section name that came last, but for its notes, waits: whether it heads a C part shows behind its notes.
#[derive(Clone, Copy)]
pub(crate) struct Waiting<'a> {
    pub token: Tok<'a>,
    pub name: Option<SecId>,
}

/// A note on the name that came last.
#[derive(Clone, Copy)]
pub(crate) struct Remark {
    pub kind: NoteKind,
    pub place: usize,
}

#[derive(Drop)]
pub(crate) struct PassState<'a> {
    pub standing: Standing,
    pub waiting: Option<Waiting<'a>>,
    pub kept: SecNames,
    pub told: TokenLists,
    pub remark: Option<Remark>,
    pub notes: NoteList,
    pub buffer: Vec<u8>,
}

fn is_head_sign(kind: TokKind) -> bool
    ensures { result ≡ is_head_sign kind }
{
    matches!(kind, TokKind::HeadSign)
}

fn is_word(kind: TokKind) -> bool
    ensures { result ≡ true → kind ≡ TokKind.Identifier }
{
    matches!(kind, TokKind::Identifier)
}

// Whether such a token tells nothing of words and names.
fn is_silent(kind: TokKind) -> bool
    ensures { result ≡ is_silent kind }
{
    !matches!(
        kind,
        TokKind::Identifier | TokKind::Code(_) | TokKind::HeadSign
    )
}

/// Whether a note tells that a section name didn't end.
pub(crate) fn is_unended(kind: NoteKind) -> bool
    ensures { result ≡ is_unended kind }
{
    matches!(kind, NoteKind::NameUnended)
}

// The note on what became of a name.
fn remark_on(entered: Entered, place: usize) -> Option<Remark>
    ensures { remark_of result ≡ note_on_name entered place }
{
    match entered {
        Entered::Known(_) | Entered::New(_) => None,
        Entered::Ambiguous(_, _) => Some(Remark {
            kind: NoteKind::AmbiguousPrefix,
            place,
        }),
        Entered::Conflict(_) => Some(Remark {
            kind: NoteKind::NameConflict,
            place,
        }),
    }
}

impl<'a> PassState<'a> {
    pub(crate) fn new_in(alloc: Global) -> Result<PassState<'a>, Memory>
        ensures { IfOk result (λ h. held_of h ≡ held_start) }
    {
        Ok(PassState {
            standing: Standing {
                section: 0,
                part: Part::Limbo,
                wanted: Expectation::Nothing,
            },
            waiting: None,
            kept: SecNames::new_in(alloc),
            told: TokenLists::new_in(alloc)?,
            remark: None,
            notes: NoteList::new_in(alloc),
            buffer: Vec::new(alloc),
        })
    }

    // Puts the note that waits out.
    #[inline(always)]
    pub(crate) fn put_remark(&mut self, web: &Web) -> Result<(), Memory>
        ensures held { OnOk result (held_of self.new ≡ remark_put web.now.lines (held_of self.old)) }
        ensures kept { OnOk result (self.new.kept ≡ self.old.kept) }
    {
        if let Some(remark) = self.remark {
            self.remark = None;
            self.notes.add(web, remark.kind, remark.place)?;
        }
        Ok(())
    }

    // Settles the name that waits.
    #[inline(always)]
    pub(crate) fn settle(&mut self, web: &Web, headed: bool) -> Result<(), Memory>
        requires { CanSettle (held_of self.old) }
        ensures held { OnOk result (held_of self.new ≡ settled web.now.lines headed (held_of self.old)) }
        ensures kept { OnOk result (self.new.kept ≡ self.old.kept) }
    {
        if let Some(waiting) = self.waiting {
            self.waiting = None;
            let role = self.standing.name(headed);
            let p = Placement {
                section: self.standing.section,
                part: self.standing.part,
                role,
                token: waiting.token,
                name: waiting.name,
            };
            self.told.tell(web, &p, &mut self.buffer)?;
        }
        Ok(())
    }

    // Enters a name, which waits then.
    #[inline(never)]
    fn name(&mut self, token: Tok<'a>) -> Result<(), Memory>
        requires { remark_of self.old.remark ≡ None }
        ensures held { OnOk result (held_of self.new ≡ name_held (seen token.entry) (held_of self.old)) }
        ensures kept { OnOk result (WaitingIsKept self.new.waiting (length self.new.kept)) }
        ensures grows { OnOk result (length self.old.kept ≤ length self.new.kept) }
        ensures one { OnOk result (length self.new.kept ≤ length self.old.kept + 1) }
    {
        name_text(&mut self.buffer, token.text)?;
        let entered = enter(&mut self.kept, token, &self.buffer)?;
        self.standing.wanted = Expectation::Nothing;
        match entered {
            Some(entered) => {
                self.remark = remark_on(entered, token.span.start);
                self.waiting = Some(Waiting {
                    token,
                    name: Some(kept_id(entered)),
                });
            }
            None => {
                self.remark = None;
                self.waiting = Some(Waiting { token, name: None });
            }
        }
        Ok(())
    }

    // Any other token.
    #[inline(always)]
    fn plain(&mut self, web: &Web, token: Tok<'a>) -> Result<(), Memory>
        requires waits { self.old.waiting ≡ None }
        requires token { IsToken (seen token) }
        requires ready { CanTell (held_of self.old) }
        ensures held { OnOk result (held_of self.new ≡ plain_held web.now.lines (seen token.entry) (held_of self.old)) }
        ensures kept { OnOk result (WaitingIsKept self.new.waiting (length self.new.kept)) }
        ensures grows { OnOk result (length self.old.kept ≤ length self.new.kept) }
        ensures one { OnOk result (length self.new.kept ≤ length self.old.kept + 1) }
    {
        let role = self.standing.token(token.kind, token.span);
        let p = Placement {
            section: self.standing.section,
            part: self.standing.part,
            role,
            token,
            name: None,
        };
        self.told.tell(web, &p, &mut self.buffer)
    }

    // Whether no name and no note waits, and no head is open.
    #[inline(always)]
    fn is_free(&self) -> bool
        ensures waits { result ≡ true → self.now.waiting ≡ None }
        ensures remark { result ≡ true → self.now.remark ≡ None }
        ensures wanted { result ≡ true → self.now.standing.wanted ≡ Expectation.Nothing }
    {
        self.waiting.is_none()
            && self.remark.is_none()
            && matches!(self.standing.wanted, Expectation::Nothing)
    }

    // An identifier, where nothing waits and no head is open.
    #[inline(always)]
    fn free_word(&mut self, token: Tok<'a>) -> Result<(), Memory>
        requires wanted { self.old.standing.wanted ≡ Expectation.Nothing }
        requires word { token.kind ≡ TokKind.Identifier }
        requires waits { self.old.waiting ≡ None }
        requires known { IsKnown self.old.told.words }
        ensures held { (lines : List MergedLine) → OnOk result
            (held_of self.new ≡ plain_held lines (seen token.entry) (held_of self.old)) }
        ensures waits { OnOk result (self.new.waiting ≡ None) }
        ensures kept { OnOk result (self.new.kept ≡ self.old.kept) }
    {
        let p = Placement {
            section: self.standing.section,
            part: self.standing.part,
            role: Role::Word,
            token,
            name: None,
        };
        self.told.tell_word(&p)
    }

    // A token of C text that is no word and no code, where nothing waits and no head is open.
    #[inline(always)]
    fn free_sign(&mut self, token: Tok<'a>)
        requires wanted { self.old.standing.wanted ≡ Expectation.Nothing }
        requires sign { is_silent token.kind ≡ true }
        requires waits { self.old.waiting ≡ None }
        ensures held { (lines : List MergedLine) →
            held_of self.new ≡ plain_held lines (seen token.entry) (held_of self.old) }
        ensures waits { self.new.waiting ≡ None }
        ensures kept { self.new.kept ≡ self.old.kept }
    {
        let p = Placement {
            section: self.standing.section,
            part: self.standing.part,
            role: Role::Plain,
            token,
            name: None,
        };
        self.told.tell_plain(&p);
    }

    /// One token more. Most are words and signs where nothing waits.
    #[inline(always)]
    pub(crate) fn token(&mut self, web: &Web, token: Tok<'a>) -> Result<(), Memory>
        requires token { IsToken (seen token) }
        requires ready { CanSettle (held_of self.old) }
        requires section { self.old.standing.section < 4294967295 }
        ensures held { OnOk result
            (held_of self.new ≡ held_step web.now.lines (Token (seen token.entry)) (held_of self.old)) }
        ensures kept { OnOk result (WaitingIsKept self.new.waiting (length self.new.kept)) }
        ensures grows { OnOk result (length self.old.kept ≤ length self.new.kept) }
        ensures one { OnOk result (length self.new.kept ≤ length self.old.kept + 1) }
    {
        if self.is_free() {
            if is_word(token.kind) {
                return self.free_word(token);
            }
            if is_silent(token.kind) {
                self.free_sign(token);
                return Ok(());
            }
        }
        self.any_token(web, token)
    }

    // The same of any token.
    #[inline(never)]
    fn any_token(&mut self, web: &Web, token: Tok<'a>) -> Result<(), Memory>
        requires token { IsToken (seen token) }
        requires ready { CanSettle (held_of self.old) }
        requires section { self.old.standing.section < 4294967295 }
        ensures held { OnOk result
            (held_of self.new ≡ held_step web.now.lines (Token (seen token.entry)) (held_of self.old)) }
        ensures kept { OnOk result (WaitingIsKept self.new.waiting (length self.new.kept)) }
        ensures grows { OnOk result (length self.old.kept ≤ length self.new.kept) }
        ensures one { OnOk result (length self.new.kept ≤ length self.old.kept + 1) }
    {
        self.put_remark(web)?;
        self.settle(web, is_head_sign(token.kind))?;
        if is_section_name(token.kind) {
            self.name(token)
        } else {
            self.plain(web, token)
        }
    }

    /// A comment or inner text begins.
    pub(crate) fn begin(&mut self, web: &Web) -> Result<(), Memory>
        requires { CanSettle (held_of self.old) }
        ensures { OnOk result (held_of self.new ≡ begun_held (ended_held web.now.lines (held_of self.old))) }
    {
        self.finish(web)?;
        self.standing.wanted = Expectation::Nothing;
        Ok(())
    }

    /// A comment or inner text ends, or all ends.
    pub(crate) fn finish(&mut self, web: &Web) -> Result<(), Memory>
        requires { CanSettle (held_of self.old) }
        ensures { OnOk result (held_of self.new ≡ ended_held web.now.lines (held_of self.old)) }
    {
        self.put_remark(web)?;
        self.settle(web, false)
    }

    /// A note of scanning. The note that a name didn't end comes before the note that waits, and any other behind it.
    pub(crate) fn note(&mut self, web: &Web, kind: NoteKind, place: usize) -> Result<(), Memory>
        ensures { OnOk result (held_of self.new ≡ held_step web.now.lines (NoteAnswer kind place) (held_of self.old)) }
    {
        if is_unended(kind) {
            self.notes.add(web, kind, place)?;
            return self.put_remark(web);
        }
        self.put_remark(web)?;
        self.notes.add(web, kind, place)
    }
}
