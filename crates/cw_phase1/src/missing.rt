//! Section names behind which a `=` seems to be missing.
ghost use Rattle.std.specs.Prelude.{◌≡◌, ◌<◌, ◌≤◌, ◌&&◌, ◌++◌, [], All, IfOk, IfSome, OnOk, Some, length, reverse};
ghost use Rattle.std.specs.List.{list_any};
ghost use Rattle.cw_base.specs.Web.{text_of};
ghost use Rattle.cw_lex.specs.Lexing.{tokens_of};
ghost use Rattle.cw_rules.specs.Answers.{seen};
ghost use Rattle.cw_rules.specs.Order.{LiesWithin};
ghost use Rattle.cw_rules.specs.declared.tokens.Mode.TheVariants.{TexText};
ghost use Rattle.cw_secnames.specs.Uses.{name_at};
ghost use Rattle.cw_phase1.specs.Missing.{
  begins_blank,
  has_no_definition,
  is_undefined_name,
  missing_among,
  missing_equals,
  missing_in,
  missing_of,
  name_before,
  name_in,
  stands_alone,
};
ghost use Rattle.cw_phase1.specs.Sound.{LiesIn};

use crate::Section;
use crate::note_list::NoteList;
use crate::packed::{SectionList, short};
use crate::pass_state::is_unended;
use cw_base::{Memory, NoteKind, Span, Web};
use cw_lex::{Lexed, Lexer, Mode, Tok, is_section_name};
use cw_rules::classes::is_blank;
use cw_secnames::{NameUses, SecId, SecNames};

/// A web with all its section names, and where they stand.
#[derive(Clone, Copy)]
pub(crate) struct Search<'a> {
    pub(crate) web: &'a Web,
    pub(crate) names: &'a SecNames,
    pub(crate) uses: &'a NameUses,
}

// Whether nothing but blanks stands up to the end of the line, or of these bytes.
fn begins_blank(bytes: &[u8]) -> bool
    ensures { result ≡ begins_blank bytes.now }
{
    for byte in bytes {
        if *byte == b'\n' {
            return true;
        }
        if !is_blank(*byte) {
            return false;
        }
    }
    true
}

// The same from the end of these bytes back to the beginning of the line.
fn ends_blank(bytes: &[u8]) -> bool
    ensures { result ≡ begins_blank (reverse bytes.now) }
{
    let mut end = bytes.len();
    while end > 0 {
        end -= 1;
        let byte = bytes[end];
        if byte == b'\n' {
            return true;
        }
        if !is_blank(byte) {
            return false;
        }
    }
    true
}

// Whether a name stands alone on its line of a TeX part.
fn stands_alone(text: &[u8], tex: Span, name: Span) -> bool
    requires before { tex.start ≤ name.start }
    requires order { name.start ≤ name.«end» }
    requires behind { name.«end» ≤ tex.«end» }
    requires within { tex.«end» ≤ length text.now }
    ensures { result ≡ stands_alone text.now tex name }
{
    ends_blank(&text[tex.start..name.start]) && begins_blank(&text[name.end..tex.end])
}

// The section name that a token is, where it stands in no inner text.
fn name_in(depth: usize, token: Tok) -> Option<Span>
    ensures { result ≡ name_in depth (seen token.entry) }
{
    if depth == 0 && is_section_name(token.kind) {
        return Some(token.span);
    }
    None
}

impl<'a> Search<'a> {
    // Whether no section defines the name of this position.
    fn has_no_definition(&self, k: usize) -> bool
        requires { k < length self.now.names.now }
        ensures { result ≡ is_undefined_name self.now.names.now (Some k) }
    {
        self.names.defined_in(SecId { index: k }).is_empty()
    }

    // Whether some name has no definition.
    fn has_undefined(&self) -> bool
        ensures { result ≡ list_any has_no_definition self.now.names.now }
    {
        for k in 0..self.names.len() {
            if self.has_no_definition(k) {
                return true;
            }
        }
        false
    }

    // Whether a name without a definition stands at a place.
    fn is_undefined_at(&self, place: usize) -> Result<bool, Memory>
        ensures { IfOk result
            (λ undefined. undefined ≡ is_undefined_name self.now.names.now (name_at place self.now.uses.now)) }
    {
        let Some(id) = self.uses.at(short(place)?) else {
            return Ok(false);
        };
        Ok(id.index < self.names.len() && self.has_no_definition(id.index))
    }

    // Whether a name in a TeX part seems to lack its `=`.
    fn lacks_equals(&self, tex: Span, name: Span) -> Result<bool, Memory>
        requires lies { LiesWithin tex.start tex.«end» name }
        requires within { tex.«end» ≤ length (text_of self.now.web.now.lines) }
        ensures { IfOk result (λ lacks. lacks ≡
            (is_undefined_name self.now.names.now (name_at name.start self.now.uses.now)
            && stands_alone (text_of self.now.web.now.lines) tex name)) }
    {
        let undefined = self.is_undefined_at(name.start)?;
        Ok(undefined && stands_alone(self.web.text(), tex, name))
    }

    // The note on a name of a TeX part, where there is one.
    fn note_name(&self, tex: Span, name: Option<Span>, notes: &mut NoteList) -> Result<(), Memory>
        requires lies { IfSome name (LiesWithin tex.start tex.«end») }
        requires within { tex.«end» ≤ length (text_of self.now.web.now.lines) }
        ensures { OnOk result (notes.new ≡ notes.old
            ++ missing_of self.now.web.now.lines self.now.uses.now self.now.names.now tex (name_before name [])) }
    {
        let Some(name) = name else {
            return Ok(());
        };
        if self.lacks_equals(tex, name)? {
            return notes.add(self.web, NoteKind::EqualsMissing, name.start);
        }
        Ok(())
    }

    // The notes on names of a TeX part. A name waits for the answer behind it, which may tell that it didn't end.
    fn note_tex(&self, tex: Span, notes: &mut NoteList) -> Result<(), Memory>
        requires order { tex.start ≤ tex.«end» }
        requires within { tex.«end» ≤ length (text_of self.now.web.now.lines) }
        ensures { OnOk result (notes.new ≡ notes.old
            ++ missing_among self.now.web.now.lines self.now.uses.now self.now.names.now tex 0
            (tokens_of (text_of self.now.web.now.lines) tex.start tex.«end» TexText)) }
    {
        let mut lexer = Lexer::over(self.web.text(), tex.start, tex.end, Mode::TexText);
        let mut depth: usize = 0;
        let mut name: Option<Span> = None;
        'answers: loop {
            match lexer.next() {
                Lexed::Token(token) => {
                    self.note_name(tex, name, notes)?;
                    name = name_in(depth, token);
                }
                Lexed::Begin(_begin) => {
                    self.note_name(tex, name, notes)?;
                    name = None;
                    depth = depth.checked_add(1).ok_or(Memory)?;
                }
                Lexed::Finish(_finish) => {
                    self.note_name(tex, name, notes)?;
                    name = None;
                    depth = depth.saturating_sub(1);
                }
                Lexed::Note(kind, _place) if is_unended(kind) => name = None,
                Lexed::Note(_kind, _place) => {
                    self.note_name(tex, name, notes)?;
                    name = None;
                }
                Lexed::End => return self.note_name(tex, name, notes),
            }
        }
    }

    // The notes on names of a section, where it has no C part.
    fn note_section(&self, section: &Section, notes: &mut NoteList) -> Result<(), Memory>
        requires { LiesIn (length (text_of self.now.web.now.lines)) section.now }
        ensures { OnOk result (notes.new ≡ notes.old
            ++ missing_in self.now.web.now.lines self.now.uses.now self.now.names.now section.now) }
    {
        if section.c_part.start == section.c_part.end {
            return self.note_tex(section.tex, notes);
        }
        Ok(())
    }

    /// The notes on names of all sections. Where each name has a definition no section is looked at.
    pub(crate) fn note_sections(
        &self,
        sections: &SectionList,
        notes: &mut NoteList,
    ) -> Result<(), Memory>
        requires { All (LiesIn (length (text_of self.now.web.now.lines))) sections.now }
        ensures { OnOk result (notes.new ≡ notes.old
            ++ missing_equals self.now.web.now.lines self.now.uses.now self.now.names.now sections.now) }
    {
        if !self.has_undefined() {
            return Ok(());
        }
        for k in 0..sections.len() {
            self.note_section(&sections.at(k), notes)?;
        }
        Ok(())
    }
}
