//! The text of a section name, piece by piece, and the tokens of its inner texts.
ghost use Rattle.std.specs.Prelude.{◌≡◌, ◌+◌, ◌<◌, ◌≤◌, ◌++◌, IfOk, OnOk, length, option_map};
ghost use Rattle.cw_rules.specs.Answers.{seen};
ghost use Rattle.cw_rules.specs.declared.tokens.Mode.TheVariants.{Inner};
ghost use Rattle.cw_lex.specs.Lexing.{tokens_of};
ghost use Rattle.cw_lex.specs.Nested.{until_section};
ghost use Rattle.cw_print.specs.Found.{numbered};
ghost use Rattle.cw_print.specs.model.Titles.{title_of};
ghost use Rattle.cw_print.specs.Walk.{behind_next, front, name_pieces, next_bytes};

use crate::escaping::put_escaped;
use crate::scan::Scan;
use crate::title::{SectionTitle, put_front};
use cw_base::{Bytes, Memory, Span};
use cw_lex::Tok;
use cw_secnames::next_part;
use std::alloc::Global;
use std::marker::Model;
use std::mem::replace;

/// Where the printing stands in a section name. It is seen as the answers of the inner text at hand, and the pieces
/// that are still to come.
#[derive(Drop)]
pub(crate) struct NameWalk<'a> {
    alloc: Global,
    text: &'a [u8],
    // Where the text goes on, if more of it is to come.
    rest: Option<usize>,
    // The inner text at hand, if there is one.
    inner: Option<Scan<'a>>,
}

impl<'a> Model for NameWalk<'a> {
    ghost use Rattle.std.specs.Prelude.{◌≤◌, length};
    ghost use Rattle.std.specs.Option.{ForSome};
    ghost use Rattle.cw_print.specs.Walk.{InName};
    ghost use Rattle.cw_print.specs.model.NamesAhead.{in_name};

    ghost Value = { InName };

    ghost view = { λ n. in_name n.text.now n.rest n.inner };

    ghost invariant = { λ n. ForSome n.rest (λ place. place ≤ length n.text.now) };
}

impl<'a> NameWalk<'a> {
    /// Appends what a name prints before its text, and its text up to its first inner text or to its end.
    pub(crate) fn begin(
        alloc: Global,
        out: &mut Bytes,
        title: &SectionTitle<'a>,
        lists: bool,
    ) -> Result<NameWalk<'a>, Memory>
        ensures bytes { OnOk result (out.new ≡ out.old ++ (front lists (title_of title.now) ++
            next_bytes (name_pieces (title_of title.now)))) }
        ensures behind { IfOk result (λ walk. walk ≡ behind_next (name_pieces (title_of title.now))) }
    {
        put_front(out, title, lists)?;
        if title.is_file {
            out.append(b"\\.{")?;
            put_escaped(out, title.text)?;
            out.push(b'}')?;
            return Ok(NameWalk {
                alloc,
                text: title.text,
                rest: None,
                inner: None,
            });
        }
        let mut walk = NameWalk {
            alloc,
            text: title.text,
            rest: Some(0),
            inner: None,
        };
        walk.next(out).and(Ok(walk))
    }

    /// Appends the next piece of the name's text. The inner text before it is dropped by a call, which is proved sooner
    /// than its drop in place.
    pub(crate) fn next(&mut self, out: &mut Bytes) -> Result<(), Memory>
        ensures bytes { OnOk result (out.new ≡ out.old ++ next_bytes self.old.pieces) }
        ensures behind { OnOk result (self.new ≡ behind_next self.old.pieces) }
    {
        let Some(place) = self.rest else {
            drop(replace(&mut self.inner, None));
            return Ok(());
        };
        match next_part(self.text, place) {
            Some(span) => {
                out.append(&self.text[place..span.start - 1])?;
                let (inner, rest) = inner_at(self.alloc, self.text, span)?;
                drop(replace(&mut self.inner, Some(inner)));
                self.rest = Some(rest);
            }
            None => {
                out.append(&self.text[place..])?;
                drop(replace(&mut self.inner, None));
                self.rest = None;
            }
        }
        Ok(())
    }

    /// The token that has this number in the inner text at hand, if there is one.
    pub(crate) fn find(&mut self, number: u32) -> Option<Tok<'a>>
        ensures found { option_map seen result ≡ numbered number self.old.answers }
        ensures same { self.new ≡ self.old }
    {
        match &mut self.inner {
            Some(scan) => scan.find(number),
            None => None,
        }
    }
}

// The inner text at a span of a name's text, and where that goes on behind its bar.
fn inner_at<'a>(alloc: Global, text: &'a [u8], span: Span) -> Result<(Scan<'a>, usize), Memory>
    requires order { span.start ≤ span.end }
    requires within { span.end < length text.now }
    ensures inner { IfOk result (λ found. found.0
        ≡ until_section (tokens_of text.now span.start span.end Inner)) }
    ensures rest { IfOk result (λ found. found.1 ≡ span.end + 1) }
{
    let inner = Scan::over(alloc, text, span)?;
    Ok((inner, span.end + 1))
}
