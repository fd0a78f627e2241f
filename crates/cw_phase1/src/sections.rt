//! The sections of a web: their heads, and the spans of their parts.
ghost use Rattle.std.specs.Prelude.{◌≡◌, ◌+◌, ◌^◌, ◌<◌, ◌≤◌, [], true, false, None, Some, OnOk, unwrap_or};
ghost use Rattle.std.specs.Prelude.{length, drop, take_while};
ghost use Rattle.cw_rules.specs.Answers.{seen};
ghost use Rattle.cw_rules.specs.Bytes.{is_digit};
ghost use Rattle.cw_phase1.specs.model.Packed.{whole_section};
ghost use Rattle.cw_phase1.specs.model.Placing.{placed_of};
ghost use Rattle.cw_phase1.specs.Sections.{depth_at, ends_definitions, ends_tex, is_section_code, is_starred};
ghost use Rattle.cw_phase1.specs.model.Outlining.{closed_at, closing, open_with, opened, or_here};
ghost use Rattle.cw_phase1.specs.model.Outlining.{section_told, with_token};

use crate::packed::{SectionList, Whole};
use crate::places::holds_changed;
use crate::placing::Placement;
use crate::{Part, Role};
use cw_base::{Memory, Span, Web};
use cw_lex::{Code, Tok, TokKind};
use cw_secnames::SecId;
use std::alloc::Global;

/// How deep a starred section stands. A section that isn't starred has depth 0.
#[derive(Clone, Copy, PartialEq, Eq, Debug)]
pub enum Depth {
    /// Depth -1.
    Minus,
    /// Depth 0, without digits.
    Zero,
    /// The span of the digits, whose number has no limit.
    Digits(Span),
}

/// A section of a web.
#[derive(Clone, Copy, PartialEq, Eq, Debug)]
pub struct Section {
    pub starred: bool,
    pub depth: Depth,
    pub tex: Span,
    pub definitions: Span,
    pub c_part: Span,
    /// The name that the C part defines.
    pub name: Option<SecId>,
    /// Whether a line of the section is a changed one.
    pub changed: bool,
}

/// A section whose end has not come, with the ends of those of its parts that ended.
#[derive(Clone, Copy)]
pub(crate) struct Open {
    starred: bool,
    depth: Depth,
    // Where its code begins, and where it ends.
    start: usize,
    behind: usize,
    tex_end: Option<usize>,
    definitions_end: Option<usize>,
    name: Option<SecId>,
}

/// The sections that came: those that ended, the one that is open, and where limbo ended.
#[derive(Drop)]
pub(crate) struct Sections {
    pub closed: SectionList,
    pub open_one: Option<Open>,
    pub limbo_end: Option<usize>,
}

/// How many digits bytes begin with.
fn digits(bytes: &[u8]) -> usize
    ensures value { result ≡ length (take_while is_digit bytes.now) }
    ensures within { result ≤ length bytes.now }
{
    bytes
        .iter()
        .take_while(|byte| byte.is_ascii_digit())
        .count()
}

// The depth that stands at a place.
fn depth_at(place: usize, bytes: &[u8]) -> Depth
    requires { place + length bytes.now < 2 ^ 64 }
    ensures { result ≡ depth_at place bytes.now }
{
    if !bytes.is_empty() && bytes[0] == b'*' {
        return Depth::Minus;
    }
    let count = digits(bytes);
    if count == 0 {
        return Depth::Zero;
    }
    Depth::Digits(Span {
        start: place,
        end: place + count,
    })
}

// What stands behind the two bytes of a code.
fn behind_code(code: &[u8]) -> &[u8]
    ensures { result.now ≡ drop 2 code.now }
{
    if code.len() < 2 {
        return &[];
    }
    &code[2..]
}

fn is_starred(kind: TokKind) -> bool
    ensures { result ≡ is_starred kind }
{
    matches!(kind, TokKind::Code(Code::StarredSection))
}

fn is_section_code(role: Role) -> bool
    ensures { result ≡ is_section_code role }
{
    matches!(role, Role::SectionCode)
}

// The first place that passes a test, where it didn't come before.
fn or_here(first: Option<usize>, passes: bool, place: usize) -> Option<usize>
    ensures { result ≡ or_here first passes place }
{
    match first {
        Some(first) => Some(first),
        None => { if passes { Some(place) } else { None } }
    }
}

pub(crate) fn or_else(first: Option<usize>, place: usize) -> usize
    ensures { result ≡ unwrap_or first place }
{
    match first {
        Some(first) => first,
        None => place,
    }
}

impl<'a> Placement<'a> {
    fn ends_tex(&self) -> bool
        ensures { result ≡ ends_tex (placed_of self.now) }
    {
        is_section_code(self.role) || !matches!(self.part, Part::Tex)
    }

    fn ends_definitions(&self) -> bool
        ensures { result ≡ ends_definitions (placed_of self.now) }
    {
        is_section_code(self.role) || matches!(self.part, Part::Program)
    }
}

impl Open {
    // A section begins with its code.
    fn at(token: &Tok) -> Open
        requires { token.now.span.start + length token.now.text.now + 2 < 2 ^ 64 }
        ensures { result ≡ opened (seen token.now) }
    {
        Open {
            starred: is_starred(token.kind),
            depth: depth_at(token.span.start + 2, behind_code(token.text)),
            start: token.span.start,
            behind: token.span.end,
            tex_end: None,
            definitions_end: None,
            name: None,
        }
    }

    // A token of the section.
    #[inline(always)]
    fn meet(&mut self, p: &Placement)
        ensures { self.new ≡ with_token (placed_of p.now) self.old }
    {
        let start = p.token.span.start;
        if self.tex_end.is_none() && p.ends_tex() {
            self.tex_end = Some(start);
        }
        if self.definitions_end.is_none() && p.ends_definitions() {
            self.definitions_end = Some(start);
            self.name = p.name;
        }
    }

    // The section, which ends at a place.
    fn closed_at(&self, web: &Web, end: usize) -> Whole
        ensures { whole_section result ≡ closed_at web.now.lines end self.now }
    {
        Whole {
            starred: self.starred,
            depth: self.depth,
            start: self.behind,
            tex_end: or_else(self.tex_end, end),
            definitions_end: or_else(self.definitions_end, end),
            end,
            name: self.name,
            changed: holds_changed(web, self.start, end),
        }
    }
}

impl Sections {
    pub(crate) fn new_in(alloc: Global) -> Sections
        ensures { result ≡ record { closed = []; open_one = None; limbo_end = None } }
    {
        Sections {
            closed: SectionList::new_in(alloc),
            open_one: None,
            limbo_end: None,
        }
    }

    // The open section ends at a place.
    pub(crate) fn close(&mut self, web: &Web, end: usize) -> Result<(), Memory>
        ensures { OnOk result (self.new ≡ record self.old { closed = closing web.now.lines end self.old }) }
    {
        if let Some(open) = self.open_one {
            self.closed.push(open.closed_at(web, end))?;
        }
        Ok(())
    }

    // One token more.
    #[inline(always)]
    pub(crate) fn tell(&mut self, web: &Web, p: &Placement) -> Result<(), Memory>
        requires { p.now.token.span.start + length p.now.token.text.now + 2 < 2 ^ 64 }
        ensures { OnOk result (self.new ≡ section_told web.now.lines (placed_of p.now) self.old) }
    {
        if is_section_code(p.role) {
            return self.begin(web, &p.token);
        }
        self.meet(p);
        Ok(())
    }

    /// A token that begins no section.
    #[inline(always)]
    pub(crate) fn meet(&mut self, p: &Placement)
        requires { is_section_code p.now.role ≡ false }
        ensures { self.new ≡ record self.old { open_one = open_with self.old.open_one (placed_of p.now) } }
    {
        if let Some(open) = &mut self.open_one {
            open.meet(p);
        }
    }

    // A section begins with its code, at which the open one ends.
    #[inline(never)]
    fn begin(&mut self, web: &Web, code: &Tok) -> Result<(), Memory>
        requires { code.now.span.start + length code.now.text.now + 2 < 2 ^ 64 }
        ensures { OnOk result (self.new ≡ record {
          closed = closing web.now.lines code.now.span.start self.old;
          open_one = Some (opened (seen code.now));
          limbo_end = or_here self.old.limbo_end true code.now.span.start;
        }) }
    {
        let start = code.span.start;
        self.close(web, start)?;
        self.open_one = Some(Open::at(code));
        self.limbo_end = or_here(self.limbo_end, true, start);
        Ok(())
    }
}
