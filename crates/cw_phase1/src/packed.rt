//! Sections in a row, as they lie in memory: with places of 32 bits.
ghost use Rattle.std.specs.Prelude.{◌≡◌, ◌<◌, [], ◌∷◌, ◌++◌, Some, IfOk, OnOk, length, slice_get};
ghost use Rattle.cw_phase1.specs.Changed.{has_changed, with_last_marked};
ghost use Rattle.cw_phase1.specs.model.Packed.{unpacked_depth, name_of, span_of, unpacked, whole_section};

use crate::{Depth, Section};
use cw_base::{Memory, Span};
use cw_secnames::SecId;
use std::alloc::Global;
use std::marker::Model;

/// A span of a text that has fewer than 2^32 bytes.
#[derive(Clone, Copy)]
pub(crate) struct ShortSpan {
    start: u32,
    end: u32,
}

/// The depth of a section.
#[derive(Clone, Copy)]
pub(crate) enum RowDepth {
    Minus,
    Zero,
    Digits(ShortSpan),
}

/// A section whose parts lie one behind the other.
#[derive(Clone, Copy)]
pub(crate) struct Whole {
    pub starred: bool,
    pub depth: Depth,
    // Where the TeX part begins, and where each part ends.
    pub start: usize,
    pub tex_end: usize,
    pub definitions_end: usize,
    pub end: usize,
    pub name: Option<SecId>,
    pub changed: bool,
}

/// A section in a third of the memory.
#[derive(Clone, Copy)]
pub(crate) struct PackedSection {
    start: u32,
    tex_end: u32,
    definitions_end: u32,
    end: u32,
    depth: RowDepth,
    name: Option<u32>,
    starred: bool,
    changed: bool,
}

/// Sections in a row.
#[derive(Drop)]
pub(crate) struct SectionList {
    rows: Vec<PackedSection>,
}

impl Model for SectionList {
    ghost use Rattle.std.specs.Prelude.{List, map};
    ghost use Rattle.cw_phase1.specs.declared.sections.Section.{Section};
    ghost use Rattle.cw_phase1.specs.model.Packed.{unpacked};

    ghost Value = { List Section };

    ghost view = { λ s. map unpacked s.rows.items };
}

/// A number in 32 bits; a greater one doesn't fit.
pub(crate) fn short(number: usize) -> Result<u32, Memory>
    ensures { IfOk result (λ n. n ≡ number) }
{
    if number > 4294967295 {
        return Err(Memory);
    }
    Ok(number as u32)
}

impl ShortSpan {
    fn of(span: Span) -> Result<ShortSpan, Memory>
        ensures { IfOk result (λ s. span_of s ≡ span) }
    {
        let start = short(span.start)?;
        let end = short(span.end)?;
        Ok(ShortSpan { start, end })
    }

    fn span(self) -> Span
        ensures { result ≡ span_of self }
    {
        Span {
            start: self.start as usize,
            end: self.end as usize,
        }
    }
}

fn span(start: u32, end: u32) -> Span
    ensures { result ≡ span_of (record { start = start; «end» = «end» }) }
{
    ShortSpan { start, end }.span()
}

impl RowDepth {
    fn of(depth: Depth) -> Result<RowDepth, Memory>
        ensures { IfOk result (λ d. unpacked_depth d ≡ depth) }
    {
        match depth {
            Depth::Minus => Ok(RowDepth::Minus),
            Depth::Zero => Ok(RowDepth::Zero),
            Depth::Digits(span) => {
                let digits = ShortSpan::of(span)?;
                Ok(RowDepth::Digits(digits))
            }
        }
    }

    fn depth(self) -> Depth
        ensures { result ≡ unpacked_depth self }
    {
        match self {
            RowDepth::Minus => Depth::Minus,
            RowDepth::Zero => Depth::Zero,
            RowDepth::Digits(span) => Depth::Digits(span.span()),
        }
    }
}

// The position of a name in 32 bits.
fn short_name(name: Option<SecId>) -> Result<Option<u32>, Memory>
    ensures { IfOk result (λ n. name_of n ≡ name) }
{
    match name {
        None => Ok(None),
        Some(id) => {
            let index = short(id.index)?;
            Ok(Some(index))
        }
    }
}

fn name_of(name: Option<u32>) -> Option<SecId>
    ensures { result ≡ name_of name }
{
    match name {
        None => None,
        Some(index) => Some(SecId {
            index: index as usize,
        }),
    }
}

impl PackedSection {
    fn of(section: &Whole) -> Result<PackedSection, Memory>
        ensures { IfOk result (λ row. unpacked row ≡ whole_section section.now) }
    {
        Ok(PackedSection {
            start: short(section.start)?,
            tex_end: short(section.tex_end)?,
            definitions_end: short(section.definitions_end)?,
            end: short(section.end)?,
            depth: RowDepth::of(section.depth)?,
            name: short_name(section.name)?,
            starred: section.starred,
            changed: section.changed,
        })
    }

    fn section(&self) -> Section
        ensures { result ≡ unpacked self.now }
    {
        Section {
            starred: self.starred,
            depth: self.depth.depth(),
            tex: span(self.start, self.tex_end),
            definitions: span(self.tex_end, self.definitions_end),
            c_part: span(self.definitions_end, self.end),
            name: name_of(self.name),
            changed: self.changed,
        }
    }
}

impl SectionList {
    pub(crate) fn new_in(alloc: Global) -> SectionList
        ensures { result ≡ [] }
    {
        SectionList {
            rows: Vec::new(alloc),
        }
    }

    pub(crate) fn push(&mut self, section: Whole) -> Result<(), Memory>
        ensures { OnOk result (self.new ≡ self.old ++ whole_section section ∷ []) }
    {
        let row = PackedSection::of(&section)?;
        self.rows.push(row)?;
        Ok(())
    }

    pub(crate) fn len(&self) -> usize
        ensures { result ≡ length self.now }
    {
        self.rows.len()
    }

    // Whether a section is changed.
    fn has_changed(&self) -> bool
        ensures { result ≡ has_changed self.now }
    {
        for row in &self.rows {
            if row.changed {
                return true;
            }
        }
        false
    }

    /// Marks the last section as changed, where any is.
    pub(crate) fn mark_last(&mut self)
        ensures { self.new ≡ with_last_marked self.old }
    {
        if !self.has_changed() {
            return;
        }
        if let Some(last) = self.rows.last_mut() {
            last.changed = true;
        }
    }

    /// The section at a position.
    pub(crate) fn at(&self, index: usize) -> Section
        requires { index < length self.now }
        ensures { slice_get self.now index ≡ Some result }
    {
        self.rows[index].section()
    }
}
