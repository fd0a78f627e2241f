//! What is open while a text is translated: C texts with their scraps, comments with their parts.
ghost use Rattle.std.specs.Prelude.{List, ◌≡◌, ◌≢◌, [], ◌∷◌, ◌++◌, OnOk, OnErr, MatchOption, IsTrue, ◌↔◌};
ghost use Rattle.cw_base.specs.declared.category.Cat.TheVariants.{End};
ghost use Rattle.cw_translator.specs.declared.nesting.Open.{Open};
ghost use Rattle.cw_translator.specs.model.Opening.{last_line, with_entry, with_part};
ghost use Rattle.cw_scraps.specs.Leaves.{entry_of};

use crate::comments::CommentPart;
use crate::holders::Holder;
use cw_base::Memory;
use cw_scraps::{Leaf, ScrapLine};
use std::alloc::Global;
use std::marker::Model;

/// What stands in a comment's text so far.
#[derive(Drop)]
pub struct CommentText {
    parts: Vec<CommentPart>,
}

impl Model for CommentText {
    ghost use Rattle.std.specs.Prelude.{List};
    ghost use Rattle.cw_translator.specs.declared.comments.CommentPart.{CommentPart};

    ghost Value = { List CommentPart };

    ghost view = { λ t. t.parts.items };
}

impl CommentText {
    /// Nothing stands in it.
    pub(crate) fn new_in(alloc: Global) -> CommentText
        ensures { result ≡ [] }
    {
        CommentText {
            parts: Vec::new(alloc),
        }
    }

    /// A part comes behind the others.
    pub(crate) fn add(&mut self, part: CommentPart) -> Result<(), Memory>
        ensures { OnOk result (self.new ≡ self.old ++ part ∷ []) }
    {
        self.parts.push(part)?;
        Ok(())
    }

    /// All parts, in order.
    pub(crate) fn parts(&self) -> &[CommentPart]
        ensures { result.now ≡ self.now }
    {
        &self.parts
    }
}

/// What is open while a C text is read: C text with its scraps so far, or a comment or a section name, which holds
/// inner texts.
#[derive(Drop)]
pub enum Open {
    /// A C text, with its scraps.
    CText(ScrapLine),
    /// A comment or a section name, with what stands in it.
    Comment(Holder, CommentText),
}

impl Open {
    /// A scrap comes behind those of a C text.
    #[inline(always)]
    fn add_scrap(&mut self, leaf: Leaf) -> Result<(), Memory>
        requires { leaf.cat ≢ End }
        ensures { OnOk result ((outer : List Open) → self.new ∷ outer ≡ with_entry (entry_of leaf) (self.old ∷ outer)) }
    {
        match self {
            Open::CText(line) => line.add(leaf.cat, leaf.list, leaf.left, leaf.right),
            Open::Comment(..) => Ok(()),
        }
    }

    /// A piece or an inner text comes behind those of a comment.
    fn add_part(&mut self, part: CommentPart) -> Result<(), Memory>
        ensures { OnOk result ((outer : List Open) → self.new ∷ outer ≡ with_part part (self.old ∷ outer)) }
    {
        match self {
            Open::Comment(_, text) => text.add(part),
            Open::CText(_) => Ok(()),
        }
    }
}

/// All that is open, seen as a list with the innermost first. The innermost stands apart from the vector of the
/// others, so that a text without comments takes no memory for what is open.
#[derive(Drop)]
pub struct Nesting {
    innermost: Option<Open>,
    outer: Vec<Open>,
}

impl Model for Nesting {
    ghost use Rattle.std.specs.Prelude.{List, ◌≡◌, ◌++◌, [], None};
    ghost use Rattle.std.specs.Prelude.{reverse};
    ghost use Rattle.std.specs.Option.{option_to_list};
    ghost use Rattle.cw_translator.specs.declared.nesting.Open.{Open};

    ghost Value = { List Open };

    ghost view = { λ n. option_to_list n.innermost ++ reverse n.outer.items };

    ghost invariant = { λ n. n.innermost ≡ None → n.outer.items ≡ [] };
}

impl Nesting {
    /// This alone is open.
    pub(crate) fn of(inner: Open, alloc: Global) -> Nesting
        ensures { result ≡ inner ∷ [] }
    {
        Nesting {
            innermost: Some(inner),
            outer: Vec::new(alloc),
        }
    }

    /// Something opens. After `Memory` all is as before.
    pub(crate) fn begin(&mut self, inner: Open) -> Result<(), Memory>
        ensures begun { OnOk result (self.new ≡ inner ∷ self.old) }
        ensures refused { OnErr result (self.new ≡ self.old) }
    {
        if self.innermost.is_some() {
            self.outer.reserve(1)?;
        }
        if let Some(open) = self.innermost.replace(inner) {
            self.outer.push_reserved(open);
        }
        Ok(())
    }

    /// The innermost ends.
    pub(crate) fn end(&mut self) -> Option<Open>
        ensures { MatchOption result ((self.old ≡ []) × (self.new ≡ [])) (λ inner. self.old ≡ inner ∷ self.new) }
    {
        let ended = self.innermost.take();
        self.innermost = self.outer.pop();
        ended
    }

    /// Whether nothing is open.
    pub(crate) fn is_empty(&self) -> bool
        ensures { IsTrue result ↔ (self.now ≡ []) }
    {
        self.innermost.is_none()
    }

    /// The scraps of the C text that is open alone, and none where more is open, or less.
    pub(crate) fn take_line(&mut self, alloc: Global) -> ScrapLine
        ensures { result ≡ last_line self.old }
    {
        if let Some(Open::CText(line)) = self.end() {
            if self.is_empty() {
                return line;
            }
        }
        ScrapLine::new_in(alloc)
    }

    /// A scrap comes behind those of the innermost C text.
    pub(crate) fn add_scrap(&mut self, leaf: Leaf) -> Result<(), Memory>
        requires { leaf.cat ≢ End }
        ensures { OnOk result (self.new ≡ with_entry (entry_of leaf) self.old) }
    {
        match &mut self.innermost {
            Some(inner) => inner.add_scrap(leaf),
            None => Ok(()),
        }
    }

    /// A piece or an inner text comes behind those of the innermost comment.
    pub(crate) fn add_part(&mut self, part: CommentPart) -> Result<(), Memory>
        ensures { OnOk result (self.new ≡ with_part part self.old) }
    {
        match &mut self.innermost {
            Some(inner) => inner.add_part(part),
            None => Ok(()),
        }
    }
}
