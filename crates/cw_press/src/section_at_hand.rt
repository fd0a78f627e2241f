//! The section at hand: what all that is printed of a section is printed with.
ghost use Rattle.std.specs.Prelude.{IfOk};
ghost use Rattle.cw_press.specs.model.PartForms.{IsAtHand};

use crate::beside::{Beside, code_beside};
use cw_base::{Flags, Memory};
use cw_phase1::{Book, Section};
use std::alloc::Global;

/// What a section is printed with: the web's text, the section's number and what stands beside it, and the flags.
#[derive(Clone, Copy)]
pub struct SectionAtHand<'a> {
    pub text: &'a [u8],
    /// The section's number, from 1 on.
    pub section: u32,
    pub flags: &'a Flags,
    pub alloc: Global,
    /// The code that stands beside the section's number.
    pub beside: Beside,
}

impl<'a> SectionAtHand<'a> {
    /// What this section of the book, which has this number, is printed with. What stands beside its number is looked
    /// for here alone.
    pub fn of(
        alloc: Global,
        text: &'a [u8],
        flags: &'a Flags,
        book: &Book,
        number: u32,
        section: &Section,
    ) -> Result<SectionAtHand<'a>, Memory>
        ensures { IfOk result (λ at. IsAtHand text.now flags.now book.now.name_uses number section.now at) }
    {
        let beside = code_beside(text, flags, book, section)?;
        Ok(SectionAtHand {
            text,
            section: number,
            flags,
            alloc,
            beside,
        })
    }
}
