//! What a translation reads, and what it works on.
use crate::recorder::Recorder;
use cw_base::{Flags, Ledger, Steps};
use cw_names::Names;
use cw_scraps::Marks;
use cw_secnames::{NameUses, SecNames};
use cw_tokens::TokenStore;
use std::alloc::Global;

/// What a translation only reads.
#[derive(Clone, Copy)]
pub struct Context<'a> {
    /// The section names that are kept.
    pub sec_names: &'a SecNames,
    /// Which of them stands where.
    pub uses: &'a NameUses,
    /// The flags that choose between translations.
    pub flags: &'a Flags,
    /// What gives memory.
    pub alloc: Global,
}

/// What a translation works on.
#[derive(Drop)]
pub struct Work<'a, L: Ledger, R: Recorder> {
    /// The names, with their categories.
    pub names: &'a mut Names,
    /// The lists of tokens that are built.
    pub store: &'a mut TokenStore,
    /// The names that productions underlined.
    pub marks: &'a mut Marks,
    /// The steps that are counted.
    pub steps: &'a mut Steps<L>,
    /// Who receives texts and their productions.
    pub recorder: R,
}
