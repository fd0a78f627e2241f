//! Tokens in their places.
use crate::{Part, Role};
use cw_lex::Tok;
use cw_secnames::SecId;

/// A token in its place; a section name that isn't ignored has a name that is kept for it.
#[derive(Clone, Copy)]
pub(crate) struct Placement<'a> {
    pub section: u32,
    pub part: Part,
    pub role: Role,
    pub token: Tok<'a>,
    pub name: Option<SecId>,
}
