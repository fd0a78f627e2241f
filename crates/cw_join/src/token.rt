//! The items that are joined.
use cw_tokens::FlatItem;

/// An item of a flat translation with the bytes that it prints. The bytes of names, and of the signs that print the
/// same everywhere, are known without: there `bytes` means nothing.
#[derive(Clone, Copy)]
pub struct FlatToken<'a> {
    pub item: FlatItem,
    pub bytes: &'a [u8],
}
