//! Tests of the joiner: names, signs and runs are printed, and inner texts have a blank for a run.
ghost use Rattle.std.specs.Prelude.{ℕ, List, IsTrue, OnOk};
ghost use Rattle.std.specs.Bool.{OnTrue};
ghost use Rattle.cw_base.specs.declared.event.Out.TheVariants.{Tex};
ghost use Rattle.cw_desk.specs.Meaning.{is_open};
ghost use Rattle.cw_desk.specs.model.Mem.{tell_mem};
ghost use Rattle.cw_lines.specs.Writes.{CanWrite};
ghost use Rattle.cw_trees.specs.Printing.{Printable};
ghost use Rattle.cw_join.specs.Standing.{Stands};
ghost use Rattle.cw_join.specs.Tokens.{CanCome};

use cw_base::{Bytes, Memory, Out};
use cw_desk::MemDesk;
use cw_join::{FlatToken, Joiner};
use cw_lines::{LineOut, PutError};
use cw_names::{EntryKind, NameId, Names, WORD_COUNT};
use cw_test_desks::{desk_making, written};
use cw_tokens::FlatItem;
use cw_trees::Control;
use std::alloc::Global;
use std::test::Fail;

/// Whether an item may come wherever it stands.
fn is_plain(item: FlatItem, names: usize) -> bool
    ensures { OnTrue result ((depth : ℕ) → CanCome names depth item) }
{
    match item {
        FlatItem::Source(_) => true,
        FlatItem::Ident(name, _) | FlatItem::Reserved(name, _) => name.index < names,
        FlatItem::Control(Control::Inserted) => false,
        FlatItem::Control(_) => true,
        FlatItem::Open | FlatItem::Close => false,
    }
}

/// Pushes an item, if it may come.
fn push_one(
    joiner: &mut Joiner,
    token: FlatToken,
    names: &Names,
    out: &mut LineOut,
    desk: &mut MemDesk,
) -> Result<(), PutError>
    requires can { CanWrite (tell_mem desk.old) out.old }
    requires stands { (ps : List Printable) × Stands joiner.old ps }
    ensures can { OnOk result (CanWrite (tell_mem desk.new) out.new) }
    ensures stands { OnOk result ((ps : List Printable) × Stands joiner.new ps) }
{
    if !is_plain(token.item, names.len()) {
        return Ok(());
    }
    joiner.push(token, names, out, desk)?;
    Ok(())
}

/// Pushes items.
fn push_each(
    inner: bool,
    items: &[(FlatItem, &[u8])],
    names: &Names,
    out: &mut LineOut,
    desk: &mut MemDesk,
) -> Result<(), PutError>
    requires can { CanWrite (tell_mem desk.old) out.old }
    ensures can { OnOk result (CanWrite (tell_mem desk.new) out.new) }
{
    let mut joiner = Joiner::new(inner);
    for (item, bytes) in items {
        let token = FlatToken { item: *item, bytes };
        push_one(&mut joiner, token, names, out, desk)?;
    }
    Ok(())
}

/// Finishes a text without items.
fn finish_none(out: &mut LineOut, desk: &mut MemDesk) -> Result<(), PutError>
    requires can { CanWrite (tell_mem desk.old) out.old }
    ensures can { OnOk result (CanWrite (tell_mem desk.new) out.new) }
{
    let mut joiner = Joiner::new(false);
    joiner.finish(out, desk)?;
    Ok(())
}

/// Pushes the items of a text. Behind an inner one it finishes a text without items.
fn push_text(
    inner: bool,
    items: &[(FlatItem, &[u8])],
    names: &Names,
    out: &mut LineOut,
    desk: &mut MemDesk,
) -> Result<(), PutError>
    requires can { CanWrite (tell_mem desk.old) out.old }
    ensures can { OnOk result (CanWrite (tell_mem desk.new) out.new) }
{
    push_each(inner, items, names, out, desk)?;
    if inner {
        return finish_none(out, desk);
    }
    Ok(())
}

/// The first three names behind the built-in words.
const IDENTIFIERS: [&[u8]; 3] = [b"_next_of$", b"x", b"EOF"];

const FIRST: NameId = NameId { index: WORD_COUNT };

const SECOND: NameId = NameId {
    index: WORD_COUNT + 1,
};

const THIRD: NameId = NameId {
    index: WORD_COUNT + 2,
};

/// Names, signs and runs; the names are the first three behind the built-in words.
const TEXT: [(FlatItem, &[u8]); 13] = [
    (FlatItem::Ident(FIRST, 0), b""),
    (FlatItem::Control(Control::Blank), b""),
    (FlatItem::Control(Control::Indent), b""),
    (FlatItem::Control(Control::Break), b""),
    (FlatItem::Control(Control::Backup), b""),
    (FlatItem::Control(Control::ToMath), b""),
    (FlatItem::Ident(SECOND, 0), b""),
    (FlatItem::Source(9), b"\\K"),
    (FlatItem::Ident(THIRD, 0), b""),
    (FlatItem::Control(Control::ToText), b""),
    (FlatItem::Control(Control::BigBreak), b""),
    (FlatItem::Control(Control::Cancel), b""),
    (FlatItem::Source(19), b";"),
];

const INNER_TEXT: [(FlatItem, &[u8]); 4] = [
    (FlatItem::Source(0), b"a"),
    (FlatItem::Control(Control::BigBreak), b""),
    (FlatItem::Control(Control::Outdent), b""),
    (FlatItem::Source(1), b"b"),
];

/// The built-in words, and these identifiers behind them.
fn names_with(alloc: Global, identifiers: &[&[u8]]) -> Result<Names, Memory> {
    let mut names = Names::with_words(alloc)?;
    for identifier in identifiers {
        names.find_or_add(EntryKind::Ident, identifier)?;
    }
    Ok(names)
}

// Puts a text on a new line of the TeX file; behind an inner one, a text without items.
fn put_text(
    alloc: Global,
    inner: bool,
    names: &Names,
    items: &[(FlatItem, &[u8])],
    desk: &mut MemDesk,
) -> Result<(), PutError>
    requires { IsTrue (is_open desk.old.outputs Tex) }
{
    let mut out = LineOut::new_in(alloc, Out::Tex);
    push_text(inner, items, names, &mut out, desk)?;
    out.end_line(desk)
}

// What a text prints, over names that it borrows.
fn printed_of(
    alloc: Global,
    inner: bool,
    names: &Names,
    items: &[(FlatItem, &[u8])],
) -> Result<Bytes, Fail> {
    let mut desk = desk_making(alloc, Out::Tex)?;
    put_text(alloc, inner, names, items, &mut desk)?;
    Ok(written(alloc, desk.journal())?)
}

/// What a text prints.
fn printed(
    alloc: Global,
    inner: bool,
    identifiers: &[&[u8]],
    items: &[(FlatItem, &[u8])],
) -> Result<Bytes, Fail> {
    let names = names_with(alloc, identifiers)?;
    printed_of(alloc, inner, &names, items)
}

/// Whether a text is an inner one, its identifiers, its items, and what it prints.
const ROWS: [(bool, &[&[u8]], &[(FlatItem, &[u8])], &[u8]); 2] = [
    (
        false,
        &IDENTIFIERS,
        &TEXT,
        b"\\\\{\\_next\\_of\\$}\\1\\6\n\\4${}\\|x\\K\\.{EOF}{}$;\n",
    ),
    // An inner text prints a blank for a run.
    (true, &[], &INNER_TEXT, b"a b\n"),
];

#[test]
fn names_signs_and_runs_are_printed(rt: HostRuntime) -> Result<(), Fail> {
    for (inner, identifiers, items, wanted) in &ROWS {
        let text = printed(rt.alloc(), *inner, identifiers, items)?;
        assert_eq!(rt; text.as_slice(), *wanted);
    }
    Ok(())
}
