//! The text of a block.
use cw_base::{Bytes, Cat, Memory};
use cw_leaves::{LeafKind, LeafLine, LeafLines, LogItem, LogItems, NameList, TextLog};
use cw_logs::{append_block, judge};
use cw_names::{EntryKind, NameId, Names};
use cw_table::RowNo;
use std::alloc::Global;
use std::test::Fail;

// The leaf lines of `x;`.
fn leaves_of(alloc: Global, x: NameId) -> Result<LeafLines, Memory> {
    let expression = LeafLine {
        kind: LeafKind::B,
        cat: Cat::Exp,
        names: NameList::from_vec(vec![in alloc; x]?),
    };
    let semicolon = LeafLine {
        kind: LeafKind::S,
        cat: Cat::Semi,
        names: NameList::from_vec(Vec::new(alloc)),
    };
    Ok(LeafLines::from_vec(vec![in alloc; expression, semicolon]?))
}

// Its log.
fn log_of(alloc: Global, x: NameId) -> Result<TextLog, Memory> {
    let item = LogItem {
        row: RowNo { number: 8 },
        place: 0,
    };
    let items = LogItems::from_vec(vec![in alloc; item]?);
    let leaves = leaves_of(alloc, x)?;
    Ok(TextLog { leaves, items })
}

// Appends its block, of which the identifier comes behind the words that are known from the start.
fn append_statement(alloc: Global, names: &mut Names, text: &mut Bytes) -> Result<(), Memory> {
    let x = names.find_or_add(EntryKind::Ident, b"x")?;
    let log = log_of(alloc, x)?;
    append_block(text, names, &log)
}

/// The block of `x;` behind an empty one.
fn statement_text(alloc: Global) -> Result<Bytes, Memory> {
    let mut names = Names::with_words(alloc)?;
    let mut text = Bytes::from_slice(alloc, b"text 0\nend\n")?;
    append_statement(alloc, &mut names, &mut text)?;
    Ok(text)
}

#[test]
fn a_block_is_appended(rt: HostRuntime) -> Result<(), Memory> {
    let text = statement_text(rt.alloc())?;
    let wanted = b"text 0\nend\ntext 2\nb exp x\ns semi\nP8 0\nend\n";
    assert!(rt; text.as_slice() == wanted.as_slice());
    assert!(rt; judge(text.as_slice()).is_ok());
    Ok(())
}

/// What a log holds: its last production, the last name of its first leaf line, and how many of these lines there are.
fn held_by(log: TextLog) -> (Option<LogItem>, Option<NameId>, usize) {
    let TextLog { leaves, items } = log;
    let mut items = items.into_vec();
    let mut lines = leaves.into_vec();
    let count = lines.len();
    lines.truncate(1);
    let Some(first) = lines.pop() else {
        return (items.pop(), None, count);
    };
    let mut names = first.names.into_vec();
    (items.pop(), names.pop(), count)
}

#[test]
fn a_log_gives_back_what_it_holds(rt: HostRuntime) -> Result<(), Fail> {
    let x = NameId { index: 7 };
    let log = log_of(rt.alloc(), x)?;
    let item = LogItem {
        row: RowNo { number: 8 },
        place: 0,
    };
    assert_eq!(rt; held_by(log), (Some(item), Some(x), 2));
    Ok(())
}
