//! Leaf lines, and productions, as a text's log has them.
ghost use Rattle.std.specs.Prelude.{◌≡◌};

use crate::LeafKind;
use cw_base::Cat;
use cw_names::NameId;
use cw_table::RowNo;
use std::marker::Model;

/// The names of a leaf line, in order.
#[derive(Drop)]
pub struct NameList {
    names: Vec<NameId>,
}

impl Model for NameList {
    ghost use Rattle.std.specs.Prelude.{List};
    ghost use Rattle.cw_names.specs.declared.entry.NameId.{NameId};

    ghost Value = { List NameId };

    ghost view = { λ l. l.names.items };
}

impl NameList {
    /// The names of a vector, which isn't copied.
    pub fn from_vec(names: Vec<NameId>) -> NameList
        ensures { result ≡ names.items }
    {
        NameList { names }
    }

    /// Gives the names back, without a copy.
    pub fn into_vec(self) -> Vec<NameId>
        ensures { result.items ≡ self }
    {
        self.names
    }

    /// The names, as a slice.
    pub fn as_slice(&self) -> &[NameId]
        ensures { result.now ≡ self.now }
    {
        self.names.as_slice()
    }
}

/// The leaf line of a scrap: its names stand among those of a web.
#[derive(Drop)]
pub struct LeafLine {
    /// What it says of the scrap.
    pub kind: LeafKind,
    /// The scrap's category.
    pub cat: Cat,
    /// The scrap's identifiers.
    pub names: NameList,
}

/// Leaf lines in a row.
#[derive(Drop)]
pub struct LeafLines {
    lines: Vec<LeafLine>,
}

impl Model for LeafLines {
    ghost use Rattle.std.specs.Prelude.{List};
    ghost use Rattle.cw_leaves.specs.declared.lines.LeafLine.{LeafLine};

    ghost Value = { List LeafLine };

    ghost view = { λ l. l.lines.items };
}

impl LeafLines {
    /// The lines of a vector, which isn't copied.
    pub fn from_vec(lines: Vec<LeafLine>) -> LeafLines
        ensures { result ≡ lines.items }
    {
        LeafLines { lines }
    }

    /// Gives the lines back, without a copy.
    pub fn into_vec(self) -> Vec<LeafLine>
        ensures { result.items ≡ self }
    {
        self.lines
    }

    /// The lines, as a slice.
    pub fn as_slice(&self) -> &[LeafLine]
        ensures { result.now ≡ self.now }
    {
        self.lines.as_slice()
    }
}

/// A production: the row that was applied, and the place of the first scrap that it tests.
#[derive(Clone, Copy, PartialEq, Eq, Debug)]
pub struct LogItem {
    pub row: RowNo,
    pub place: u32,
}

/// Productions in a row.
#[derive(Drop)]
pub struct LogItems {
    items: Vec<LogItem>,
}

impl Model for LogItems {
    ghost use Rattle.std.specs.Prelude.{List};
    ghost use Rattle.cw_leaves.specs.declared.lines.LogItem.{LogItem};

    ghost Value = { List LogItem };

    ghost view = { λ l. l.items.items };
}

impl LogItems {
    /// The productions of a vector, which isn't copied.
    pub fn from_vec(items: Vec<LogItem>) -> LogItems
        ensures { result ≡ items.items }
    {
        LogItems { items }
    }

    /// Gives the productions back, without a copy.
    pub fn into_vec(self) -> Vec<LogItem>
        ensures { result.items ≡ self }
    {
        self.items
    }

    /// The productions, as a slice.
    pub fn as_slice(&self) -> &[LogItem]
        ensures { result.now ≡ self.now }
    {
        self.items.as_slice()
    }
}

/// The log of one C text: the leaf lines of its scraps, and its productions.
#[derive(Drop)]
pub struct TextLog {
    pub leaves: LeafLines,
    pub items: LogItems,
}
