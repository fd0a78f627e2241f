//! How far a reducer steps back after each production, from the program's data.
ghost use Rattle.std.specs.Prelude.{◌≡◌, ◌≤◌, IfSome};
ghost use Rattle.cw_table.specs.Productions.{productions};
ghost use Rattle.cw_table.specs.Rows.{row_numbered};
ghost use Rattle.cw_table.specs.Safe.{least};

use crate::productions::ROW_COUNT;
use crate::types::RowNo;

// The least safe distance of each production, in order.
static BACK: [u8; ROW_COUNT] = [
    2, 2, 3, 2, 2, 2, 2, 2, 2, 2, 2, 2, 2, 2, 0, 0, 2, 2, 2, 1, 1, 1, 2, 2, 2, 2, 2, 1, 0, 0, 1, 1,
    1, 1, 1, 2, 1, 1, 2, 2, 0, 2, 2, 2, 2, 1, 1, 2, 2, 2, 2, 2, 3, 2, 2, 2, 0, 3, 2, 2, 3, 2, 0, 2,
    2, 2, 1, 2, 1, 2, 1, 1, 2, 0, 0, 1, 1, 1, 2, 2, 3, 0, 1, 1, 1, 1, 0, 1, 2, 0, 2, 2, 2, 2, 1, 0,
    1, 0, 2, 2, 2, 2, 0, 2, 2, 0, 1, 0, 2, 2, 2, 3, 1, 1, 1, 2, 3, 2, 1, 1, 2, 2, 2, 2, 2, 2, 3, 0,
    2, 2, 2, 0, 2, 2, 1, 2, 3, 2, 1, 1, 2, 2, 1, 0, 1, 1, 2, 1,
];

/// How far a reducer steps back after a production: its least safe distance, which `Table::distance`
/// finds by going over the rows.
pub fn step_back(row: RowNo) -> usize
    requires from_one { 1 ≤ row.number }
    requires to_last { row.number ≤ ROW_COUNT }
    ensures least { IfSome (row_numbered productions row.number) (λ r. result ≡ least productions r) }
    ensures at_most { result ≤ 3 }
{
    BACK[row.number as usize - 1] as usize
}
