//! The least safe distance of a production, found by going over all rows of the table.
ghost use Rattle.std.specs.Prelude.{◌≡◌, ◌≤◌, IfSome, true};
ghost use Rattle.cw_table.specs.Rows.{row_numbered};
ghost use Rattle.cw_table.specs.Safe.{endangers, least, safe};

use crate::types::{Row, RowNo, Table};

impl<const N: usize> Table<N> {
    /// The least safe distance of a production, from 0 to 3: so far before its place some row may fit
    /// after it that fitted nowhere there before. It goes over all rows of the table.
    pub fn distance(&self, row: RowNo) -> usize
        requires from_one { 1 ≤ row.number }
        requires to_last { row.number ≤ N }
        ensures least { IfSome (row_numbered self.now row.number) (λ r. result ≡ least self.now r) }
        ensures safe { IfSome (row_numbered self.now row.number) (λ r. safe self.now r result ≡ true) }
    {
        let _productions = &self.rows; // (for the proof)
        let row = self.row(row);
        if self.endangered(row, 3) {
            3
        } else if self.endangered(row, 2) {
            2
        } else if self.endangered(row, 1) {
            1
        } else {
            0
        }
    }

    // Whether the row is a hazard to some row that begins so many places before.
    fn endangered(&self, row: &Row, places: usize) -> bool
        requires { places ≤ 3 }
        ensures { result ≡ endangers self.now row.now places }
    {
        for other in &self.rows {
            if row.is_hazard(other, places) {
                return true;
            }
        }
        false
    }
}
