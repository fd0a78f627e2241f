//! Looks up 5,600 windows in the production table.
use cw_base::{ALL_CATS, Cat};
use cw_table::{ROW_COUNT, Table, table};
use std::io;

// The look-up whose instructions are counted.
#[inline(never)]
fn look(table: &Table<ROW_COUNT>, window: [Cat; 4]) -> u8 {
    match table.first_at(window) {
        Some(row) => row.number,
        None => 0,
    }
}

/// Looks each up, and prints what their rows sum to.
pub(crate) fn run(rt: HostRuntime) -> io::Result<()> {
    let table = table();
    let mut found = 0u64;
    let mut sum = 0u64;
    for round in 0..100usize {
        for (i, first) in ALL_CATS.iter().enumerate() {
            let window = [
                *first,
                ALL_CATS[(i * 7 + round) % ALL_CATS.len()],
                ALL_CATS[(i * 5 + 1) % ALL_CATS.len()],
                ALL_CATS[(i * 3 + 2) % ALL_CATS.len()],
            ];
            let number = look(&table, window);
            found = found.wrapping_add((number > 0) as u64);
            sum = sum.wrapping_add(number as u64);
        }
    }
    println!(rt; "windows 5600, some row fits in {found}, sum of the rows {sum}")?;
    Ok(())
}
