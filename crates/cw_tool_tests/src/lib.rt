//! Tests of programs that read a web or a log and write one file: whole runs over desks in memory and over real files.
#![tactic(auto)]

#[cfg(test)]
mod counting;
#[cfg(test)]
mod counting_tests;
#[cfg(test)]
mod failing_tests;
#[cfg(test)]
mod judge_tests;
#[cfg(test)]
mod log_block_tests;
#[cfg(test)]
mod log_check_tests;
#[cfg(test)]
mod log_text_tests;
#[cfg(test)]
mod log_write_tests;
#[cfg(test)]
mod logged_tests;
#[cfg(test)]
mod mini_row_tests;
#[cfg(test)]
mod mini_tests;
#[cfg(test)]
mod plain_rows;
#[cfg(test)]
mod plain_tests;
#[cfg(test)]
mod programs;
#[cfg(test)]
mod refused_tests;
