//! Tests of units: what stands outside the book, C texts, and the book of small webs.
#![tactic(auto)]

#[cfg(test)]
mod base_tests;
#[cfg(test)]
mod check_tests;
#[cfg(test)]
mod desk_tests;
#[cfg(test)]
mod draft_tests;
#[cfg(test)]
mod index_tests;
#[cfg(test)]
mod input_tests;
#[cfg(test)]
mod joiner_tests;
#[cfg(test)]
mod kept_tests;
#[cfg(test)]
mod kinds;
#[cfg(test)]
mod leaf_tests;
#[cfg(test)]
mod lexer_tests;
#[cfg(test)]
mod line_out_tests;
#[cfg(test)]
mod list_tests;
#[cfg(test)]
mod message_tests;
#[cfg(test)]
mod name_tests;
#[cfg(test)]
mod note_tests;
#[cfg(test)]
mod part_tests;
#[cfg(test)]
mod phase_tests;
#[cfg(test)]
mod pieces;
#[cfg(test)]
mod recorder_tests;
#[cfg(test)]
mod row_tests;
#[cfg(test)]
mod sample_tests;
#[cfg(test)]
mod scrap_line_tests;
#[cfg(test)]
mod section_name_tests;
#[cfg(test)]
mod slow_tests;
#[cfg(test)]
mod small_webs;
#[cfg(test)]
mod store_tests;
#[cfg(test)]
mod table_tests;
#[cfg(test)]
mod test_printing;
#[cfg(test)]
mod tex_part_tests;
#[cfg(test)]
mod text_list_tests;
#[cfg(test)]
mod text_tests;
#[cfg(test)]
mod token_tests;
#[cfg(test)]
mod told;
#[cfg(test)]
mod translate_tests;
#[cfg(test)]
mod walk_tests;
#[cfg(test)]
mod worked_lines;
