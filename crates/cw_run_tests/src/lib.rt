//! Whole runs of the program over desks in memory, for tests: what is printed and written is compared byte by byte.
#![tactic(auto)]

#[cfg(test)]
mod c_text_tests;
#[cfg(test)]
mod changing_file_tests;
#[cfg(test)]
mod command_line_tests;
#[cfg(test)]
mod counted_tests;
#[cfg(test)]
mod desk_failing_tests;
#[cfg(test)]
mod expectations;
#[cfg(test)]
mod failing_tests;
#[cfg(test)]
mod forty_sections;
#[cfg(test)]
mod input_file_tests;
#[cfg(test)]
mod keeping_tests;
#[cfg(test)]
mod large_tests;
#[cfg(test)]
mod merging_tests;
#[cfg(test)]
mod printed_tests;
mod quiet;
#[cfg(test)]
mod ranged_tests;
#[cfg(test)]
mod real_file_tests;
#[cfg(test)]
mod recording;
#[cfg(test)]
mod runs;
#[cfg(test)]
mod scanning_tests;
#[cfg(test)]
mod section_tests;
#[cfg(test)]
mod short_parts;
#[cfg(test)]
mod short_text_tests;
#[cfg(test)]
mod small_section_tests;
#[cfg(test)]
mod texts;
#[cfg(test)]
mod weave_tests;
#[cfg(test)]
mod word_tests;

pub use quiet::weave_quietly;
