//! Makes the books of webs.
ghost use Rattle.std.specs.Prelude.{◌≡◌, []};

use crate::samples::{LARGEST, SMALL, is_wanted, put_number};
use cw_base::{Memory, Place, Web};
use cw_phase1::{Book, phase_one};
use std::alloc::{AllocError, Global};
use std::io;

/// A web: its first lines, lines that are repeated, and its last ones. A `$` stands for the number of the repeat.
struct Sample {
    name: &'static str,
    begin: &'static [&'static [u8]],
    piece: &'static [&'static [u8]],
    end: &'static [&'static [u8]],
}

const SAMPLES: [Sample; 4] = [
    Sample {
        name: "ordinary",
        begin: &[b"\\def\\title{A web}", b"@* A web of many parts."],
        piece: &[
            b"@ The function |sum_of| adds the values from |first| to |last|, as the section",
            b"before it has told. How many there are is the number |count|, which is never 0,",
            b"and the sum stays below |limit|. @^sums, and how they are made@>",
            b"@d limit 100",
            b"@f table int",
            b"@<Sum the values of part $@>=",
            b"int sum_of(int first, int last)",
            b"{",
            b"    int i, total = 0;",
            b"    for (i = first; i < last && i < count; i++) {",
            b"        total += values[i] * 0x1f; /* the |total| so far */",
            b"        if (total > limit) {",
            b"            printf(\"The sum is too large: %d\\n\", total);",
            b"            @<Report part $@>;",
            b"        }",
            b"    }",
            b"    return total;",
            b"}",
            b"",
            b"@ What is reported of a sum that is too large is its place, and what stands there.",
            b"@<Report part $@>=",
            b"report(i, values[i]);",
            b"longjmp(again, total - limit);",
            b"",
        ],
        end: &[b"@* Index."],
    },
    Sample {
        name: "names",
        begin: &[],
        piece: &[b"@ @<A part $@>="],
        end: &[],
    },
    Sample {
        name: "prefixes",
        begin: &[b"@ @<A name of which all others are prefixes@>="],
        piece: &[
            b"@<A...@>",
            b"@<A name...@>",
            b"@<A name of...@>",
            b"@<A name of which...@>",
            b"@<A name of which all...@>",
        ],
        end: &[],
    },
    Sample {
        name: "long",
        begin: &[b"@ @<A name"],
        piece: &[b"that goes on and on, and in which  no  line seems to be the last one,"],
        end: &[b"but here it ends@>="],
    },
];

// A line with its number.
fn put_line(buffer: &mut Vec<u8>, line: &[u8], number: usize) -> Result<(), AllocError> {
    buffer.clear();
    for byte in line {
        if *byte == b'$' {
            put_number(buffer, number)?;
        } else if *byte != b'\n' {
            buffer.push(*byte)?;
        }
    }
    Ok(())
}

// One line more, where the web has capacity for it.
fn add(web: &mut Web, line: &[u8]) -> Result<(), Memory> {
    if web.file_count() == 0 || web.text().len() + line.len() >= LARGEST {
        return Ok(());
    }
    if line.iter().all(|byte| *byte != b'\n') {
        let place = Place { file: 0, line: 1 };
        web.add_line(line, place, false)?;
    }
    Ok(())
}

fn add_lines(
    web: &mut Web,
    buffer: &mut Vec<u8>,
    lines: &[&[u8]],
    number: usize,
) -> Result<(), Memory> {
    for line in lines {
        put_line(buffer, line, number)?;
        add(web, buffer)?;
    }
    Ok(())
}

// Adds the lines of a sample to a web, its piece repeated up to the size.
fn fill(web: &mut Web, buffer: &mut Vec<u8>, size: usize, sample: &Sample) -> Result<(), Memory>
    requires { web.old.files ≡ [] }
{
    web.add_file(b"bench.w")?;
    add_lines(web, buffer, sample.begin, 0)?;
    for number in 0..size {
        if web.text().len() >= size {
            break;
        }
        add_lines(web, buffer, sample.piece, number)?;
    }
    add_lines(web, buffer, sample.end, 0)
}

// The first phase alone, whose instructions are counted.
#[inline(never)]
fn measured(alloc: Global, web: &Web) -> Result<Book, Memory> {
    phase_one(alloc, web)
}

// What a web and its book hold.
#[derive(Drop)]
struct Counts {
    bytes: usize,
    sections: u32,
    names: usize,
    notes: usize,
}

// What they hold of a sample.
fn told(alloc: Global, size: usize, sample: &Sample) -> Result<Counts, Memory> {
    let mut web = Web::new_in(alloc);
    told_in(alloc, &mut web, size, sample)
}

// The same in a web that is empty.
fn told_in(alloc: Global, web: &mut Web, size: usize, sample: &Sample) -> Result<Counts, Memory>
    requires { web.old.files ≡ [] }
{
    let mut buffer = Vec::new(alloc);
    fill(web, &mut buffer, size, sample)?;
    let book = measured(alloc, web)?;
    Ok(Counts {
        bytes: web.text().len(),
        sections: book.section_count(),
        names: book.sec_names.len(),
        notes: book.notes().len(),
    })
}

/// Makes the book of each sample, or of the one of a name.
pub(crate) fn run(rt: HostRuntime, size: Option<usize>, only: Option<&str>) -> io::Result<()> {
    let size = size.unwrap_or(SMALL);
    for sample in &SAMPLES {
        if is_wanted(only, sample.name) {
            match told(rt.alloc(), size, sample) {
                Ok(counts) => println!(rt;
                    "{}: {} bytes, {} sections, {} section names, {} notes",
                    sample.name, counts.bytes, counts.sections, counts.names, counts.notes
                )?,
                Err(Memory) => println!(rt; "{}: no memory", sample.name)?,
            }
        }
    }
    Ok(())
}
