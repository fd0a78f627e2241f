//! The sections of the sample, line by line.
ghost use Rattle.std.specs.Prelude.{◌≡◌, ◌+◌, ◌<◌, ◌≤◌, ◌++◌, codes, decimal, IfOk, OnOk};
ghost use Rattle.cw_weave.specs.SampleWeb.{first_text, head_line, sample_web, statement_text};

use cw_base::{Bytes, Memory, Place, Web};
use cw_run::append_number;
use std::alloc::Global;

// A number between two texts.
fn numbered_text(alloc: Global, before: &[u8], number: u32, behind: &[u8]) -> Result<Bytes, Memory>
    ensures { IfOk result (λ text. text ≡ before.now ++ (decimal number ++ behind.now)) }
{
    let mut text = Bytes::from_slice(alloc, before)?;
    append_number(&mut text, u64::from(number))?;
    text.append(behind).and(Ok(text))
}

// The first line of a section.
fn first_text(alloc: Global, section: u32) -> Result<Bytes, Memory>
    ensures { IfOk result (λ text. text ≡ first_text section) }
{
    numbered_text(alloc, b"@ Section ", section, b" adds.")
}

// The head of its C part.
fn head_text(alloc: Global, section: u32) -> Result<Bytes, Memory>
    ensures { IfOk result (λ text. text ≡ head_line section) }
{
    numbered_text(alloc, b"@<Step ", section, b".@>=")
}

// Appends what stands behind the beginning of its statement.
fn append_statement(text: &mut Bytes, section: u32) -> Result<(), Memory>
    requires { text.old ≡ codes "if (a>" }
    ensures { OnOk result (text.new ≡ statement_text section) }
{
    append_number(text, u64::from(section))?;
    text.append(b") { b+=")?;
    append_number(text, u64::from(section))?;
    text.append(b"; c(")?;
    append_number(text, u64::from(section))?;
    text.append(b",a); } else while (b) b--;")
}

// Its statement.
fn statement_text(alloc: Global, section: u32) -> Result<Bytes, Memory>
    ensures { IfOk result (λ text. text ≡ statement_text section) }
{
    let mut text = Bytes::from_slice(alloc, b"if (a>")?;
    append_statement(&mut text, section).and(Ok(text))
}

// The place of a line of the sample.
fn place(line: u32) -> Place
    ensures { result ≡ record { file = 0; line = line } }
{
    Place { file: 0, line }
}

// Appends the lines of the section behind so many others.
fn add_lines(
    first: &[u8],
    head: &[u8],
    statement: &[u8],
    before: u32,
    web: &mut Web,
) -> Result<(), Memory>
    requires few { before < 2000 }
    requires begun { web.old ≡ sample_web before }
    requires first { first.now ≡ first_text (before + 1) }
    requires head { head.now ≡ head_line (before + 1) }
    requires statement { statement.now ≡ statement_text (before + 1) }
    ensures { OnOk result (web.new ≡ sample_web (before + 1)) }
{
    web.add_line(first, place(3 * before + 1), false)?;
    web.add_line(head, place(3 * before + 2), false)?;
    web.add_line(statement, place(3 * before + 3), false)
}

// Appends the section behind so many others.
fn add_section(alloc: Global, before: u32, web: &mut Web) -> Result<(), Memory>
    requires few { before < 2000 }
    requires begun { web.old ≡ sample_web before }
    ensures { OnOk result (web.new ≡ sample_web (before + 1)) }
{
    let first = first_text(alloc, before + 1)?;
    let head = head_text(alloc, before + 1)?;
    let statement = statement_text(alloc, before + 1)?;
    add_lines(
        first.as_slice(),
        head.as_slice(),
        statement.as_slice(),
        before,
        web,
    )
}

/// The web of the sample, of at most 2000 sections.
pub fn sample_web(alloc: Global, sections: u32) -> Result<Web, Memory>
    requires { sections ≤ 2000 }
    ensures { IfOk result (λ web. web ≡ sample_web sections) }
{
    let mut web = Web::new_in(alloc);
    web.add_file(b"sample")?;
    for before in 0..sections {
        add_section(alloc, before, &mut web)?;
    }
    Ok(web)
}
