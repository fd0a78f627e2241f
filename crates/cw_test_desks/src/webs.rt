//! Small webs.
use cw_base::{Memory, Place, Web};
use std::alloc::Global;

// One line more, where the web has capacity for it.
fn add(web: &mut Web, line: &[u8], number: u32) -> Result<(), Memory> {
    if web.file_count() == 0 || web.text().len() + line.len() >= 16_777_216 {
        return Ok(());
    }
    if line.iter().all(|byte| *byte != 10) {
        let place = Place {
            file: 0,
            line: number,
        };
        web.add_line(line, place, false)?;
    }
    Ok(())
}

fn add_lines(web: &mut Web, lines: &[&[u8]]) -> Result<(), Memory> {
    let mut number = 0u32;
    for line in lines {
        number = number.wrapping_add(1);
        add(web, line, number)?;
    }
    Ok(())
}

/// A web of these lines, of the file `t.w`.
pub fn web_of(alloc: Global, lines: &[&[u8]]) -> Result<Web, Memory> {
    let mut web = Web::new_in(alloc);
    let named = web.add_file(b"t.w");
    named.and(add_lines(&mut web, lines)).and(Ok(web))
}
