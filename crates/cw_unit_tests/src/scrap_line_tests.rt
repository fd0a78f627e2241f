//! Tests of lines, marks and productions.
use cw_base::{Cat, Kept, MathMode, Memory, Steps};
use cw_scraps::{Marks, ScrapLine};
use cw_tokens::ListId;
use std::alloc::Global;
use std::test::Fail;

// Whether a line begins empty; the categories at its one scrap and behind it; and the steps that were counted then.
fn looked_at(alloc: Global) -> Result<(bool, [Cat; 2], u64, usize), Memory> {
    let mut line = ScrapLine::new_in(alloc);
    let mut steps: Steps<Kept> = Steps::new();
    let begins_empty = line.is_empty();
    line.add(
        Cat::Exp,
        ListId { index: 0 },
        MathMode::Text,
        MathMode::Math,
    )?;
    let cats = [line.cat_at(0, &mut steps), line.cat_at(1, &mut steps)];
    Ok((begins_empty, cats, steps.count(), line.len()))
}

#[test]
fn a_line_counts_a_step_for_each_category(rt: HostRuntime) -> Result<(), Fail> {
    let seen = looked_at(rt.alloc())?;
    assert_eq!(rt; seen, (true, [Cat::Exp, Cat::End], 2, 1));
    Ok(())
}

// Whether too much capacity is refused, and how many marks there are then, and whether there are none.
fn refused_marks(alloc: Global) -> Result<(bool, usize, bool), Memory> {
    let mut marks = Marks::new_in(alloc);
    marks.reserve(1)?;
    let refused = marks.reserve(usize::MAX) == Err(Memory);
    Ok((refused, marks.len(), marks.is_empty()))
}

#[test]
fn marks_make_room(rt: HostRuntime) -> Result<(), Fail> {
    assert_eq!(rt; refused_marks(rt.alloc())?, (true, 0, true));
    Ok(())
}
