//! What no clause says: that the sample is made.
use crate::told::expect;
use cw_base::{Bytes, Memory};
use cw_weave::sample_web;
use std::alloc::Global;
use std::test::Fail;

/// The text of a sample, how many lines it has, and the number of the last one.
fn two_sections_of_sample(alloc: Global) -> Result<(Bytes, usize, u32), Memory> {
    let web = sample_web(alloc, 2)?;
    let count = web.line_count();
    let last = if count == 6 {
        web.line(5).place.line
    } else {
        0
    };
    Ok((Bytes::from_slice(alloc, web.text())?, count, last))
}

#[test]
fn two_sections(rt: HostRuntime) -> Result<(), Fail> {
    let (text, count, last) = two_sections_of_sample(rt.alloc())?;
    expect(
        &rt,
        &text,
        b"@ Section 1 adds.
@<Step 1.@>=
if (a>1) { b+=1; c(1,a); } else while (b) b--;
@ Section 2 adds.
@<Step 2.@>=
if (a>2) { b+=2; c(2,a); } else while (b) b--;
",
    );
    assert_eq!(rt; (count, last), (6, 6));
    Ok(())
}
