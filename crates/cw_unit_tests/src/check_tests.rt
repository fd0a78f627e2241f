//! Worked logs, compared with the productions of a line.
ghost use Rattle.cw_scraps.specs.Lines.{IsSoundLine};

use crate::row_tests::Bench;
use crate::slow_tests::bench_of_words;
use crate::worked_lines::add_all;
use cw_base::{Flags, Memory};
use cw_leaves::LogItem;
use cw_logs::{Verdict, check_line};
use cw_table::RowNo;
use std::alloc::Global;
use std::test::Fail;

const P6: RowNo = RowNo { number: 6 };

const P8: RowNo = RowNo { number: 8 };

const P11: RowNo = RowNo { number: 11 };

const P12: RowNo = RowNo { number: 12 };

const P72: RowNo = RowNo { number: 72 };

const P97: RowNo = RowNo { number: 97 };

// A line of tokens and a log; what is found, and how many scraps are left.
struct Judged {
    tokens: &'static [u8],
    log: &'static [LogItem],
    verdict: Verdict,
    scraps: usize,
}

const SUM: [LogItem; 3] = [
    LogItem { row: P6, place: 0 },
    LogItem { row: P6, place: 0 },
    LogItem { row: P8, place: 0 },
];

static LOGS: [Judged; 13] = [
    Judged {
        tokens: b"a=a+b;",
        log: &SUM,
        verdict: Verdict::Accepted,
        scraps: 1,
    },
    // A production is left out.
    Judged {
        tokens: b"a=a+b;",
        log: &[LogItem { row: P6, place: 0 }, LogItem { row: P8, place: 0 }],
        verdict: Verdict::Rejected(1),
        scraps: 4,
    },
    // The last one is missing.
    Judged {
        tokens: b"a=a+b;",
        log: &[LogItem { row: P6, place: 0 }, LogItem { row: P6, place: 0 }],
        verdict: Verdict::Rejected(2),
        scraps: 2,
    },
    // There is one more.
    Judged {
        tokens: b"a=a+b;",
        log: &[
            LogItem { row: P6, place: 0 },
            LogItem { row: P6, place: 0 },
            LogItem { row: P8, place: 0 },
            LogItem { row: P8, place: 0 },
        ],
        verdict: Verdict::Rejected(3),
        scraps: 1,
    },
    // The row is the same, and the place isn't.
    Judged {
        tokens: b"a=a+b;",
        log: &[LogItem { row: P6, place: 2 }],
        verdict: Verdict::Rejected(0),
        scraps: 6,
    },
    Judged {
        tokens: b"a=a+b;",
        log: &[],
        verdict: Verdict::Rejected(0),
        scraps: 6,
    },
    Judged {
        tokens: b"a;b;",
        log: &[
            LogItem { row: P8, place: 0 },
            LogItem { row: P8, place: 1 },
            LogItem { row: P72, place: 0 },
        ],
        verdict: Verdict::Accepted,
        scraps: 1,
    },
    // Each row fits at its place, but the first isn't the leftmost.
    Judged {
        tokens: b"a;b;",
        log: &[
            LogItem { row: P8, place: 2 },
            LogItem { row: P8, place: 0 },
            LogItem { row: P72, place: 0 },
        ],
        verdict: Verdict::Rejected(0),
        scraps: 4,
    },
    Judged {
        tokens: b"a(b)",
        log: &[
            LogItem { row: P12, place: 1 },
            LogItem { row: P11, place: 0 },
        ],
        verdict: Verdict::Accepted,
        scraps: 1,
    },
    Judged {
        tokens: b"a;",
        log: &[
            LogItem { row: P97, place: 0 },
            LogItem { row: P8, place: 0 },
        ],
        verdict: Verdict::Rejected(0),
        scraps: 2,
    },
    // No row fits.
    Judged {
        tokens: b")",
        log: &[],
        verdict: Verdict::Accepted,
        scraps: 1,
    },
    Judged {
        tokens: b"",
        log: &[],
        verdict: Verdict::Accepted,
        scraps: 0,
    },
    Judged {
        tokens: b"",
        log: &SUM,
        verdict: Verdict::Rejected(0),
        scraps: 0,
    },
];

fn found_of(bench: &mut Bench, judged: &Judged) -> Result<(Verdict, usize), Memory>
    requires sound { IsSoundLine bench.old.store bench.old.names bench.old.line }
{
    add_all(
        judged.tokens,
        &mut bench.line,
        &mut bench.store,
        &mut bench.names,
    )?;
    let verdict = check_line(
        &mut bench.line,
        &mut bench.store,
        &mut bench.names,
        &mut bench.marks,
        &Flags::start(),
        judged.log,
        &mut bench.steps,
    )?;
    Ok((verdict, bench.line.len()))
}

fn found(alloc: Global, judged: &Judged) -> Result<(Verdict, usize), Memory> {
    let mut bench = bench_of_words(alloc)?;
    found_of(&mut bench, judged)
}

#[test]
fn worked_logs_are_judged(rt: HostRuntime) -> Result<(), Fail> {
    for (i, judged) in LOGS.iter().enumerate() {
        assert_eq!(rt;
            found(rt.alloc(), judged)?,
            (judged.verdict, judged.scraps),
            "log {i}"
        );
    }
    Ok(())
}
