//! Webs as deep, as long and with as many statements as they may be, and such as are deeper or longer.
use crate::runs::{FOO, terminal_told};
use crate::texts::{Piece, text_of};
use std::alloc::Global;
use std::process::Abort;
use std::test::Fail;

/// A large web, and what its run prints.
struct Large {
    name: &'static str,
    words: &'static [&'static [u8]],
    web: &'static [Piece<'static>],
    printed: &'static [u8],
}

/// 63 letters, as a line.
const LINE: &[u8] = b"aaaaaaaaaaaaaaaaaaaaaaaaaaaaaaaaaaaaaaaaaaaaaaaaaaaaaaaaaaaaaaa\n";

const CLEAN: &[u8] = b"This is CWEAVE (profile 4)
Writing the output file...
Writing the index...
Done.
(No errors were found.)
Clean";

static DEEP: [Large; 3] = [
    // A statement with a comment that has C text with a comment, and so on.
    Large {
        name: "twenty texts deep",
        words: &[FOO],
        web: &[
            (b"@ @c ", 1),
            (b"a /* |", 20),
            (b"a", 1),
            (b"| */", 20),
            (b"\n", 1),
        ],
        printed: CLEAN,
    },
    // Both bars of the text that would be too deep are bytes.
    Large {
        name: "one text too deep",
        words: &[FOO],
        web: &[
            (b"@ @c ", 1),
            (b"a /* |", 21),
            (b"a", 1),
            (b"| */", 21),
            (b"\n", 1),
        ],
        printed: b"This is CWEAVE (profile 4)
! C text is nested too deeply (l. 1 of foo.w)
! C text is nested too deeply (l. 1 of foo.w)
Writing the output file...
Writing the index...
Done.
(Pardon me, but I think I spotted something wrong.)
Errors",
    },
    Large {
        name: "too long",
        words: &[FOO],
        web: &[(b"a", 8_388_609)],
        printed: b"This is CWEAVE (profile 4)
! Input is longer than 8388608 bytes
(That was a fatal error, my friend.)
Errors",
    },
];

const STATEMENTS: Large = Large {
    name: "many statements on one line",
    words: &[b"-x", b"+s", FOO],
    web: &[(b"@ @c ", 1), (b"a;", 500_000), (b"\n", 1)],
    printed: b"This is CWEAVE (profile 4)
Writing the output file...
Done.
sections 1
scraps 1000000
productions 999999
lines 500005
(No errors were found.)
Clean",
};

// A section of 8,388,608 bytes.
const LONGEST: Large = Large {
    name: "a web as long as it may be",
    words: &[FOO],
    web: &[(b"@ ", 1), (b"a", 61), (b"\n", 1), (LINE, 131_071)],
    printed: CLEAN,
};

/// A run over this web has to print what is wanted.
fn expect_large(rt: &impl Abort, alloc: Global, large: &Large) -> Result<(), Fail> {
    let web = text_of(alloc, large.web)?;
    let seen = terminal_told(alloc, large.words, web.as_slice())?;
    assert_eq!(rt; seen.as_slice(), large.printed, "{}", large.name);
    Ok(())
}

#[test]
fn deep_webs_and_one_too_long(rt: HostRuntime) -> Result<(), Fail> {
    for large in &DEEP {
        expect_large(&rt, rt.alloc(), large)?;
    }
    Ok(())
}

#[test]
fn many_statements_on_one_line(rt: HostRuntime) -> Result<(), Fail> {
    expect_large(&rt, rt.alloc(), &STATEMENTS)
}

#[test]
fn a_web_as_long_as_it_may_be(rt: HostRuntime) -> Result<(), Fail> {
    expect_large(&rt, rt.alloc(), &LONGEST)
}
