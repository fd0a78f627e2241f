//! Whole runs over command lines with words of two hyphens and a letter, and with outputs that would overwrite inputs.
use crate::expectations::{Run, expect_runs};
use crate::runs::{FOO, HELLO};
use std::test::Fail;

/// Command lines, and what each has to tell.
static RUNS: [Run; 8] = [
    Run {
        name: "help",
        words: &[b"--help"],
        files: &[(b"foo.w", HELLO)],
        told: b"[term]Usage: cweave [options] webfile[.w] [{changefile[.ch]|-} [outfile[.tex]]]
  webfile     the web; without an extension webfile.w, else webfile.web
  changefile  changes of the web, - for none
  outfile     the TeX file; index and list of section names lie beside it
Options stand anywhere; letters behind - turn off, behind + turn on:
  b  print the banner (on at the start, as all but s, k and r)
  p  print progress lines
  h  print the happy message
  f  separate statements by forced breaks
  e  wrap inner C text in \\PB{..}
  i  indent parameter declarations of functions
  o  separate declarations from statements by a big break
  x  write the index and the list of section names
  s  print statistics
  k  keep an output that has not changed as it is
  r  range pages as the original does
--quiet is -bph, --verbose is +bph. On a line of their own:
  --sample N  print the statistics of a sample of N sections, 1 to 2000
  --help      print this text
  --version   print the banner
Status: 0 no errors, 1 errors in the web or in these words,
2 a device failed, 3 memory ran out.
Clean",
    },
    Run {
        name: "version",
        words: &[b"--version"],
        files: &[],
        told: b"[term]This is CWEAVE (profile 4)
Clean",
    },
    Run {
        name: "quiet",
        words: &[FOO, b"-x", b"--quiet"],
        files: &[(b"foo.w", HELLO)],
        told: b"[tex] is foo.tex
[tex]\\input cwebmac
% limbo
\\M{1}Hello.
\\fi

\\end
Clean",
    },
    Run {
        name: "verbose behind quiet",
        words: &[b"--quiet", b"-x", FOO, b"--verbose"],
        files: &[(b"foo.w", HELLO)],
        told: b"[term]This is CWEAVE (profile 4)
Writing the output file...
[tex] is foo.tex
[tex]\\input cwebmac
% limbo
\\M{1}Hello.
\\fi

\\end
[term]Done.
(No errors were found.)
Clean",
    },
    Run {
        name: "an unknown word",
        words: &[FOO, b"--quite"],
        files: &[(b"foo.w", HELLO)],
        told: b"[term]This is CWEAVE (profile 4)
! Unknown option --quite
(That was a fatal error, my friend.)
Errors",
    },
    Run {
        name: "help beside a web",
        words: &[b"--help", FOO, b"-b"],
        files: &[(b"foo.w", HELLO)],
        told: b"[term]! Unknown option --help
(That was a fatal error, my friend.)
Errors",
    },
    Run {
        name: "an unknown word behind the number of a sample",
        words: &[b"--sample", b"2", b"--x"],
        files: &[],
        told: b"[term]This is CWEAVE (profile 4)
! Unknown option --x
(That was a fatal error, my friend.)
Errors",
    },
    Run {
        name: "an unknown word in place of the number of a sample",
        words: &[b"--sample", b"--help"],
        files: &[],
        told: b"[term]This is CWEAVE (profile 4)
! Unknown option --help
(That was a fatal error, my friend.)
Errors",
    },
];

/// Command lines whose outputs would overwrite an input or one another, and what each has to tell.
static OVERWRITING: [Run; 9] = [
    Run {
        name: "the web",
        words: &[b"foo.tex"],
        files: &[(b"foo.tex", HELLO)],
        told: b"[term]This is CWEAVE (profile 4)
! Output file would overwrite foo.tex
(That was a fatal error, my friend.)
Errors",
    },
    Run {
        name: "the web as an output word",
        words: &[FOO, b"-", b"foo.w"],
        files: &[(b"foo.w", HELLO)],
        told: b"[term]This is CWEAVE (profile 4)
! Output file would overwrite foo.w
(That was a fatal error, my friend.)
Errors",
    },
    Run {
        name: "an included file",
        words: &[FOO],
        files: &[(b"foo.w", b"@i foo.scn\n"), (b"foo.scn", HELLO)],
        told: b"[term]This is CWEAVE (profile 4)
! Output file would overwrite foo.scn
(That was a fatal error, my friend.)
Errors",
    },
    Run {
        name: "the change file",
        words: &[FOO, b"foo.idx"],
        files: &[(b"foo.w", HELLO), (b"foo.idx", b"")],
        told: b"[term]This is CWEAVE (profile 4)
! Output file would overwrite foo.idx
(That was a fatal error, my friend.)
Errors",
    },
    Run {
        name: "the web by a draft",
        words: &[b"+k", b"a.tex.new", b"-", b"a"],
        files: &[(b"a.tex.new", HELLO)],
        told: b"[term]This is CWEAVE (profile 4)
! Output file would overwrite a.tex.new
(That was a fatal error, my friend.)
Errors",
    },
    Run {
        name: "an included file by the draft of the index",
        words: &[b"+k", FOO],
        files: &[(b"foo.w", b"@i foo.idx.new\n"), (b"foo.idx.new", HELLO)],
        told: b"[term]This is CWEAVE (profile 4)
! Output file would overwrite foo.idx.new
(That was a fatal error, my friend.)
Errors",
    },
    Run {
        name: "no draft of an index",
        words: &[b"+k", b"-x", b"-bph", FOO],
        files: &[(b"foo.w", b"@i foo.idx.new\n"), (b"foo.idx.new", HELLO)],
        told: b"[tex] is drafted for foo.tex
[tex]\\input cwebmac
% limbo
\\M{1}Hello.
\\fi

\\end
[tex] is replaced
Clean",
    },
    Run {
        name: "the TeX file by the index",
        words: &[FOO, b"-", b"a.idx"],
        files: &[(b"foo.w", HELLO)],
        told: b"[term]This is CWEAVE (profile 4)
! Output file would overwrite a.idx
(That was a fatal error, my friend.)
Errors",
    },
    Run {
        name: "no index is made",
        words: &[FOO, b"-", b"a.idx", b"-bphx"],
        files: &[(b"foo.w", HELLO)],
        told: b"[tex] is a.idx
[tex]\\input cwebmac
% limbo
\\M{1}Hello.
\\fi

\\end
Clean",
    },
];

#[test]
fn outputs_that_are_inputs(rt: HostRuntime) -> Result<(), Fail> {
    expect_runs(&rt, rt.alloc(), &OVERWRITING)
}

#[test]
fn long_words(rt: HostRuntime) -> Result<(), Fail> {
    expect_runs(&rt, rt.alloc(), &RUNS)
}
