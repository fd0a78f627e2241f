//! The program: `cweave [options] webfile[.w] [{changefile[.ch]|-} [outfile[.tex]]]`.
#![tactic(auto)]

use cw_base::Exit;
use cw_run::command_line;
use cw_weave::weave_files;
use std::process::ExitCode;

fn main(rt: HostRuntime) -> ExitCode {
    let alloc = rt.alloc();
    let Ok(line) = command_line(&rt, alloc) else {
        return ExitCode::from(Exit::Memory.code());
    };
    let (exit, desk) = weave_files(rt, alloc, &line);
    desk.tell_failure("cweave");
    ExitCode::from(exit.code())
}
