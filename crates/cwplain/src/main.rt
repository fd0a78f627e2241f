//! The program: `cwplain web change|- out`.
#![tactic(auto)]

use cw_base::Exit;
use cw_plain::plain_files;
use cw_run::command_line;
use std::process::ExitCode;

fn main(rt: HostRuntime) -> ExitCode {
    let alloc = rt.alloc();
    let Ok(line) = command_line(&rt, alloc) else {
        return ExitCode::from(Exit::Memory.code());
    };
    let (exit, desk) = plain_files(rt, alloc, &line);
    desk.tell_failure("cwplain");
    ExitCode::from(exit.code())
}
