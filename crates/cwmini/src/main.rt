//! The program: `cwmini web change|- out`.
#![tactic(auto)]

use cw_base::Exit;
use cw_mini::mini_files;
use cw_run::command_line;
use std::process::ExitCode;

fn main(rt: HostRuntime) -> ExitCode {
    let alloc = rt.alloc();
    let Ok(line) = command_line(&rt, alloc) else {
        return ExitCode::from(Exit::Memory.code());
    };
    let (exit, desk) = mini_files(rt, alloc, &line);
    desk.tell_failure("cwmini");
    ExitCode::from(exit.code())
}
