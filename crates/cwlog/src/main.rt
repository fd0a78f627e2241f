//! The program: `cwlog write web change|- out`, or `cwlog check log`.
#![tactic(auto)]

use cw_base::Exit;
use cw_log::log_files;
use cw_run::command_line;
use std::process::ExitCode;

fn main(rt: HostRuntime) -> ExitCode {
    let alloc = rt.alloc();
    let Ok(line) = command_line(&rt, alloc) else {
        return ExitCode::from(Exit::Memory.code());
    };
    let (exit, desk) = log_files(rt, alloc, &line);
    desk.tell_failure("cwlog");
    ExitCode::from(exit.code())
}
