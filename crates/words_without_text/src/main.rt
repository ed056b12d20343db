//! The program once more, run with a word that is no text: that is no command, also where the words before it are one.
#![tactic(auto)]

use gdrun_host::run_program;
use std::process::ExitCode;

fn main(rt: HostRuntime) -> ExitCode {
    run_program(&rt)
}
