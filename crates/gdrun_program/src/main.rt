//! Runs GDScript projects: `gdrun [--alone] script DIR PATH [WORKERS [STEPS]]`.
#![tactic(auto)]

use gdrun_host::run_program;
use std::process::ExitCode;

fn main(rt: HostRuntime) -> ExitCode {
    run_program(&rt)
}
