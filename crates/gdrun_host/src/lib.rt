//! Runs GDScript projects on this machine: the words of the command line, real files and the standard output.
//!
//! What the program does stands here, so that more than one program of the repository can run it.
#![tactic(auto)]

use gdrun::{Status, gd_main_alone};
use host_io::{HostFolder, HostSink};
use std::alloc::AllocError;
use std::io::ErrorKind;
use std::process::ExitCode;
use std::rt::{Env, Files};
use std::{env, io};

/// The words after the program's name, or none where one is no text.
fn read_words<R: Env + AllocGlobal>(rt: &R) -> Result<Vec<String>, AllocError> {
    match env::args(rt) {
        Ok(args) => args.skip(1).collect(rt.alloc()),
        Err(error) if error.kind() == ErrorKind::OutOfMemory => Err(AllocError),
        Err(_) => Ok(Vec::new(rt.alloc())),
    }
}

/// The folder that the words name, or the current one.
fn folder_name<R: AllocGlobal>(rt: &R, words: &[String]) -> Result<String, AllocError> {
    match words {
        [_, dir, ..] => dir.clone(),
        _ => String::from_str(rt.alloc(), "."),
    }
}

/// Runs on the real folder and the standard output, and answers the status.
fn run_host<R: Env + Files + Print + AllocGlobal + Clone + Drop>(
    rt: &R,
) -> Result<Status, AllocError> {
    let mut words = read_words(rt)?;
    if words.first().is_some_and(|word| word.as_str() == "--alone") {
        words.remove(0);
    }
    let mut folder = HostFolder::open(rt.clone()?, folder_name(rt, &words)?);
    let mut out = HostSink::stdout(rt.clone()?);
    Ok(gd_main_alone(rt.alloc(), &words, &mut folder, &mut out))
}

/// Runs `gdrun [--alone] script DIR PATH [WORKERS [STEPS]]` by the words that the program was given, and answers its exit
/// code: the number of the run's status. A word that is no text is no command, as are words that are none.
pub fn run_program<R: Env + Files + Print + AllocGlobal + Clone + Drop>(rt: &R) -> ExitCode {
    let status = run_host(rt).unwrap_or(Status::NoMemory);
    ExitCode::from(status.number())
}
