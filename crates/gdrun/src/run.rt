// The whole of a run, over a folder and a sink that are handed in.
ghost use Rattle.std.specs.Prelude.{◌≡◌, ◌≤◌, [], ◌∷◌, IsTrue, All, IfSome, length};
ghost use Rattle.std.specs.Option.{option_map};
ghost use Rattle.std.specs.FinMap.{find};
ghost use Rattle.host_io.specs.Paths.{path_order};
ghost use Rattle.gd_syntax.specs.FirstScript.{script_of};
ghost use Rattle.gd_machine.specs.Ending.{is_told, ending_text};
ghost use Rattle.folder_meaning.specs.Image.{size_of};
ghost use Rattle.folder_meaning.specs.ImageFile.{image_of, bytes_of};
ghost use Rattle.folder_meaning.specs.Limits.{max_file_bytes};
ghost use Rattle.gdrun.specs.Outcome.{outcome_of_run, IsOutcomeOfText, IsOutcomeOfFile};
ghost use Rattle.gdrun.specs.Run.{HasWritten, HasWrittenSome, HasRefused};
ghost use Rattle.gdrun.specs.Told.{status_of_ending};

use crate::file::read_script;
use crate::status::Status;
use crate::stop::Stop;
use crate::write::{finish, miss, refuse};
use folder_meaning::ImageFile;
use gd_machine::{Ending, Machine, Program, ending_line};
use gd_syntax::{FaultKind, FirstScript, LoadFault, Place, ResPath, SolveError};
use host_io::Sink;
use std::alloc::Global;

fn status_of(ending: &Ending) -> Status
    requires { IsTrue (is_told ending.now) }
    ensures { result ≡ status_of_ending ending.now }
{
    match ending {
        Ending::Ended { .. } => Status::Done,
        Ending::StepsSpent { .. } => Status::StepsSpent,
        Ending::SinkFault | Ending::NoMemory => unreachable!(),
    }
}

/// Writes the outcome line of a run.
fn finish_run<S: Sink>(alloc: Global, out: &mut S, ending: &Ending) -> Result<Status, Stop>
    requires { IsTrue (is_told ending.now) }
    ensures { HasWritten (S.state out.old) (S.state out.new) (record { pieces = ending_text ending.now ∷ []; status = status_of_ending ending.now }) result }
{
    let line = ending_line(alloc, ending)?;
    finish(out, line.as_str(), status_of(ending))
}

/// Runs a script that was read, and writes its outcome line.
fn run_script<S: Sink>(
    alloc: Global,
    out: &mut S,
    path: ResPath,
    steps: u64,
    script: FirstScript,
) -> Result<Status, Stop>
    requires { 1 ≤ steps }
    ensures { HasWritten (S.state out.old) (S.state out.new) (outcome_of_run path steps (script_of script)) result }
{
    let machine = Machine::new(alloc, Program::first(script, path), steps)?;
    match machine.run(out) {
        Ending::SinkFault => Err(Stop::SinkFault),
        Ending::NoMemory => Err(Stop::NoMemory),
        ending => finish_run(alloc, out, &ending),
    }
}

/// Writes the report of a path whose text was refused so.
fn refuse_text<S: Sink>(
    alloc: Global,
    out: &mut S,
    path: &str,
    error: SolveError,
) -> Result<Status, Stop>
    ensures { HasRefused path.now error (S.state out.old) (S.state out.new) result }
{
    match error {
        SolveError::Fault(fault) => refuse(alloc, out, path, fault),
        SolveError::NoMemory => Err(Stop::NoMemory),
    }
}

/// Loads the text of a script and runs it.
fn run_text<S: Sink>(
    alloc: Global,
    out: &mut S,
    path: ResPath,
    steps: u64,
    text: &[u8],
) -> Result<Status, Stop>
    requires steps { 1 ≤ steps }
    requires short { length text.now ≤ max_file_bytes }
    ensures { HasWrittenSome (IsOutcomeOfText path steps text.now) (S.state out.old) (S.state out.new) result }
{
    match read_script(alloc, text) {
        Ok(script) => run_script(alloc, out, path, steps, script),
        Err(error) => refuse_text(alloc, out, path.as_str(), error),
    }
}

/// The file at a path.
fn find_file<'a>(image: &'a [ImageFile], path: &str) -> Option<&'a ImageFile>
    requires { All (λ file. size_of file.1 ≤ max_file_bytes) (image_of image.now) }
    ensures found { option_map (λ file. bytes_of file.now.content) result ≡ find path_order path.now (image_of image.now) }
    ensures short { IfSome result (λ file. size_of (bytes_of file.now.content) ≤ max_file_bytes) }
{
    for file in image {
        if path == file.path.as_str() {
            return Some(file);
        }
    }
    None
}

/// Loads a script of an image and runs it.
pub fn run_file<S: Sink>(
    alloc: Global,
    out: &mut S,
    path: ResPath,
    steps: u64,
    image: &[ImageFile],
) -> Result<Status, Stop>
    requires steps { 1 ≤ steps }
    requires short { All (λ file. size_of file.1 ≤ max_file_bytes) (image_of image.now) }
    ensures { HasWrittenSome (IsOutcomeOfFile path steps (find path_order path (image_of image.now))) (S.state out.old) (S.state out.new) result }
{
    let Some(file) = find_file(image, path.as_str()) else {
        return miss(alloc, out, path.as_str());
    };
    match &file.content {
        None => refuse(alloc, out, path.as_str(), UNREADABLE_FILE),
        Some(text) => run_text(alloc, out, path, steps, text),
    }
}

const UNREADABLE_FILE: LoadFault = LoadFault {
    kind: FaultKind::Unreadable,
    place: Place::WHOLE_FILE,
};
