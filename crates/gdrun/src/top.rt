// The top call: what the words ask for, over a folder and a sink that are handed in.
ghost use Rattle.std.specs.Prelude.{◌≡◌, ◌≢◌, ◌⊎◌, Err, false, IsTrue, Some, List, ℕ};
ghost use Rattle.host_io.specs.Causes.{Calls, RoseBy};
ghost use Rattle.host_io.specs.Folder.{Files};
ghost use Rattle.host_io.specs.MemoryFolder.{files_in, calls_of};
ghost use Rattle.host_io.specs.MemorySink.{state_of, writes_of};
ghost use Rattle.host_io.specs.Pieces.{WroteAll, WroteFirst, IsWrittenOut};
ghost use Rattle.folder_meaning.specs.Reading.{folder_fault, folder_limit};
ghost use Rattle.project_run.specs.Found.{Found, HasMadeCalls, MadeCalls, found_of, unfailed_found};
ghost use Rattle.gdrun.specs.Words.{texts_of, command_of, no_command, reads_folder, wanted_by};
ghost use Rattle.gdrun.specs.Outcome.{Outcome, IsOutcome};
ghost use Rattle.gdrun.specs.Run.{IsScriptRun, HasWritten, HasRun, IsRun, HasFolderCause, NoCallFailed, NoWriteFailed, status_by_writes};

use crate::command::ScriptCommand;
use crate::run::run_file;
use crate::status::Status;
use crate::stop::Stop;
use crate::words::read_command;
use crate::write::{finish, refuse};
use gd_syntax::{FaultKind, LoadFault, Place};
use host_io::{Folder, MemoryFolder, MemorySink, Sink};
use project_run::{ScriptImageError, read_script_image};
use std::alloc::Global;

/// The fault of a file that is not taken as a whole.
const UNBUILT_FILE: LoadFault = LoadFault {
    kind: FaultKind::Unbuilt,
    place: Place::WHOLE_FILE,
};

/// Loads a script of a folder and runs it.
fn perform_script<F: Folder, S: Sink>(
    alloc: Global,
    command: ScriptCommand,
    folder: &mut F,
    out: &mut S,
) -> Result<Status, Stop>
    ensures run { IsScriptRun command.path command.steps (F.files folder.old) (F.calls folder.old) (F.faults folder.old) (F.faults folder.new) (S.state out.old) (S.state out.new) result }
    ensures files { F.files folder.new ≡ F.files folder.old }
    ensures calls { MadeCalls (F.calls folder.old) (F.calls folder.new) }
    ensures made { (result ≢ Err Stop.NoMemory) → HasMadeCalls (Some command.path) (F.files folder.old) (F.calls folder.old) (F.calls folder.new) }
{
    let ScriptCommand { path, steps } = command;
    match read_script_image(alloc, folder, path.as_str()) {
        Ok(image) => run_file(alloc, out, path, steps, &image),
        Err(ScriptImageError::FolderFault) => finish(out, "folder fault\n", Status::FolderFault),
        Err(ScriptImageError::FolderLimit) => finish(out, "folder limit\n", Status::FolderLimit),
        Err(ScriptImageError::OtherFiles) => refuse(alloc, out, path.as_str(), UNBUILT_FILE),
        Err(ScriptImageError::NoMemory) => Err(Stop::NoMemory),
    }
}

/// Reads the words and the folder, and writes the outcome.
fn perform<F: Folder, S: Sink>(
    alloc: Global,
    words: &[String],
    folder: &mut F,
    out: &mut S,
) -> Result<Status, Stop>
    ensures run { IsRun (texts_of words.now) (F.files folder.old) (F.calls folder.old) (F.faults folder.old) (F.faults folder.new) (result ≢ Err Stop.NoMemory) (λ outcome. HasWritten (S.state out.old) (S.state out.new) outcome result) }
    ensures files { F.files folder.new ≡ F.files folder.old }
    ensures calls { MadeCalls (F.calls folder.old) (F.calls folder.new) }
    ensures made { (result ≢ Err Stop.NoMemory) → IsTrue (reads_folder (command_of (texts_of words.now))) → HasMadeCalls (wanted_by (command_of (texts_of words.now))) (F.files folder.old) (F.calls folder.old) (F.calls folder.new) }
    ensures unread { reads_folder (command_of (texts_of words.now)) ≡ false → folder.new ≡ folder.old }
{
    match read_command(alloc, words)? {
        None => finish(out, "gdrun: bad command\n", Status::Usage),
        Some(command) => perform_script(alloc, command, folder, out),
    }
}

/// Does what the words ask for, on one thread, and always returns.
///
/// Each line of a report, each `print` and the outcome line is one write. A folder is read once: its list, and then
/// each file in ascending byte order of paths.
pub fn gd_main_alone<F: Folder, S: Sink>(
    alloc: Global,
    words: &[String],
    folder: &mut F,
    out: &mut S,
) -> Status
    // The pieces of the text, each by one write, and the status are those that the words and what is found mean.
    ensures headline { IsRun (texts_of words.now) (F.files folder.old) (F.calls folder.old) (F.faults folder.old) (F.faults folder.new) (result ≢ Status.NoMemory) (λ outcome. HasRun (S.state out.old) (S.state out.new) outcome result) }

    // Where the folder tells its files and its calls by number, they are those of the one thing that it lets find.
    ensures told { (files : Files) (calls : Calls) → F.files folder.old ≡ Some files → F.calls folder.old ≡ Some calls
        → (outcome : Outcome) → IsOutcome (texts_of words.now) (found_of (wanted_by (command_of (texts_of words.now))) files calls) outcome
        → HasRun (S.state out.old) (S.state out.new) outcome result }

    // Where the folder tells its files and no call and no write failed, they are those of the files, or memory ran out.
    ensures complete { (files : Files) → F.files folder.old ≡ Some files
        → NoCallFailed (F.faults folder.old) (F.faults folder.new) → NoWriteFailed (S.state out.old) (S.state out.new)
        → (outcome : Outcome) → IsOutcome (texts_of words.now) (unfailed_found (wanted_by (command_of (texts_of words.now))) files) outcome
        → ((result ≡ outcome.status) × WroteAll (S.state out.old) (S.state out.new) outcome.pieces) ⊎ (result ≡ Status.NoMemory) }

    // The causes.
    ensures usage { result ≡ Status.Usage → command_of (texts_of words.now) ≡ no_command }
    ensures folder_fault { result ≡ Status.FolderFault → HasFolderCause folder_fault (texts_of words.now) (F.files folder.old) (F.calls folder.old) × RoseBy 1 (F.faults folder.old).deciding (F.faults folder.new).deciding }
    ensures folder_limit { result ≡ Status.FolderLimit → HasFolderCause folder_limit (texts_of words.now) (F.files folder.old) (F.calls folder.old) }
    ensures sink_fault { result ≡ Status.SinkFault → RoseBy 1 (S.state out.old).faults (S.state out.new).faults }
    ensures sink_kept { (result ≢ Status.SinkFault) → (S.state out.new).faults ≡ (S.state out.old).faults }

    // No call changes the files. Some number of calls was made; which one it is, is told where the files are.
    ensures files { F.files folder.new ≡ F.files folder.old }
    ensures calls { MadeCalls (F.calls folder.old) (F.calls folder.new) }
    ensures made { (result ≢ Status.NoMemory) → IsTrue (reads_folder (command_of (texts_of words.now))) → HasMadeCalls (wanted_by (command_of (texts_of words.now))) (F.files folder.old) (F.calls folder.old) (F.calls folder.new) }

    // Words that are no command are refused before anything is read.
    ensures unread { reads_folder (command_of (texts_of words.now)) ≡ false → folder.new ≡ folder.old }
{
    match perform(alloc, words, folder, out) {
        Ok(status) => status,
        Err(Stop::NoMemory) => Status::NoMemory,
        Err(Stop::SinkFault) => Status::SinkFault,
    }
}

/// A run over a folder and a sink in memory: its status and what the sink holds are a function of what the two hold,
/// unless memory runs out.
pub fn run_in_memory(
    alloc: Global,
    words: &[String],
    folder: &mut MemoryFolder,
    out: &mut MemorySink,
) -> Status
    ensures told { (outcome : Outcome) → IsOutcome (texts_of words.now) (found_of (wanted_by (command_of (texts_of words.now))) (files_in folder.old) (calls_of folder.old)) outcome
        → (result ≢ Status.NoMemory)
        → (result ≡ status_by_writes outcome (writes_of out.old)) × IsWrittenOut (writes_of out.old) outcome.pieces (state_of out.old) (state_of out.new) }
    ensures memory { (outcome : Outcome) → IsOutcome (texts_of words.now) (found_of (wanted_by (command_of (texts_of words.now))) (files_in folder.old) (calls_of folder.old)) outcome
        → result ≡ Status.NoMemory → WroteFirst (state_of out.old) (state_of out.new) outcome.pieces }
    ensures files { files_in folder.new ≡ files_in folder.old }
    ensures calls { MadeCalls (Some (calls_of folder.old)) (Some (calls_of folder.new)) }
    ensures made { (result ≢ Status.NoMemory) → IsTrue (reads_folder (command_of (texts_of words.now))) → HasMadeCalls (wanted_by (command_of (texts_of words.now))) (Some (files_in folder.old)) (Some (calls_of folder.old)) (Some (calls_of folder.new)) }
    ensures unread { reads_folder (command_of (texts_of words.now)) ≡ false → folder.new ≡ folder.old }
{
    gd_main_alone(alloc, words, folder, out)
}

/// The law that words and what is found in the folder mean exactly one text and status.
pub fn outcomes_are_determined()
    ensures some { (words : List (List ℕ)) (found : Found) → (outcome : Outcome) × IsOutcome words found outcome }
    ensures one { (words : List (List ℕ)) (found : Found) (a b : Outcome) → IsOutcome words found a → IsOutcome words found b → a ≡ b }
{}
