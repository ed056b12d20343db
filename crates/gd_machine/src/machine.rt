// Programs, and the machine that runs them.
ghost use Rattle.std.specs.Prelude.{◌≡◌, ◌+◌, ◌≤◌, [], ◌∷◌, ℕ, IfOk, length, map};
ghost use Rattle.host_io.specs.Pieces.{joined};
ghost use Rattle.gd_syntax.specs.FirstTree.{Script};
ghost use Rattle.gd_syntax.specs.FirstScript.{print_of, script_of};
ghost use Rattle.gd_syntax.specs.FirstRun.{print_text, run_of};
ghost use Rattle.gd_machine.specs.Line.{end_at};
ghost use Rattle.gd_machine.specs.Pieces.{printed_pieces, HasPut};
ghost use Rattle.gd_machine.specs.declared.machine.Stop.TheVariants.{SinkFault as stop_sink, NoMemory as stop_memory};

use crate::values::push_print;
use gd_syntax::{FirstPrint, FirstScript, ResPath};
use host_io::{Sink, WriteError};
use std::alloc::{AllocError, Global};

/// The first room for what a statement prints, in bytes.
const TEXT_ROOM: usize = 256;

/// A line of a file.
#[derive(Drop)]
pub struct CodePlace {
    pub path: ResPath,
    pub line: u32,
}

/// How a run ends.
#[derive(Drop)]
pub enum Ending {
    /// After its last statement, with the steps that it took and the objects that are left.
    Ended { steps: u64, left: u64 },
    /// At a line that finds no step, with the steps that were allowed.
    StepsSpent { at: CodePlace, steps: u64 },
    /// A write failed.
    SinkFault,
    NoMemory,
}

/// What a machine runs.
#[derive(Drop)]
pub struct Program {
    path: ResPath,
    script: FirstScript,
}

impl Program {
    ghost use Rattle.gd_machine.specs.Program.{path_in, script_in};

    /// The program of the script at a path.
    pub fn first(script: FirstScript, path: ResPath) -> Program
        ensures path { path_in result ≡ path }
        ensures script { script_in result ≡ script_of script }
    {
        Program { path, script }
    }
}

/// Runs a program within an allowance of steps.
#[derive(Drop)]
pub struct Machine {
    program: Program,
    steps: u64,
    /// What the statement under way prints.
    text: String,
    ghost allowed: { 1 ≤ steps },
}

/// Why a statement was not run to its end.
enum Stop {
    SinkFault,
    NoMemory,
}

impl From<AllocError> for Stop {
    ghost from_gives = { λ _ e. e ≡ stop_memory };

    fn from(_: AllocError) -> Self {
        Stop::NoMemory
    }
}

impl From<WriteError> for Stop {
    ghost from_gives = { λ _ e. e ≡ stop_sink };

    fn from(_: WriteError) -> Self {
        Stop::SinkFault
    }
}

/// Writes a piece of the text at once.
fn write_piece<S: Sink>(sink: &mut S, piece: &[u8]) -> Result<(), Stop>
    ensures { HasPut (S.state sink.old) (S.state sink.new) (piece.now ∷ []) result }
{
    sink.write_all(piece)?;
    Ok(())
}

/// Runs one statement: its text is one write.
fn run_print<S: Sink>(text: &mut String, sink: &mut S, print: &FirstPrint) -> Result<(), Stop>
    ensures { HasPut (S.state sink.old) (S.state sink.new) (print_text (print_of print.now) ∷ []) result }
{
    text.clear();
    push_print(text, print)?;
    write_piece(sink, text.as_bytes())
}

/// Runs statements until they end or their steps are spent, and says at which line they are.
fn run_prints<S: Sink>(
    text: &mut String,
    sink: &mut S,
    prints: &[FirstPrint],
    steps: u64,
) -> Result<Option<u32>, Stop>
    requires { 1 ≤ steps }
    ensures wrote { HasPut (S.state sink.old) (S.state sink.new) (printed_pieces (map print_of prints.now) steps) result }
    ensures end { IfOk result (λ line. (run_of (map print_of prints.now) steps).end ≡ end_at line (1 + length prints.now) steps) }
{
    let mut used = 1;
    for print in prints {
        if used == steps {
            return Ok(Some(print.line));
        }
        used += 1;
        run_print(text, sink, print)?;
    }
    Ok(None)
}

impl Machine {
    ghost use Rattle.gd_machine.specs.Program.{path_in, script_in, program_in, steps_in};
    ghost use Rattle.gd_machine.specs.Ending.{HasRun};

    /// A machine for a program that may take so many steps.
    pub fn new(alloc: Global, program: Program, steps: u64) -> Result<Machine, AllocError>
        requires { 1 ≤ steps }
        ensures program { IfOk result (λ machine. program_in machine ≡ program) }
        ensures steps { IfOk result (λ machine. steps_in machine ≡ steps) }
    {
        let text = String::with_capacity(alloc, TEXT_ROOM)?;
        Ok(Machine {
            program,
            steps,
            text,
        })
    }

    /// Runs the program to its end. Each `print` is one write.
    pub fn run<S: Sink>(self, sink: &mut S) -> Ending
        ensures { HasRun (path_in (program_in self)) (script_in (program_in self)) (steps_in self) (S.state sink.old) (S.state sink.new) result }
    {
        let Machine {
            program,
            steps,
            mut text,
        } = self;
        match run_prints(&mut text, sink, &program.script.prints, steps) {
            Ok(None) => Ending::Ended {
                steps: 1 + program.script.prints.len() as u64,
                left: 0,
            },
            Ok(Some(line)) => {
                let at = CodePlace {
                    path: program.path,
                    line,
                };
                Ending::StepsSpent { at, steps }
            }
            Err(Stop::SinkFault) => Ending::SinkFault,
            Err(Stop::NoMemory) => Ending::NoMemory,
        }
    }
}

/// The law that the pieces which are printed make the text of the run.
pub fn printed_pieces_are_the_text()
    ensures { (script : Script) (allowed : ℕ) → joined (printed_pieces script allowed) ≡ (run_of script allowed).text }
{}
