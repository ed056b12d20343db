// The outcome line of a run.
ghost use Rattle.std.specs.Prelude.{◌≡◌, ◌++◌, [], IfOk, IsTrue, string_bytes};
ghost use Rattle.std.specs.Fmt.{decimal};
ghost use Rattle.gd_syntax.specs.FirstRun.{ended, spent, end_line};
ghost use Rattle.gd_machine.specs.Ending.{is_told, ending_text};

use crate::machine::{CodePlace, Ending};
use std::alloc::{AllocError, Global};
use std::fmt::Write;

fn push_number(text: &mut String, number: u64) -> Result<(), AllocError>
    ensures { IfOk result (λ _. string_bytes text.new ≡ string_bytes text.old ++ decimal number) }
{
    write!(text, "{number}")
}

fn done_line(alloc: Global, steps: u64, left: u64) -> Result<String, AllocError>
    ensures { IfOk result (λ text. string_bytes text ≡ end_line [] (ended steps left)) }
{
    let mut text = String::from_str(alloc, "done steps ")?;
    push_number(&mut text, steps)?;
    text.push_str(" left ")?;
    push_number(&mut text, left)?;
    text.push('\n')?;
    Ok(text)
}

fn spent_line(alloc: Global, at: &CodePlace, steps: u64) -> Result<String, AllocError>
    ensures { IfOk result (λ text. string_bytes text ≡ end_line at.now.path (spent at.now.line steps)) }
{
    let mut text = String::from_str(alloc, "spent ")?;
    text.push_str(at.path.as_str())?;
    text.push(':')?;
    push_number(&mut text, u64::from(at.line))?;
    text.push_str(" steps ")?;
    push_number(&mut text, steps)?;
    text.push('\n')?;
    Ok(text)
}

/// The outcome line, with its newline.
pub fn ending_line(alloc: Global, ending: &Ending) -> Result<String, AllocError>
    requires { IsTrue (is_told ending.now) }
    ensures { IfOk result (λ text. string_bytes text ≡ ending_text ending.now) }
{
    match ending {
        Ending::Ended { steps, left } => done_line(alloc, *steps, *left),
        Ending::StepsSpent { at, steps } => spent_line(alloc, at, *steps),
        Ending::SinkFault | Ending::NoMemory => unreachable!(),
    }
}
