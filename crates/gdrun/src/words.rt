// The words of the command line.
ghost use Rattle.std.specs.Prelude.{◌≡◌, ◌≤◌, IsTrue, IfOk, IfSome, length};
ghost use Rattle.std.specs.List.{list_all};
ghost use Rattle.std.specs.Char.{is_ascii_digit};
ghost use Rattle.gdrun.specs.Words.{texts_of, command_of, command_of_parts, script_of_words, digits_value, number_of, within, steps_of_words};
ghost use Rattle.gdrun.specs.ScriptCommand.{command_view};

use crate::command::ScriptCommand;
use gd_syntax::{PathError, ResPath};
use res_paths::is_script_name;
use std::alloc::{AllocError, Global};

/// The steps of a run whose words name none.
pub const DEFAULT_STEPS: u64 = 10_000_000;

pub const MAX_STEPS: u64 = 1_000_000_000_000;

pub const MAX_WORKERS: u64 = 64;

/// The most digits of a number.
pub const MAX_DIGITS: usize = 13;

fn value_of(digits: &[u8]) -> u64
    requires few { length digits.now ≤ MAX_DIGITS }
    requires decimal { IsTrue (list_all is_ascii_digit digits.now) }
    ensures { result ≡ digits_value digits.now }
{
    let mut value = 0;
    for digit in digits {
        value = value * 10 + u64::from(*digit - b'0');
    }
    value
}

fn are_digits(text: &[u8]) -> bool
    ensures { result ≡ list_all is_ascii_digit text.now }
{
    text.iter().all(|digit| digit.is_ascii_digit())
}

/// The value of 1 to 13 decimal digits.
fn number(text: &str) -> Option<u64>
    ensures { result ≡ number_of text.now }
{
    let digits = text.as_bytes();
    if digits.is_empty() || digits.len() > MAX_DIGITS || !are_digits(digits) {
        return None;
    }
    Some(value_of(digits))
}

/// A number from 1 to a limit.
fn number_within(limit: u64, text: &str) -> Option<u64>
    ensures number { result ≡ within limit (number_of text.now) }
    ensures positive { IfSome result (λ n. 1 ≤ n) }
{
    number(text).filter(|n| 1 <= *n && *n <= limit)
}

/// The steps that the words after PATH allow.
fn steps_of(words: &[String]) -> Option<u64>
    ensures steps { result ≡ steps_of_words (texts_of words.now) }
    ensures positive { IfSome result (λ steps. 1 ≤ steps) }
{
    match words {
        [] => Some(DEFAULT_STEPS),
        [workers] => {
            number_within(MAX_WORKERS, workers.as_str())?;
            Some(DEFAULT_STEPS)
        }
        [workers, steps] => {
            number_within(MAX_WORKERS, workers.as_str())?;
            number_within(MAX_STEPS, steps.as_str())
        }
        _ => None,
    }
}

/// The command that loads and runs this script.
fn script_command(
    alloc: Global,
    path: &str,
    steps: u64,
) -> Result<Option<ScriptCommand>, AllocError>
    requires { 1 ≤ steps }
    ensures { IfOk result (λ command. command_view command ≡ script_of_words path.now (Some steps)) }
{
    if !is_script_name(path) {
        return Ok(None);
    }
    match ResPath::new(alloc, path) {
        Ok(path) => Ok(Some(ScriptCommand { path, steps })),
        Err(PathError::NotRes | PathError::BadSegment) => Ok(None),
        Err(PathError::NoMemory) => Err(AllocError),
    }
}

/// The command of the words but DIR.
fn command_of_parts(
    alloc: Global,
    verb: &str,
    path: &str,
    words: &[String],
) -> Result<Option<ScriptCommand>, AllocError>
    ensures { IfOk result (λ command. command_view command ≡ command_of_parts verb.now path.now (texts_of words.now)) }
{
    if verb != "script" {
        return Ok(None);
    }
    match steps_of(words) {
        None => Ok(None),
        Some(steps) => script_command(alloc, path, steps),
    }
}

/// What the words ask for, or nothing where they are no command.
pub fn read_command(alloc: Global, words: &[String]) -> Result<Option<ScriptCommand>, AllocError>
    ensures { IfOk result (λ command. command_view command ≡ command_of (texts_of words.now)) }
{
    match words {
        [verb, _, path, rest @ ..] => {
            command_of_parts(alloc, verb.as_str(), path.as_str(), rest)
        }
        _ => Ok(None),
    }
}
