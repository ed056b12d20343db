// The lines of a case.

use case_files::{Stop, bytes_of};
use std::alloc::{AllocError, Global};

/// What a case runs.
#[derive(Clone, Copy)]
pub enum Runs {
    /// the words over the folder
    Once,
    /// the words over the folder with each front of its last file in place of that file
    EachFront,
}

/// The words of a run, its folder, and the calls and writes that fail, by number from 0.
#[derive(Drop)]
pub struct Case {
    pub runs: Runs,
    pub words: Vec<String>,
    pub files: Vec<(String, Vec<u8>)>,
    pub failing_calls: Vec<u64>,
    pub failing_writes: Vec<u64>,
}

fn words_in(alloc: Global, text: &str) -> Result<Vec<String>, AllocError> {
    let mut words = Vec::new(alloc);
    for word in text.split_whitespace() {
        words.push(String::from_str(alloc, word)?)?;
    }
    Ok(words)
}

fn numbers_in(alloc: Global, text: &str) -> Result<Vec<u64>, Stop> {
    let mut numbers = Vec::new(alloc);
    for word in text.split_whitespace() {
        numbers.push(word.parse::<u64>().ok().ok_or(Stop::BadCase)?)?;
    }
    Ok(numbers)
}

/// The case that a line begins, if it begins one: `run WORDS` or `each front WORDS`.
pub fn case_of(alloc: Global, line: &str) -> Result<Option<Case>, AllocError> {
    let (runs, words) = if let Some(words) = line.strip_prefix("run") {
        (Runs::Once, words)
    } else if let Some(words) = line.strip_prefix("each front") {
        (Runs::EachFront, words)
    } else {
        return Ok(None);
    };
    Ok(Some(Case {
        runs,
        words: words_in(alloc, words)?,
        files: Vec::new(alloc),
        failing_calls: Vec::new(alloc),
        failing_writes: Vec::new(alloc),
    }))
}

/// Adds so many scripts that are empty.
fn add_empty_scripts(alloc: Global, case: &mut Case, count: u64) -> Result<(), AllocError> {
    for number in 0..count {
        let path = format!(in alloc; "res://s{number}.gd")?;
        case.files.push((path, Vec::new(alloc)))?;
    }
    Ok(())
}

/// Adds a file: the rest of its path behind `res://`, a colon, and its text with escapes.
fn add_file(alloc: Global, case: &mut Case, line: &str) -> Result<(), Stop> {
    let (name, text) = line.split_once(':').ok_or(Stop::BadCase)?;
    let mut path = String::from_str(alloc, "res://")?;
    path.push_str(name)?;
    let text = text.strip_prefix(' ').unwrap_or(text);
    case.files.push((path, bytes_of(alloc, "", text, "")?))?;
    Ok(())
}

/// Adds what a line below a case's first one says.
pub fn add_line(alloc: Global, case: &mut Case, line: &str) -> Result<(), Stop> {
    if let Some(file) = line.strip_prefix("res://") {
        add_file(alloc, case, file)
    } else if let Some(numbers) = line.strip_prefix("calls that fail:") {
        case.failing_calls = numbers_in(alloc, numbers)?;
        Ok(())
    } else if let Some(numbers) = line.strip_prefix("writes that fail:") {
        case.failing_writes = numbers_in(alloc, numbers)?;
        Ok(())
    } else if let Some(count) = line.strip_prefix("empty scripts: ") {
        let count = count.parse::<u64>().ok().ok_or(Stop::BadCase)?;
        Ok(add_empty_scripts(alloc, case, count)?)
    } else {
        Err(Stop::BadCase)
    }
}
