// The fronts of a text.
ghost use Rattle.std.specs.Prelude.{◌≤◌, length};

use case_files::Stop;
use gd_header::header_end;
use gd_parser::parse;
use gd_syntax::SolveError;
use gd_tokens::tokens;
use std::alloc::Global;

/// Why a file is refused, or `read`.
fn kind_of(alloc: Global, text: &[u8]) -> Result<&'static str, Stop>
    requires { length text.now ≤ 1048576 }
{
    let list = tokens(alloc, text);
    let script = match &list {
        Ok(list) => parse(alloc, list.as_slice(), header_end(text)),
        Err(error) => Err(*error),
    };
    match script {
        Ok(_) => Ok("read"),
        Err(SolveError::Fault(fault)) => Ok(fault.kind.as_str()),
        Err(SolveError::NoMemory) => Err(Stop::NoMemory),
    }
}

/// Puts a word at the end where it does not stand yet.
fn put_new(words: &mut Vec<&'static str>, word: &'static str) -> Result<(), Stop> {
    if !words.contains(&word) {
        words.push(word)?;
    }
    Ok(())
}

/// What the fronts of a text are read as, each kind once, in the order of its shortest front.
pub fn front_kinds(alloc: Global, text: &[u8]) -> Result<String, Stop>
    requires { length text.now ≤ 1048576 }
{
    let mut kinds = Vec::new(alloc);
    for end in 0..text.len() {
        put_new(&mut kinds, kind_of(alloc, &text[..end])?)?;
    }
    put_new(&mut kinds, kind_of(alloc, text)?)?;
    Ok(kinds.join(alloc, " ")?)
}
