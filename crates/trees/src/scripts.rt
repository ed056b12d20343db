// Whole files of scripts.
ghost use Rattle.std.specs.Prelude.{◌≤◌, length};

use crate::answers::{MAX_BYTES, error_text};
use crate::fronts::front_kinds;
use crate::members::put_head;
use crate::part::{Part, put};
use crate::show::text_of;
use case_files::Stop;
use gd_header::header_end;
use gd_parser::parse;
use gd_syntax::{Script, SolveError};
use gd_tokens::tokens;
use std::alloc::{AllocError, Global};

/// A line for each head and each member.
fn script_lines(alloc: Global, script: &Script) -> Result<Vec<String>, AllocError> {
    let mut lines = Vec::new(alloc);
    for head in script.heads.as_slice() {
        let mut parts = Vec::new(alloc);
        put_head(&mut parts, head)?;
        lines.push(text_of(alloc, &mut parts, false)?)?;
    }
    for member in script.members.as_slice() {
        let mut parts = Vec::new(alloc);
        put(&mut parts, &[Part::Member(member)])?;
        lines.push(text_of(alloc, &mut parts, false)?)?;
    }
    Ok(lines)
}

fn fault_lines(alloc: Global, error: SolveError) -> Result<Vec<String>, Stop> {
    Ok(vec![in alloc; error_text(alloc, error)?]?)
}

fn read_lines(alloc: Global, text: &[u8]) -> Result<Vec<String>, Stop>
    requires { length text.now ≤ 1048576 }
{
    let list = match tokens(alloc, text) {
        Ok(list) => list,
        Err(error) => return fault_lines(alloc, error),
    };
    match parse(alloc, list.as_slice(), header_end(text)) {
        Ok(script) => Ok(script_lines(alloc, &script)?),
        Err(error) => fault_lines(alloc, error),
    }
}

/// A line for each head and each member of a file, and one for what its fronts are read as.
pub fn file_lines(alloc: Global, text: &[u8]) -> Result<Vec<String>, Stop> {
    if text.len() > MAX_BYTES {
        return Err(Stop::BadCase);
    }
    let mut lines = read_lines(alloc, text)?;
    let fronts = front_kinds(alloc, text)?;
    lines.push(format!(in alloc; "fronts: {}", fronts.as_str())?)?;
    Ok(lines)
}
