// Texts that are written: a report, a message or an outcome line.
ghost use Rattle.std.specs.Prelude.{◌≡◌, ◌++◌, [], ◌∷◌, codes, IfOk, string_bytes};
ghost use Rattle.std.specs.Fmt.{decimal};
ghost use Rattle.gdrun.specs.Outcome.{file_refusal, refusal};
ghost use Rattle.gdrun.specs.Report.{missing, refused_line, fault_line};
ghost use Rattle.gdrun.specs.Run.{HasPut, HasWritten};

use crate::status::Status;
use crate::stop::Stop;
use gd_syntax::LoadFault;
use host_io::Sink;
use std::alloc::{AllocError, Global};
use std::fmt::Write;

/// Writes a piece of the text at once.
fn write_piece<S: Sink>(out: &mut S, piece: &str) -> Result<(), Stop>
    ensures { HasPut (S.state out.old) (S.state out.new) (piece.now ∷ []) result }
{
    out.write_all(piece.as_bytes())?;
    Ok(())
}

/// Writes the last piece, and answers the status.
pub fn finish<S: Sink>(out: &mut S, text: &str, status: Status) -> Result<Status, Stop>
    ensures { HasWritten (S.state out.old) (S.state out.new) (record { pieces = text.now ∷ []; status = status }) result }
{
    write_piece(out, text)?;
    Ok(status)
}

/// Writes two pieces, the last ones, and answers the status.
fn write_both<S: Sink>(out: &mut S, first: &str, last: &str, status: Status) -> Result<Status, Stop>
    ensures { HasWritten (S.state out.old) (S.state out.new) (record { pieces = first.now ∷ last.now ∷ []; status = status }) result }
{
    write_piece(out, first)?;
    finish(out, last, status)
}

fn push_number(text: &mut String, number: u32) -> Result<(), AllocError>
    ensures { IfOk result (λ _. string_bytes text.new ≡ string_bytes text.old ++ decimal number) }
{
    write!(text, "{number}")
}

fn fault_line(alloc: Global, path: &str, fault: LoadFault) -> Result<String, AllocError>
    ensures { IfOk result (λ line. string_bytes line ≡ fault_line path.now fault) }
{
    let mut line = String::from_str(alloc, path)?;
    line.push(':')?;
    push_number(&mut line, fault.place.line)?;
    line.push(':')?;
    push_number(&mut line, fault.place.column)?;
    line.push(' ')?;
    line.push_str(fault.kind.as_str())?;
    line.push('\n')?;
    Ok(line)
}

/// The line of a path whose load has one faulty file.
fn refused_line(alloc: Global, path: &str, file: &str) -> Result<String, AllocError>
    ensures { IfOk result (λ line. string_bytes line ≡ refused_line path.now (file.now ∷ [])) }
{
    let mut line = String::from_str(alloc, "refused ")?;
    line.push_str(path)?;
    line.push_str(": ")?;
    line.push_str(file)?;
    line.push('\n')?;
    Ok(line)
}

/// Writes the report of a path whose own file alone has a fault, each line at once.
pub fn refuse<S: Sink>(
    alloc: Global,
    out: &mut S,
    path: &str,
    fault: LoadFault,
) -> Result<Status, Stop>
    ensures { HasWritten (S.state out.old) (S.state out.new) (file_refusal path.now fault) result }
{
    let report = refused_line(alloc, path, path)?;
    let detail = fault_line(alloc, path, fault)?;
    write_both(out, report.as_str(), detail.as_str(), Status::Refused)
}

/// Writes that a path is not in the folder.
pub fn miss<S: Sink>(alloc: Global, out: &mut S, path: &str) -> Result<Status, Stop>
    ensures { HasWritten (S.state out.old) (S.state out.new) (refusal ((path.now, missing) ∷ [])) result }
{
    let text = format!(in alloc; "missing {path}\n")?;
    finish(out, text.as_str(), Status::Refused)
}
