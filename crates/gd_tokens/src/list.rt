// The list of tokens.
ghost use Rattle.std.specs.Prelude.{◌≡◌, ℕ, ◌++◌, ◌∷◌, ◌&&◌, [], Bool, if◌then◌else◌, length, replicate, OnOk};
ghost use Rattle.gd_syntax.specs.declared.fault.FaultKind.TheVariants.{BadIndent};
ghost use Rattle.gd_syntax.specs.declared.token.Mark.TheVariants.{Dedent};
ghost use Rattle.gd_syntax.specs.Layout.{Answer, Layout as LaidOut, closing, depth_kind, ends_in_colon, first_place, indent_fault, is_colon, laid_onto, line_tail, mark_at, marks_at, newline, precedes_depth, same_place};
ghost use Rattle.gd_syntax.specs.TokenReading.{IsEnded};
ghost use Rattle.gd_tokens.specs.LayoutParts.{layout_of, marks_of};
ghost use Rattle.gd_tokens.specs.LineParts.{ending_of, line_of};
ghost use Rattle.gd_tokens.specs.ListParts.{EndsLine, EndsList, IsLaid};

use crate::layout::{Blocks, Layout, LayoutError};
use crate::lines::{Ending, Line};
use gd_syntax::{FaultKind, Kind, LoadFault, Mark, Place, SolveError, Token};
use std::alloc::AllocError;

fn is_colon_mark(mark: Mark) -> bool
    ensures { result ≡ is_colon (Kind.Mark mark) }
{
    match mark {
        Mark::Colon => true,
        _ => false,
    }
}

fn is_colon(kind: &Kind) -> bool
    ensures { result ≡ is_colon kind.now }
{
    let Kind::Mark(mark) = kind else {
        return false;
    };
    is_colon_mark(*mark)
}

fn ends_in_colon(tokens: &[Token]) -> bool
    ensures { result ≡ ends_in_colon tokens.now }
{
    match tokens.last() {
        Some(token) => is_colon(&token.kind),
        None => false,
    }
}

/// Where what stands first on a line begins. None on a line with nothing.
fn first_place(line: &Line) -> Option<Place>
    ensures { result ≡ first_place line.now.tokens.items (ending_of line.now.ending) }
{
    if let [token, ..] = line.tokens.as_slice() {
        return Some(token.place);
    }
    match line.ending {
        Ending::Ends(_) | Ending::Stops(_) => None,
        Ending::Unclosed(place) => Some(place),
        Ending::Breaks(place, _) => Some(place),
    }
}

/// Whether a fault comes before `BadIndent` at one place.
fn precedes_depth(kind: FaultKind) -> bool
    ensures { result ≡ precedes_depth kind }
{
    match kind {
        FaultKind::BadBytes | FaultKind::BadToken => true,
        _ => false,
    }
}

fn is_same(a: Place, b: Place) -> bool
    ensures { result ≡ same_place a b }
{
    a.line == b.line && a.column == b.column
}

/// The kind of what comes at a place that begins with this fault and has a wrong depth.
fn worse_kind(place: Place, fault: LoadFault) -> FaultKind
    ensures { result ≡ (if precedes_depth fault.kind && same_place fault.place place then fault.kind else BadIndent) }
{
    if precedes_depth(fault.kind) && is_same(fault.place, place) {
        fault.kind
    } else {
        FaultKind::BadIndent
    }
}

/// The kind of the fault of a line of a wrong depth.
fn depth_kind(line: &Line) -> FaultKind
    ensures { result ≡ depth_kind line.now.tokens.items (ending_of line.now.ending) }
{
    if let [_, ..] = line.tokens.as_slice() {
        return FaultKind::BadIndent;
    }
    match line.ending {
        Ending::Breaks(place, fault) => worse_kind(place, fault),
        Ending::Ends(_) | Ending::Stops(_) | Ending::Unclosed(_) => FaultKind::BadIndent,
    }
}

/// What is wrong with a line whose blanks are wrong.
fn indent_fault(kind: FaultKind, line: &Line, first: Place) -> LoadFault
    ensures { result ≡ indent_fault kind (line_of line.now) first }
{
    match kind {
        FaultKind::MixedIndent => LoadFault {
            kind: FaultKind::MixedIndent,
            place: Place {
                line: line.start.line,
                column: 1,
            },
        },
        _ => LoadFault {
            kind: depth_kind(line),
            place: first,
        },
    }
}

fn push_mark(out: &mut Vec<Token>, mark: Mark, place: Place) -> Result<(), AllocError>
    ensures { OnOk result (out.new.items ≡ out.old.items ++ mark_at place mark ∷ []) }
{
    let kind = Kind::Mark(mark);
    out.push(Token { kind, place })?;
    Ok(())
}

fn push_dedents(out: &mut Vec<Token>, n: usize, place: Place) -> Result<(), AllocError>
    ensures { OnOk result (out.new.items ≡ out.old.items ++ replicate n (mark_at place Dedent)) }
{
    for _ in 0..n {
        push_mark(out, Mark::Dedent, place)?;
    }
    Ok(())
}

/// Adds the tokens that open or close blocks.
#[tactic(auto, using(crate::proofs::Lists::marks_same))]
fn push_blocks(out: &mut Vec<Token>, blocks: Blocks, place: Place) -> Result<(), AllocError>
    ensures { OnOk result (out.new.items ≡ out.old.items ++ marks_at place (marks_of blocks)) }
{
    match blocks {
        Blocks::Opened => push_mark(out, Mark::Indent, place),
        Blocks::Closed(n) => push_dedents(out, n, place),
    }
}

fn push_newline(out: &mut Vec<Token>, nothing: bool, place: Place) -> Result<(), AllocError>
    ensures { OnOk result (out.new.items ≡ out.old.items ++ newline nothing place) }
{
    if nothing {
        return Ok(());
    }
    push_mark(out, Mark::Newline, place)
}

/// Closes the open blocks at the end of the text.
fn push_end(out: &mut Vec<Token>, n: usize, place: Place) -> Result<(), AllocError>
    ensures items { OnOk result (out.new.items ≡ out.old.items ++ closing place n) }
    ensures ended { OnOk result (IsEnded out.new.items) }
{
    push_dedents(out, n, place)?;
    push_mark(out, Mark::End, place)
}

/// Ends a line, on which there may be nothing. Gives whether lines follow.
fn end_line(
    out: &mut Vec<Token>,
    nothing: bool,
    layout: &Layout,
    ending: Ending,
) -> Result<bool, SolveError>
    ensures laid { (more : Answer) → IsLaid out.old.items (line_tail nothing (layout_of layout.now) (ending_of ending) more) result out.new.items more }
    ensures follows { EndsLine ending result }
    ensures ended { EndsList result out.new.items }
{
    match ending {
        Ending::Ends(place) => {
            push_newline(out, nothing, place)?;
            Ok(true)
        }
        Ending::Stops(place) => {
            push_newline(out, nothing, place)?;
            push_end(out, layout.depths.len(), place)?;
            Ok(false)
        }
        Ending::Unclosed(place) => Err(SolveError::Fault(LoadFault {
            kind: FaultKind::Unclosed,
            place,
        })),
        Ending::Breaks(_, fault) => Err(SolveError::Fault(fault)),
    }
}

/// Adds a line. Gives whether lines follow.
pub fn add_line(out: &mut Vec<Token>, layout: &mut Layout, line: Line) -> Result<bool, SolveError>
    ensures laid { (behind : LaidOut → Answer) → IsLaid out.old.items (laid_onto (first_place line.tokens.items (ending_of line.ending)) (layout_of layout.old) (line_of line) behind) result out.new.items (behind (layout_of layout.new)) }
    ensures follows { EndsLine line.ending result }
    ensures ended { EndsList result out.new.items }
{
    let Some(first) = first_place(&line) else {
        return end_line(out, true, layout, line.ending);
    };
    let opens = ends_in_colon(line.tokens.as_slice());
    let shift = match layout.enter(line.indent.as_slice(), opens) {
        Ok(shift) => shift,
        Err(LayoutError::Fault(kind)) => {
            return Err(SolveError::Fault(indent_fault(kind, &line, first)));
        }
        Err(LayoutError::NoMemory) => return Err(SolveError::NoMemory),
    };
    push_blocks(out, shift, first)?;
    let mut tokens = line.tokens;
    out.append(&mut tokens)?;
    end_line(out, false, layout, line.ending)
}
