// The tokens of a file.
ghost use Rattle.std.specs.Prelude.{◌≡◌, ℕ, List, ◌≤◌, ◌^◌, ◌==◌, ◌∷◌, [], None, Some, if◌then◌else◌, length, map, take, drop, IfOk};
ghost use Rattle.std.specs.Str.{chars};
ghost use Rattle.std.specs.Str.Lossy.{utf8_valid_len};
ghost use Rattle.gd_syntax.specs.Spellings.{begins};
ghost use Rattle.gd_syntax.specs.TokenReading.{IsEnded};
ghost use Rattle.gd_syntax.specs.declared.fault.FaultKind.TheVariants.{BadBytes};
ghost use Rattle.gd_syntax.specs.Layout.{IsAnswer, at, before_byte, broken, is_comment, lines_of, past_all, pieces, text_start, tokens_before, tokens_in_bytes};
ghost use Rattle.gd_tokens.specs.LineParts.{GoesOn, ending_of, line_of, lines_behind};

use crate::layout::Layout;
use crate::lines::{Ending, Line, read_line};
use crate::list::add_line;
use crate::reader::Reader;
use gd_syntax::{FaultKind, LoadFault, Place, SolveError, Token};
use std::alloc::{AllocError, Global};
use std::str;

/// The longest front of the bytes that is UTF-8.
pub fn valid_front(bytes: &[u8]) -> &str
    ensures { result.now ≡ take (utf8_valid_len bytes.now) bytes.now }
{
    match str::from_utf8(bytes) {
        Ok(text) => text,
        Err(error) => match str::from_utf8(&bytes[..error.valid_up_to()]) {
            Ok(text) => text,
            Err(_) => unreachable!(),
        },
    }
}

/// The characters of a text.
fn characters(alloc: Global, text: &str) -> Result<Vec<char>, AllocError>
    ensures value { IfOk result (λ cs. cs.items ≡ chars text.now) }
    ensures bound { IfOk result (λ cs. length cs.items ≤ length text.now) }
{
    text.chars().collect(alloc)
}

/// The text without a byte order mark at its start.
fn without_mark(text: &[char]) -> &[char]
    ensures value { result.now ≡ (if begins (λ c. c == 65279) text.now then drop 1 text.now else text.now) }
    ensures bound { length result.now ≤ length text.now }
{
    match text {
        [c, rest @ ..] => { if *c == '\u{feff}' { rest } else { text } }
        [] => text,
    }
}

/// The first byte that is no UTF-8, where this text is not the whole of its file.
fn bad_byte(is_whole: bool, text: &[char]) -> Option<LoadFault>
    requires { length text.now ≤ 2 ^ 30 }
    ensures { result ≡ (if is_whole then None else Some (at BadBytes (past_all text_start text.now))) }
{
    if is_whole {
        return None;
    }
    let kind = FaultKind::BadBytes;
    let place = Reader::new(text).place_at(text.len());
    Some(LoadFault { kind, place })
}

/// Whether what stands behind the blanks of a line without tokens, up to this place, is a comment.
fn is_comment(line: &Line, place: Place) -> bool
    ensures { result ≡ is_comment line.now.tokens.items (line_of line.now) place }
{
    if let [_, ..] = line.tokens.as_slice() {
        return false;
    }
    let passed = place.column.saturating_sub(line.start.column);
    place.line == line.start.line && line.indent.len() < passed as usize
}

/// Ends a line at a bad byte, where the text ends on it. The blanks before a comment do not count.
fn break_line(line: &mut Line, fault: LoadFault)
    ensures line { line_of line.new ≡ broken fault (line_of line.old) (ending_of line.old.ending) }
    ensures behind { (place : Place) (text : List ℕ) → lines_behind line.new.ending place text ≡ lines_behind line.old.ending place text }
    ensures shorter { (text rest : List ℕ) → GoesOn line.old.ending text rest → GoesOn line.new.ending text rest }
{
    match line.ending {
        Ending::Stops(place) => {
            if is_comment(line, place) {
                line.indent.clear();
            }
            line.ending = Ending::Breaks(place, fault);
        }
        Ending::Unclosed(place) => line.ending = Ending::Breaks(place, fault),
        Ending::Ends(_) | Ending::Breaks(_, _) => {}
    }
}

/// Reads the line that begins the text, which ends at its file's end, or at a bad byte.
fn next_line(alloc: Global, reader: &mut Reader, bad: Option<LoadFault>) -> Result<Line, AllocError>
    ensures value { IfOk result (λ line. map (before_byte bad) (lines_of [] (pieces 0 reader.old.place reader.old.rest.now)) ≡ line_of line ∷ map (before_byte bad) (lines_behind line.ending reader.new.place reader.new.rest.now)) }
    ensures shorter { IfOk result (λ line. GoesOn line.ending reader.old.rest.now reader.new.rest.now) }
{
    let mut line = read_line(alloc, reader)?;
    match bad {
        Some(fault) => break_line(&mut line, fault),
        None => {}
    }
    Ok(line)
}

/// The tokens of a text that ends at its file's end, or at a bad byte.
fn list_tokens(
    alloc: Global,
    text: &[char],
    bad: Option<LoadFault>,
) -> Result<Vec<Token>, SolveError>
    requires { length text.now ≤ 2 ^ 30 }
    ensures answer { IsAnswer result (tokens_before bad text.now) }
    ensures ended { IfOk result (λ tokens. IsEnded tokens.items) }
{
    let mut reader = Reader::new(text);
    let mut layout = Layout::new(alloc);
    let mut out = Vec::new(alloc);
    loop {
        let line = next_line(alloc, &mut reader, bad)?;
        match add_line(&mut out, &mut layout, line) {
            Ok(true) => {}
            Ok(false) => return Ok(out),
            Err(error) => return Err(error),
        }
    }
}

/// The tokens of a file, or its first fault. The last token is the file's end.
///
/// A file is UTF-8. Its words, numbers and strings are those of the Godot manual's "GDScript reference", where an
/// identifier follows UAX 31 with `_` as a further start.
#[tactic(auto, unfolding(gd_syntax::specs::Layout::tokens_in_bytes, gd_syntax::specs::Layout::bad_byte))]
pub fn tokens(alloc: Global, text: &[u8]) -> Result<Vec<Token>, SolveError>
    requires { length text.now ≤ 1048576 }
    ensures answer { IsAnswer result (tokens_in_bytes text.now) }
    ensures ended { IfOk result (λ tokens. IsEnded tokens.items) }
{
    let valid = valid_front(text);
    let characters = characters(alloc, valid)?;
    let inside = without_mark(characters.as_slice());
    let bad = bad_byte(valid.len() == text.len(), inside);
    list_tokens(alloc, inside, bad)
}
