// Whether a file is taken so far, by its tokens.
ghost use Rattle.std.specs.Prelude.{◌≡◌, ◌≢◌, ◌+◌, ◌<◌, ◌≤◌, true, length, Some, IfOk};
ghost use Rattle.std.specs.Str.{IsAscii};
ghost use Rattle.gd_syntax.specs.Reading.{Read, Answers, Look, Loop};
ghost use Rattle.gd_syntax.specs.TokenReading.{IsEnded, mark_at, fault_at as unbuilt_at};
ghost use Rattle.gdrun.specs.Taken as spec;
ghost use Rattle.gdrun.specs.Turns.{turned, IsOnward};

use gd_exprs::reader::{fault_at, kind_at, mark_at, sees, skip};
use gd_syntax::{FaultKind, Kind, Mark, SolveError, Token};

/// How many arguments a call has at most.
const MAX_ARGUMENTS: usize = 16;

/// How many operators an argument has at most.
const MAX_OPERATORS: usize = 64;

/// A turn of a repetition: the place where it goes on, or where it ends.
pub enum Next {
    On(usize),
    Last(usize),
}

/// No file that is taken has this token here.
fn unbuilt(tokens: &[Token], at: usize) -> SolveError
    requires { at < length tokens.now }
    ensures { result ≡ SolveError.Fault (unbuilt_at tokens.now FaultKind.Unbuilt at) }
{
    fault_at(tokens, at, FaultKind::Unbuilt)
}

/// This very token is due, which is not the file's end.
fn due(tokens: &[Token], at: usize, wanted: Mark) -> Result<usize, SolveError>
    requires within { at < length tokens.now }
    requires ended { IsEnded tokens.now }
    requires goes_on { wanted ≢ Mark.End }
    ensures reads { Answers (λ next. Read tt next) result (spec.Due tokens.now wanted at) }
    ensures within { IfOk result (λ next. next < length tokens.now) }
    ensures next { IfOk result (λ next. next ≡ at + 1) }
{
    if sees(tokens, at, wanted) {
        Ok(skip(tokens, at))
    } else {
        Err(unbuilt(tokens, at))
    }
}

/// This word is due.
fn word(tokens: &[Token], at: usize, text: &str) -> Result<usize, SolveError>
    requires within { at < length tokens.now }
    requires ended { IsEnded tokens.now }
    requires ascii { IsAscii text.now }
    ensures reads { Answers (λ next. Read tt next) result (spec.word tokens.now text.now at) }
    ensures within { IfOk result (λ next. next < length tokens.now) }
    ensures next { IfOk result (λ next. next ≡ at + 1) }
{
    match kind_at(tokens, at) {
        Kind::Name(name) => {
            if name.is_word(text) {
                Ok(skip(tokens, at))
            } else {
                Err(unbuilt(tokens, at))
            }
        }
        _ => Err(unbuilt(tokens, at)),
    }
}

/// A whole number is due.
fn number(tokens: &[Token], at: usize) -> Result<usize, SolveError>
    requires within { at < length tokens.now }
    requires ended { IsEnded tokens.now }
    ensures reads { Answers (λ next. Read tt next) result (spec.number tokens.now at) }
    ensures within { IfOk result (λ next. next < length tokens.now) }
    ensures next { IfOk result (λ next. next ≡ at + 1) }
{
    match kind_at(tokens, at) {
        Kind::Int(_) => Ok(skip(tokens, at)),
        _ => Err(unbuilt(tokens, at)),
    }
}

/// Whether an operator of a chain stands there.
fn sees_operator(tokens: &[Token], at: usize) -> bool
    requires { at < length tokens.now }
    ensures is { result ≡ spec.is_operator (mark_at tokens.now at) }
    ensures goes_on { result ≡ true → mark_at tokens.now at ≢ Some Mark.End }
{
    matches!(
        mark_at(tokens, at),
        Some(Mark::Plus | Mark::Minus | Mark::Star)
    )
}

/// A further operator and its number, where `count` operators stand before.
fn operator(tokens: &[Token], at: usize, count: usize) -> Result<Next, SolveError>
    requires within { at < length tokens.now }
    requires ended { IsEnded tokens.now }
    ensures reads { Answers (turned (count + 1) count) result (spec.operator tokens.now count at) }
    ensures onward { IfOk result (IsOnward tokens.now at) }
{
    if !sees_operator(tokens, at) {
        return Ok(Next::Last(at));
    }
    if count < MAX_OPERATORS {
        let next = number(tokens, skip(tokens, at))?;
        Ok(Next::On(next))
    } else {
        Err(unbuilt(tokens, at))
    }
}

/// The operators behind the first number of an argument.
fn operators(tokens: &[Token], start: usize) -> Result<usize, SolveError>
    requires within { start < length tokens.now }
    requires ended { IsEnded tokens.now }
    ensures reads { Answers (λ next. Read tt next) result (spec.operators tokens.now start) }
    ensures within { IfOk result (λ next. next < length tokens.now) }
    ensures after { IfOk result (λ next. start ≤ next) }
{
    let mut at = start;
    let mut count = 0;
    'operators: loop {
        let turn = operator(tokens, at, count)?;
        match turn {
            Next::On(next) => at = next,
            Next::Last(next) => return Ok(next),
        }
        count += 1;
    }
}

/// An argument.
fn argument(tokens: &[Token], at: usize) -> Result<usize, SolveError>
    requires within { at < length tokens.now }
    requires ended { IsEnded tokens.now }
    ensures reads { Answers (λ next. Read tt next) result (spec.argument tokens.now at) }
    ensures within { IfOk result (λ next. next < length tokens.now) }
    ensures after { IfOk result (λ next. at < next) }
{
    match kind_at(tokens, at) {
        Kind::Text(_) => Ok(skip(tokens, at)),
        Kind::Int(_) => operators(tokens, skip(tokens, at)),
        _ => Err(unbuilt(tokens, at)),
    }
}

/// Behind a comma: a further argument, where `count` stand before, or the bracket.
fn parted_argument(tokens: &[Token], at: usize, count: usize) -> Result<Next, SolveError>
    requires within { at < length tokens.now }
    requires ended { IsEnded tokens.now }
    ensures reads { Answers (turned (count + 1) count) result (Look (mark_at tokens.now) (spec.parted_argument_by tokens.now count) at) }
    ensures onward { IfOk result (IsOnward tokens.now at) }
{
    if sees(tokens, at, Mark::RParen) {
        return Ok(Next::Last(at));
    }
    if count < MAX_ARGUMENTS {
        let next = argument(tokens, at)?;
        Ok(Next::On(next))
    } else {
        Err(unbuilt(tokens, at))
    }
}

/// Behind an argument: a comma, and what may follow it.
fn further_argument(tokens: &[Token], at: usize, count: usize) -> Result<Next, SolveError>
    requires within { at < length tokens.now }
    requires ended { IsEnded tokens.now }
    ensures reads { Answers (turned (count + 1) count) result (spec.further_argument tokens.now count at) }
    ensures onward { IfOk result (IsOnward tokens.now at) }
{
    if sees(tokens, at, Mark::Comma) {
        parted_argument(tokens, skip(tokens, at), count)
    } else {
        Ok(Next::Last(at))
    }
}

/// The arguments behind the first.
fn further_arguments(tokens: &[Token], start: usize) -> Result<usize, SolveError>
    requires within { start < length tokens.now }
    requires ended { IsEnded tokens.now }
    ensures reads { Answers (λ next. Read tt next) result (spec.further_arguments tokens.now start) }
    ensures within { IfOk result (λ next. next < length tokens.now) }
    ensures after { IfOk result (λ next. start ≤ next) }
{
    let mut at = start;
    let mut count = 1;
    'arguments: loop {
        let turn = further_argument(tokens, at, count)?;
        match turn {
            Next::On(next) => at = next,
            Next::Last(next) => return Ok(next),
        }
        count += 1;
    }
}

/// A call of `print`.
fn call(tokens: &[Token], at: usize) -> Result<usize, SolveError>
    requires within { at < length tokens.now }
    requires ended { IsEnded tokens.now }
    ensures reads { Answers (λ next. Read tt next) result (spec.call tokens.now at) }
    ensures within { IfOk result (λ next. next < length tokens.now) }
    ensures after { IfOk result (λ next. at < next) }
{
    let open = word(tokens, at, "print")?;
    let first = due(tokens, open, Mark::LParen)?;
    let more = argument(tokens, first)?;
    let close = further_arguments(tokens, more)?;
    due(tokens, close, Mark::RParen)
}

/// Behind `;`: a further call, or the line's end.
fn parted_call(tokens: &[Token], at: usize) -> Result<Next, SolveError>
    requires within { at < length tokens.now }
    requires ended { IsEnded tokens.now }
    ensures reads { Answers (turned tt tt) result (Look (mark_at tokens.now) (spec.parted_call_by tokens.now) at) }
    ensures onward { IfOk result (IsOnward tokens.now at) }
{
    if sees(tokens, at, Mark::Newline) {
        return Ok(Next::Last(at));
    }
    let next = call(tokens, at)?;
    Ok(Next::On(next))
}

/// Behind a call: `;`, and what may follow it.
fn further_call(tokens: &[Token], at: usize) -> Result<Next, SolveError>
    requires within { at < length tokens.now }
    requires ended { IsEnded tokens.now }
    ensures reads { Answers (turned tt tt) result (spec.further_call tokens.now tt at) }
    ensures onward { IfOk result (IsOnward tokens.now at) }
{
    if sees(tokens, at, Mark::Semicolon) {
        parted_call(tokens, skip(tokens, at))
    } else {
        Ok(Next::Last(at))
    }
}

/// The calls of a line behind the first.
fn further_calls(tokens: &[Token], start: usize) -> Result<usize, SolveError>
    requires within { start < length tokens.now }
    requires ended { IsEnded tokens.now }
    ensures reads { Answers (λ next. Read tt next) result (Loop (spec.further_call tokens.now) tt start) }
    ensures within { IfOk result (λ next. next < length tokens.now) }
    ensures after { IfOk result (λ next. start ≤ next) }
{
    let mut at = start;
    'calls: loop {
        let turn = further_call(tokens, at)?;
        match turn {
            Next::On(next) => at = next,
            Next::Last(next) => return Ok(next),
        }
    }
}

/// The calls of a line, and its end.
fn line(tokens: &[Token], at: usize) -> Result<usize, SolveError>
    requires within { at < length tokens.now }
    requires ended { IsEnded tokens.now }
    ensures reads { Answers (λ next. Read tt next) result (spec.line tokens.now at) }
    ensures within { IfOk result (λ next. next < length tokens.now) }
    ensures after { IfOk result (λ next. at < next) }
{
    let next = call(tokens, at)?;
    let end = further_calls(tokens, next)?;
    due(tokens, end, Mark::Newline)
}

/// A further line of a block, or its end.
fn further_line(tokens: &[Token], at: usize) -> Result<Next, SolveError>
    requires within { at < length tokens.now }
    requires ended { IsEnded tokens.now }
    ensures reads { Answers (turned tt tt) result (spec.further_line tokens.now tt at) }
    ensures onward { IfOk result (IsOnward tokens.now at) }
{
    if sees(tokens, at, Mark::Dedent) {
        return Ok(Next::Last(at));
    }
    let next = line(tokens, at)?;
    Ok(Next::On(next))
}

/// The lines of a block.
fn lines(tokens: &[Token], start: usize) -> Result<usize, SolveError>
    requires within { start < length tokens.now }
    requires ended { IsEnded tokens.now }
    ensures reads { Answers (λ next. Read tt next) result (Loop (spec.further_line tokens.now) tt start) }
    ensures within { IfOk result (λ next. next < length tokens.now) }
{
    let mut at = start;
    'lines: loop {
        let turn = further_line(tokens, at)?;
        match turn {
            Next::On(next) => at = next,
            Next::Last(next) => return Ok(next),
        }
    }
}

/// The lines of the function.
fn body(tokens: &[Token], at: usize) -> Result<usize, SolveError>
    requires within { at < length tokens.now }
    requires ended { IsEnded tokens.now }
    ensures reads { Answers (λ next. Read tt next) result (Look (mark_at tokens.now) (spec.body_by tokens.now) at) }
    ensures within { IfOk result (λ next. next < length tokens.now) }
{
    if !sees(tokens, at, Mark::Newline) {
        return line(tokens, at);
    }
    let first = due(tokens, skip(tokens, at), Mark::Indent)?;
    let end = lines(tokens, first)?;
    due(tokens, end, Mark::Dedent)
}

/// The head of the function.
fn head(tokens: &[Token], at: usize) -> Result<usize, SolveError>
    requires within { at < length tokens.now }
    requires ended { IsEnded tokens.now }
    ensures reads { Answers (λ next. Read tt next) result (spec.head tokens.now at) }
    ensures within { IfOk result (λ next. next < length tokens.now) }
{
    let name = due(tokens, at, Mark::Func)?;
    let open = word(tokens, name, "_init")?;
    let close = due(tokens, open, Mark::LParen)?;
    let colon = due(tokens, close, Mark::RParen)?;
    due(tokens, colon, Mark::Colon)
}

/// Past the end of the file, which is due.
fn file_end(tokens: &[Token], at: usize) -> Result<usize, SolveError>
    requires { at < length tokens.now }
    ensures { Answers (λ next. Read tt next) result (spec.Due tokens.now Mark.End at) }
{
    if sees(tokens, at, Mark::End) {
        Ok(at + 1)
    } else {
        Err(unbuilt(tokens, at))
    }
}

/// The place past a file that is taken, or the fault at the first token that no such file has there.
pub fn file(tokens: &[Token]) -> Result<usize, SolveError>
    requires { IsEnded tokens.now }
    ensures { Answers (λ end. Read tt end) result (spec.file tokens.now 0) }
{
    let first = head(tokens, 0)?;
    let end = body(tokens, first)?;
    file_end(tokens, end)
}
