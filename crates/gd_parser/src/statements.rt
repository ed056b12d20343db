// Statements that open no block, and the lines of them.
ghost use Rattle.std.specs.Prelude.{◌≡◌, ◌≢◌, ◌+◌, ◌<◌, ◌≤◌, [], ◌∷◌, length, Some, IfOk};
ghost use Rattle.gd_syntax.specs.Reading.{Read, Answers, Look, Loop};
ghost use Rattle.gd_syntax.specs.TokenReading.{IsEnded, mark_at, place_at};
ghost use Rattle.gd_syntax.specs.StatementGrammar as grammar;
ghost use Rattle.gd_parser.specs.BlockForms as spec;

use crate::declarations::{Owner, annots, const_, expr, var};
use crate::lists::one;
use gd_exprs::reader::{due, mark_at, place_at, refuse, sees, skip};
use gd_syntax::{Annotation, AssignOp, Expr, Mark, Place, Simple, SolveError, Sought, Stmt, Token};
use std::alloc::Global;
use tree_lists::Items;

/// Whether a value may be assigned to the expression.
#[tactic(auto, using(gd_syntax::proofs::Targets::target_laws))]
fn is_target(tree: &Expr) -> bool
    ensures { result ≡ grammar.is_target tree.now }
{
    match tree {
        Expr::Name(..) | Expr::Member(..) | Expr::Index(..) => true,
        Expr::Literal(..)
        | Expr::This(..)
        | Expr::Paren(..)
        | Expr::Array(..)
        | Expr::Dict(..)
        | Expr::Table(..)
        | Expr::Preload(..)
        | Expr::Load(..)
        | Expr::NodePath(..)
        | Expr::NodeText(..)
        | Expr::Super(..)
        | Expr::SuperCall(..)
        | Expr::Call(..)
        | Expr::Is(..)
        | Expr::IsNot(..)
        | Expr::Prefix(..)
        | Expr::Binary { .. }
        | Expr::Not(..)
        | Expr::Ternary { .. }
        | Expr::As(..) => false,
    }
}

/// The operator of an assignment.
fn assign_op(mark: Option<Mark>) -> Option<AssignOp>
    ensures { result ≡ grammar.aop mark }
{
    match mark {
        Some(Mark::Assign) => Some(AssignOp::Set),
        Some(Mark::PlusAssign) => Some(AssignOp::Add),
        Some(Mark::MinusAssign) => Some(AssignOp::Sub),
        Some(Mark::StarAssign) => Some(AssignOp::Mul),
        Some(Mark::SlashAssign) => Some(AssignOp::Div),
        Some(Mark::PercentAssign) => Some(AssignOp::Rem),
        Some(Mark::AmpAssign) => Some(AssignOp::BitAnd),
        Some(Mark::BarAssign) => Some(AssignOp::BitOr),
        Some(Mark::CaretAssign) => Some(AssignOp::BitXor),
        Some(Mark::ShiftLeftAssign) => Some(AssignOp::Shl),
        Some(Mark::ShiftRightAssign) => Some(AssignOp::Shr),
        _ => None,
    }
}

/// The operator that goes on an assignment to the expression.
fn assign_op_after(tree: &Expr, mark: Option<Mark>) -> Option<AssignOp>
    ensures { result ≡ grammar.aop_after tree.now mark }
{
    if is_target(tree) {
        assign_op(mark)
    } else {
        None
    }
}

/// What follows `return`.
fn returned(
    alloc: Global,
    tokens: &[Token],
    at: usize,
    place: Place,
) -> Result<(Simple, usize), SolveError>
    requires within { at < length tokens.now }
    requires ended { IsEnded tokens.now }
    ensures reads { Answers (λ found. Read found.0 found.1) result (Look (mark_at tokens.now) (grammar.return_by tokens.now place) at) }
    ensures within { IfOk result (λ found. found.1 < length tokens.now) }
    ensures after { IfOk result (λ found. at ≤ found.1) }
{
    if sees(tokens, at, Mark::Newline) {
        return Ok((Simple::Return(place, None), at));
    }
    if sees(tokens, at, Mark::Semicolon) {
        return Ok((Simple::Return(place, None), at));
    }
    let (value, next) = expr(alloc, tokens, at)?;
    Ok((Simple::Return(place, Some(value)), next))
}

/// The message of an `assert`, which may be missing.
fn message(alloc: Global, tokens: &[Token], at: usize) -> Result<(Option<Expr>, usize), SolveError>
    requires within { at < length tokens.now }
    requires ended { IsEnded tokens.now }
    ensures reads { Answers (λ found. Read found.0 found.1) result (Look (mark_at tokens.now) (grammar.message_by tokens.now) at) }
    ensures within { IfOk result (λ found. found.1 < length tokens.now) }
    ensures after { IfOk result (λ found. at ≤ found.1) }
{
    if !sees(tokens, at, Mark::Comma) {
        return Ok((None, at));
    }
    let (text, next) = expr(alloc, tokens, skip(tokens, at))?;
    Ok((Some(text), next))
}

fn assertion(
    alloc: Global,
    tokens: &[Token],
    at: usize,
    place: Place,
) -> Result<(Simple, usize), SolveError>
    requires within { at < length tokens.now }
    requires ended { IsEnded tokens.now }
    requires begins { mark_at tokens.now at ≡ Some Mark.Assert }
    ensures reads { Answers (λ found. Read found.0 found.1) result (grammar.assertion tokens.now place at) }
    ensures within { IfOk result (λ found. found.1 < length tokens.now) }
    ensures after { IfOk result (λ found. at < found.1) }
{
    let start = due(tokens, skip(tokens, at), Sought::Other, Mark::LParen)?;
    let (condition, middle) = expr(alloc, tokens, start)?;
    let (text, end) = message(alloc, tokens, middle)?;
    let next = due(tokens, end, Sought::Other, Mark::RParen)?;
    Ok((Simple::Assert(place, condition, text), next))
}

/// The value of an assignment, behind its operator.
fn assigned(
    alloc: Global,
    tokens: &[Token],
    at: usize,
    place: Place,
    target: Expr,
    op: AssignOp,
) -> Result<(Simple, usize), SolveError>
    requires within { at < length tokens.now }
    requires ended { IsEnded tokens.now }
    requires goes_on { mark_at tokens.now at ≢ Some Mark.End }
    ensures reads { Answers (λ found. Read found.0 found.1) result (grammar.assign_by tokens.now place target (Some op) at) }
    ensures within { IfOk result (λ found. found.1 < length tokens.now) }
    ensures after { IfOk result (λ found. at < found.1) }
{
    let (value, next) = expr(alloc, tokens, skip(tokens, at))?;
    let statement = Simple::Assign {
        place,
        target,
        op,
        value,
    };
    Ok((statement, next))
}

/// An expression, or an assignment to it.
fn assignment(
    alloc: Global,
    tokens: &[Token],
    at: usize,
    place: Place,
) -> Result<(Simple, usize), SolveError>
    requires within { at < length tokens.now }
    requires ended { IsEnded tokens.now }
    ensures reads { Answers (λ found. Read found.0 found.1) result (grammar.assignment tokens.now place at) }
    ensures within { IfOk result (λ found. found.1 < length tokens.now) }
    ensures after { IfOk result (λ found. at < found.1) }
{
    let (target, next) = expr(alloc, tokens, at)?;
    match assign_op_after(&target, mark_at(tokens, next)) {
        Some(op) => assigned(alloc, tokens, next, place, target, op),
        None => Ok((Simple::Expr(place, target), next)),
    }
}

fn local_var(
    alloc: Global,
    tokens: &[Token],
    at: usize,
    place: Place,
    before: Items<Annotation>,
) -> Result<(Simple, usize), SolveError>
    requires within { at < length tokens.now }
    requires ended { IsEnded tokens.now }
    requires begins { mark_at tokens.now at ≡ Some Mark.Var }
    ensures reads { Answers (λ found. Read found.0 found.1) result (grammar.local_var tokens.now place before at) }
    ensures within { IfOk result (λ found. found.1 < length tokens.now) }
    ensures after { IfOk result (λ found. at < found.1) }
{
    let (tree, next) = var(alloc, tokens, at, place, before)?;
    Ok((Simple::Var(tree), next))
}

fn local_const(
    alloc: Global,
    tokens: &[Token],
    at: usize,
    place: Place,
) -> Result<(Simple, usize), SolveError>
    requires within { at < length tokens.now }
    requires ended { IsEnded tokens.now }
    requires begins { mark_at tokens.now at ≡ Some Mark.Const }
    ensures reads { Answers (λ found. Read found.0 found.1) result (spec.local_const tokens.now place at) }
    ensures within { IfOk result (λ found. found.1 < length tokens.now) }
    ensures after { IfOk result (λ found. at < found.1) }
{
    let (tree, next) = const_(alloc, tokens, at, place)?;
    Ok((Simple::Const(tree), next))
}

/// Annotations, behind which a variable is due.
fn annotated(
    alloc: Global,
    tokens: &[Token],
    at: usize,
    place: Place,
) -> Result<(Simple, usize), SolveError>
    requires within { at < length tokens.now }
    requires ended { IsEnded tokens.now }
    ensures reads { Answers (λ found. Read found.0 found.1) result (spec.annotated tokens.now place at) }
    ensures within { IfOk result (λ found. found.1 < length tokens.now) }
    ensures after { IfOk result (λ found. at < found.1) }
{
    let (before, next) = annots(alloc, tokens, at, Owner::Statement)?;
    if !sees(tokens, next, Mark::Var) {
        return Err(refuse(tokens, next, Sought::Other));
    }
    local_var(alloc, tokens, next, place, before)
}

/// A statement that begins with a keyword or a sign.
fn marked(
    alloc: Global,
    tokens: &[Token],
    at: usize,
    mark: Mark,
) -> Result<(Simple, usize), SolveError>
    requires within { at < length tokens.now }
    requires ended { IsEnded tokens.now }
    requires begins { mark_at tokens.now at ≡ Some mark }
    ensures reads { Answers (λ found. Read found.0 found.1) result (grammar.simple tokens.now at) }
    ensures within { IfOk result (λ found. found.1 < length tokens.now) }
    ensures after { IfOk result (λ found. at < found.1) }
{
    let place = place_at(tokens, at);
    match mark {
        Mark::Pass => Ok((Simple::Pass(place), skip(tokens, at))),
        Mark::Break => Ok((Simple::Break(place), skip(tokens, at))),
        Mark::Continue => Ok((Simple::Continue(place), skip(tokens, at))),
        Mark::Return => returned(alloc, tokens, skip(tokens, at), place),
        Mark::Var => local_var(alloc, tokens, at, place, Items::new(alloc)),
        Mark::At => annotated(alloc, tokens, at, place),
        Mark::Const => local_const(alloc, tokens, at, place),
        Mark::Assert => assertion(alloc, tokens, at, place),
        _ => assignment(alloc, tokens, at, place),
    }
}

/// A statement that opens no block.
fn simple(alloc: Global, tokens: &[Token], at: usize) -> Result<(Simple, usize), SolveError>
    requires within { at < length tokens.now }
    requires ended { IsEnded tokens.now }
    ensures reads { Answers (λ found. Read found.0 found.1) result (grammar.simple tokens.now at) }
    ensures within { IfOk result (λ found. found.1 < length tokens.now) }
    ensures after { IfOk result (λ found. at < found.1) }
{
    match mark_at(tokens, at) {
        Some(mark) => marked(alloc, tokens, at, mark),
        None => assignment(alloc, tokens, at, place_at(tokens, at)),
    }
}

/// The further statements of a line, up to its end or the `;` before it.
fn further(
    alloc: Global,
    tokens: &[Token],
    start: usize,
    first: Items<Simple>,
) -> Result<(Items<Simple>, usize), SolveError>
    requires within { start < length tokens.now }
    requires ended { IsEnded tokens.now }
    ensures reads { Answers (λ found. Read found.0 found.1) result (Loop (spec.line_turn tokens.now) first start) }
    ensures within { IfOk result (λ found. found.1 < length tokens.now) }
    ensures after { IfOk result (λ found. start ≤ found.1) }
{
    let mut all = first;
    let mut at = start;
    'statements: while sees(tokens, at, Mark::Semicolon) {
        at = skip(tokens, at);
        if sees(tokens, at, Mark::Newline) {
            return Ok((all, at));
        }
        let (tree, next) = simple(alloc, tokens, at)?;
        all.push(tree)?;
        at = next;
    }
    Ok((all, at))
}

/// The simple statements of a line up to its end, which may follow the last `;`.
pub fn line(alloc: Global, tokens: &[Token], start: usize) -> Result<(Stmt, usize), SolveError>
    requires within { start < length tokens.now }
    requires ended { IsEnded tokens.now }
    ensures reads { Answers (λ found. Read found.0 found.1) result (grammar.line tokens.now start) }
    ensures within { IfOk result (λ found. found.1 < length tokens.now) }
    ensures after { IfOk result (λ found. start < found.1) }
{
    let place = place_at(tokens, start);
    let (tree, next) = simple(alloc, tokens, start)?;
    let first = one(alloc, tree)?;
    let (all, at) = further(alloc, tokens, next, first)?;
    let end = due(tokens, at, Sought::Other, Mark::Newline)?;
    Ok((Stmt::Line(place, all), end))
}

/// A line as a block.
pub fn line_block(
    alloc: Global,
    tokens: &[Token],
    at: usize,
) -> Result<(Items<Stmt>, usize), SolveError>
    requires within { at < length tokens.now }
    requires ended { IsEnded tokens.now }
    ensures reads { Answers (λ found. Read found.0 found.1) result (grammar.line_block tokens.now at) }
    ensures within { IfOk result (λ found. found.1 < length tokens.now) }
    ensures after { IfOk result (λ found. at < found.1) }
{
    let (tree, end) = line(alloc, tokens, at)?;
    let all = one(alloc, tree)?;
    Ok((all, end))
}
