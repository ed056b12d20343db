// Whole expressions.
ghost use Rattle.std.specs.Prelude.{◌≡◌, ◌≢◌, ◌+◌, ◌-◌, ◌<◌, ◌≤◌, true, false, length, Some, IfOk};
ghost use Rattle.gd_syntax.specs.TokenReading.{IsEnded, kind_at, mark_at, place_at};
ghost use Rattle.gd_syntax.specs.Reading.{Read, On, Answers};
ghost use Rattle.gd_exprs.specs.Forms as spec;
ghost use Rattle.gd_exprs.specs.Nests.{Nests, IsFound, IsPart, found, found_turn};
ghost use Rattle.gd_syntax.specs.Operators as levels;
ghost use Rattle.gd_syntax.specs.TokenReading.{max_levels};
ghost use Rattle.gd_syntax.specs.Reading.{Outcome, Gives};
ghost use Rattle.gd_syntax.specs.ExprGrammar as grammar;
ghost use Rattle.gd_syntax.specs.declared.tree.expr.Expr.{Expr};

use crate::found::Found;
use crate::levels::{AS, NOT, OR, TERNARY};
use crate::reader::{due, fault_at, fits_over, kind_at, larger, place_at, refuse, sees, skip};
use crate::rules::Rules;
use crate::types::type_name;
use gd_syntax::{Expr, FaultKind, Kind, Mark, Place, SolveError, Sought, Token};
use std::alloc::Global;
use tree_lists::Boxed;

/// Whether an operand begins with this token.
fn is_operand(mark: Mark) -> bool
    ensures { result ≡ grammar.is_operand (Kind.Mark mark) }
{
    matches!(
        mark,
        Mark::Null
            | Mark::Yes
            | Mark::No
            | Mark::This
            | Mark::LParen
            | Mark::LBracket
            | Mark::LBrace
            | Mark::Preload
            | Mark::Super
            | Mark::Dollar
    )
}

fn mark_begins(level: u8, mark: Mark) -> bool
    ensures { result ≡ grammar.begins level (Kind.Mark mark) }
{
    match mark {
        Mark::Tilde | Mark::Plus | Mark::Minus => true,
        Mark::Not | Mark::Bang => NOT <= level,
        _ => is_operand(mark),
    }
}

/// Whether a form of at most this level begins with this token.
fn begins(level: u8, kind: &Kind) -> bool
    ensures { result ≡ grammar.begins level kind.now }
{
    match kind {
        Kind::Int(_) | Kind::Text(_) => true,
        Kind::Name(name) => name.is_plain() || name.is_load(),
        Kind::Mark(mark) => mark_begins(level, *mark),
    }
}

/// The refusal where no form may begin any more.
pub fn full(tokens: &[Token], at: usize, level: u8) -> SolveError
    requires within { at < length tokens.now }
    requires ended { IsEnded tokens.now }
    ensures { Answers found (Err result) (grammar.full tokens.now level at) }
{
    if begins(level, kind_at(tokens, at)) {
        fault_at(tokens, at, FaultKind::NestTooDeep)
    } else {
        refuse(tokens, at, Sought::Operand)
    }
}

impl<F: Fn(Global, &[Token], usize, usize, u8) -> Result<Found, SolveError>> Rules<'_, F> {
    fn ternary(&self, start: usize) -> Result<Found, SolveError>
        requires nests { Nests (self.now.room - 1) (F.pre self.now.inner) (F.post self.now.inner) }
        requires within { start < length self.now.tokens.now }
        requires ended { IsEnded self.now.tokens.now }
        requires some { 1 ≤ self.now.room }
        ensures reads { Answers found result (spec.ternary self.now.tokens.now self.now.room start) }
        ensures found { IfOk result (IsFound self.now.tokens.now self.now.room start) }
    {
        let place = place_at(self.tokens, start);
        let left = self.level(start, OR)?;
        if !sees(self.tokens, left.at, Mark::If) {
            return Ok(left);
        }
        let Found {
            tree: value,
            levels: first,
            at,
        } = left;
        fits_over(self.tokens, at, self.room, first, 1)?;
        let Found {
            tree: condition,
            levels: second,
            at,
        } = self.inner(skip(self.tokens, at), 0, OR)?;
        let at = due(self.tokens, at, Sought::Other, Mark::Else)?;
        let Found {
            tree: otherwise,
            levels: third,
            at,
        } = self.inner(at, 0, TERNARY)?;
        let ternary = Expr::Ternary {
            place,
            value,
            condition,
            otherwise,
        };
        Ok(Found {
            tree: Boxed::new(self.alloc, ternary)?,
            levels: larger(first, larger(second, third)) + 1,
            at,
        })
    }

    /// `as` and its type.
    fn cast_to(&self, place: Place, left: Found) -> Result<Found, SolveError>
        requires nests { Nests (self.now.room - 1) (F.pre self.now.inner) (F.post self.now.inner) }
        requires ended { IsEnded self.now.tokens.now }
        requires some { 1 ≤ self.now.room }
        requires part { IsPart self.now.tokens.now self.now.room left }
        requires begins { mark_at self.now.tokens.now left.at ≡ Some Mark.As }
        ensures reads { Answers found_turn result (spec.cast_turn self.now.tokens.now self.now.room place left.tree left.at) }
        ensures found { IfOk result (IsFound self.now.tokens.now self.now.room left.at) }
    {
        let Found { tree, levels, at } = left;
        fits_over(self.tokens, at, self.room, levels, 1)?;
        let (kind, end) = type_name(
            self.alloc,
            self.tokens,
            skip(self.tokens, at),
            Sought::Other,
        )?;
        Ok(Found {
            tree: Boxed::new(self.alloc, Expr::As(place, tree, kind))?,
            levels: levels + 1,
            at: end,
        })
    }

    fn cast(&self, start: usize) -> Result<Found, SolveError>
        requires nests { Nests (self.now.room - 1) (F.pre self.now.inner) (F.post self.now.inner) }
        requires within { start < length self.now.tokens.now }
        requires ended { IsEnded self.now.tokens.now }
        requires some { 1 ≤ self.now.room }
        ensures reads { Answers found result (spec.cast self.now.tokens.now self.now.room start) }
        ensures found { IfOk result (IsFound self.now.tokens.now self.now.room start) }
    {
        let place = place_at(self.tokens, start);
        let mut left = self.ternary(start)?;
        'casts: while sees(self.tokens, left.at, Mark::As) {
            left = self.cast_to(place, left)?;
        }
        Ok(left)
    }

    fn form(&self, start: usize, level: u8) -> Result<Found, SolveError>
        requires nests { Nests (self.now.room - 1) (F.pre self.now.inner) (F.post self.now.inner) }
        requires within { start < length self.now.tokens.now }
        requires ended { IsEnded self.now.tokens.now }
        requires some { 1 ≤ self.now.room }
        ensures reads { Answers found result (spec.form self.now.tokens.now self.now.room level start) }
        ensures found { IfOk result (IsFound self.now.tokens.now self.now.room start) }
    {
        if level == AS {
            self.cast(start)
        } else if level == TERNARY {
            self.ternary(start)
        } else {
            self.level(start, level)
        }
    }
}

/// An expression of at most this level, where there is room for so many levels.
fn expression_at(
    alloc: Global,
    tokens: &[Token],
    at: usize,
    room: usize,
    level: u8,
) -> Result<Found, SolveError>
    requires within { at < length tokens.now }
    requires ended { IsEnded tokens.now }
    ensures reads { Answers found result (grammar.expression tokens.now room level at) }
    ensures found { IfOk result (IsFound tokens.now room at) }
{
    if room == 0 {
        return Err(full(tokens, at, level));
    }
    Rules {
        alloc,
        tokens,
        room,
        inner: expression_at,
    }
    .form(at, level)
}

/// How many levels a tree has at most.
pub const MAX_LEVELS: u32 = 128;

/// The expression from `at`, with `depth` forms open round it, and the place after it.
///
/// The levels of operators are those of the Godot manual's "GDScript reference", from `x[i]` to `as`.
pub fn expression(
    alloc: Global,
    tokens: &[Token],
    at: usize,
    depth: u32,
) -> Result<(Expr, usize), SolveError>
    requires within { at < length tokens.now }
    requires ended { IsEnded tokens.now }
    requires open_forms { depth ≤ max_levels }

    // What is answered is the outcome of the reading, unless memory runs out, and so is a refusal.
    ensures reads { Answers (λ found. Read found.0 found.1) result (grammar.expression tokens.now (max_levels - depth) levels.AS at) }
    // Nothing else is.
    ensures only { (o : Outcome Expr) → grammar.expression tokens.now (max_levels - depth) levels.AS at o → Gives (λ found. Read found.0 found.1) result o }
    ensures within { IfOk result (λ found. found.1 < length tokens.now) }
    ensures after { IfOk result (λ found. at < found.1) }
{
    let room = (MAX_LEVELS - depth) as usize;
    let Found { tree, at, .. } = expression_at(alloc, tokens, at, room, AS)?;
    Ok((tree.into_inner(), at))
}
