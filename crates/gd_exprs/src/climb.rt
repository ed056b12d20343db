// Negations and binary forms, by a climb over their levels.
ghost use Rattle.std.specs.Prelude.{◌≡◌, ◌≢◌, ◌+◌, ◌-◌, ◌<◌, ◌≤◌, true, false, length, Some, IfOk};
ghost use Rattle.gd_syntax.specs.TokenReading.{IsEnded, kind_at, mark_at, place_at};
ghost use Rattle.gd_syntax.specs.Reading.{Read, On, Answers};
ghost use Rattle.gd_exprs.specs.Forms as spec;
ghost use Rattle.gd_exprs.specs.Nests.{Nests, IsFound, IsPart, found, found_turn};
ghost use Rattle.gd_syntax.specs.Operators.{level_of, operator_of, is_not};
ghost use Rattle.gd_exprs.specs.After.{after};

use crate::found::Found;
use crate::levels::{NOT, PREFIX, is_not, level_of, operator_of};
use crate::reader::{due, fits, fits_over, larger, mark_at, place_at, skip};
use crate::rules::Rules;
use gd_syntax::{Expr, Mark, Place, SolveError, Sought, Token, TreeOp};
use std::alloc::Global;
use tree_lists::Boxed;

impl<F: Fn(Global, &[Token], usize, usize, u8) -> Result<Found, SolveError>> Rules<'_, F> {
    /// `not`, or `!`, and its operand.
    fn negated(&self, start: usize) -> Result<Found, SolveError>
        requires nests { Nests (self.now.room - 1) (F.pre self.now.inner) (F.post self.now.inner) }
        requires within { start < length self.now.tokens.now }
        requires ended { IsEnded self.now.tokens.now }
        requires some { 1 ≤ self.now.room }
        requires begins { is_not (mark_at self.now.tokens.now start) ≡ true }
        ensures reads { Answers found result (spec.level self.now.tokens.now self.now.room NOT start) }
        ensures found { IfOk result (IsFound self.now.tokens.now self.now.room start) }
    {
        let place = place_at(self.tokens, start);
        fits(self.tokens, start, self.room, 2)?;
        let Found { tree, levels, at } = self.inner(skip(self.tokens, start), 0, NOT)?;
        Ok(Found {
            tree: Boxed::new(self.alloc, Expr::Not(place, tree))?,
            levels: levels + 1,
            at,
        })
    }

    /// An operator of one token, of this level, and its right operand.
    fn binary(&self, place: Place, left: Found, op: TreeOp, level: u8) -> Result<Found, SolveError>
        requires nests { Nests (self.now.room - 1) (F.pre self.now.inner) (F.post self.now.inner) }
        requires ended { IsEnded self.now.tokens.now }
        requires some { 1 ≤ self.now.room }
        requires part { IsPart self.now.tokens.now self.now.room left }
        requires begins { operator_of (mark_at self.now.tokens.now left.at) ≡ Some op }
        requires loose { 1 ≤ level }
        ensures reads { Answers found_turn result (spec.operation self.now.tokens.now self.now.room level place left.tree left.at) }
        ensures found { IfOk result (IsFound self.now.tokens.now self.now.room left.at) }
    {
        let Found { tree, levels, at } = left;
        fits_over(self.tokens, at, self.room, levels, 1)?;
        let Found {
            tree: right,
            levels: deep,
            at,
        } = self.inner(skip(self.tokens, at), 0, level - 1)?;
        let binary = Expr::Binary {
            place,
            op,
            left: tree,
            right,
        };
        Ok(Found {
            tree: Boxed::new(self.alloc, binary)?,
            levels: larger(levels, deep) + 1,
            at,
        })
    }

    /// `not in` and its right operand.
    fn not_in(&self, place: Place, left: Found, level: u8) -> Result<Found, SolveError>
        requires nests { Nests (self.now.room - 1) (F.pre self.now.inner) (F.post self.now.inner) }
        requires ended { IsEnded self.now.tokens.now }
        requires some { 1 ≤ self.now.room }
        requires part { IsPart self.now.tokens.now self.now.room left }
        requires begins { mark_at self.now.tokens.now left.at ≡ Some Mark.Not }
        requires loose { 1 ≤ level }
        ensures reads { Answers found_turn result (spec.operation self.now.tokens.now self.now.room level place left.tree left.at) }
        ensures found { IfOk result (IsFound self.now.tokens.now self.now.room left.at) }
    {
        let Found { tree, levels, at } = left;
        fits_over(self.tokens, at, self.room, levels, 2)?;
        let at = due(self.tokens, skip(self.tokens, at), Sought::Other, Mark::In)?;
        let Found {
            tree: right,
            levels: deep,
            at,
        } = self.inner(at, 1, level - 1)?;
        let binary = Expr::Binary {
            place,
            op: TreeOp::Within,
            left: tree,
            right,
        };
        let within = Boxed::new(self.alloc, binary)?;
        Ok(Found {
            tree: Boxed::new(self.alloc, Expr::Not(place, within))?,
            levels: larger(levels, deep) + 2,
            at,
        })
    }

    /// An operator of this level and its right operand.
    fn operated(&self, place: Place, left: Found, level: u8) -> Result<Found, SolveError>
        requires nests { Nests (self.now.room - 1) (F.pre self.now.inner) (F.post self.now.inner) }
        requires ended { IsEnded self.now.tokens.now }
        requires some { 1 ≤ self.now.room }
        requires part { IsPart self.now.tokens.now self.now.room left }
        requires loose { 1 ≤ level }
        requires begins { level_of (mark_at self.now.tokens.now left.at) ≡ level }
        ensures reads { Answers found_turn result (spec.binary_turn self.now.tokens.now self.now.room level place left.tree left.at) }
        ensures found { IfOk result (IsFound self.now.tokens.now self.now.room left.at) }
    {
        match operator_of(mark_at(self.tokens, left.at)) {
            Some(op) => self.binary(place, left, op, level),
            None => self.not_in(place, left, level),
        }
    }

    /// The operators of the levels above `done`, up to `least`. The level of negations has none.
    fn climb(&self, place: Place, left: Found, done: u8, least: u8) -> Result<Found, SolveError>
        requires nests { Nests (self.now.room - 1) (F.pre self.now.inner) (F.post self.now.inner) }
        requires ended { IsEnded self.now.tokens.now }
        requires some { 1 ≤ self.now.room }
        requires part { IsPart self.now.tokens.now self.now.room left }
        ensures reads { Answers found result (after self.now.tokens.now self.now.room (spec.inner self.now.tokens.now self.now.room) place done least left.tree left.at) }
        ensures found { IfOk result (λ f. IsPart self.now.tokens.now self.now.room f × (left.at ≤ f.at)) }
    {
        let mut left = left;
        let mut done = done;
        'operators: loop {
            let level = level_of(mark_at(self.tokens, left.at));
            if level <= done || least < level {
                return Ok(left);
            }
            left = self.operated(place, left, level)?;
            done = level - 1;
        }
    }

    /// A form of at most this level that begins with `not`.
    fn level_from_not(&self, start: usize, least: u8) -> Result<Found, SolveError>
        requires nests { Nests (self.now.room - 1) (F.pre self.now.inner) (F.post self.now.inner) }
        requires within { start < length self.now.tokens.now }
        requires ended { IsEnded self.now.tokens.now }
        requires some { 1 ≤ self.now.room }
        requires begins { is_not (mark_at self.now.tokens.now start) ≡ true }
        requires loose { NOT ≤ least }
        ensures reads { Answers found result (spec.level self.now.tokens.now self.now.room least start) }
        ensures found { IfOk result (IsFound self.now.tokens.now self.now.room start) }
    {
        let place = place_at(self.tokens, start);
        let left = self.negated(start)?;
        self.climb(place, left, NOT, least)
    }

    /// A form of at most this level that begins with no `not` of its own.
    fn level_from_prefix(&self, start: usize, least: u8) -> Result<Found, SolveError>
        requires nests { Nests (self.now.room - 1) (F.pre self.now.inner) (F.post self.now.inner) }
        requires within { start < length self.now.tokens.now }
        requires ended { IsEnded self.now.tokens.now }
        requires some { 1 ≤ self.now.room }
        requires plain { NOT ≤ least → is_not (mark_at self.now.tokens.now start) ≡ false }
        ensures reads { Answers found result (spec.level self.now.tokens.now self.now.room least start) }
        ensures found { IfOk result (IsFound self.now.tokens.now self.now.room start) }
    {
        let place = place_at(self.tokens, start);
        let left = self.prefix(start)?;
        self.climb(place, left, PREFIX, least)
    }

    /// A form of at most this level, from prefix operators to `or`.
    pub fn level(&self, start: usize, least: u8) -> Result<Found, SolveError>
        requires nests { Nests (self.now.room - 1) (F.pre self.now.inner) (F.post self.now.inner) }
        requires within { start < length self.now.tokens.now }
        requires ended { IsEnded self.now.tokens.now }
        requires some { 1 ≤ self.now.room }
        ensures reads { Answers found result (spec.level self.now.tokens.now self.now.room least start) }
        ensures found { IfOk result (IsFound self.now.tokens.now self.now.room start) }
    {
        if least < NOT {
            return self.level_from_prefix(start, least);
        }
        if is_not(mark_at(self.tokens, start)) {
            self.level_from_not(start, least)
        } else {
            self.level_from_prefix(start, least)
        }
    }
}
