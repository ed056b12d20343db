// Postfix forms, tests of types, and prefix operators.
ghost use Rattle.std.specs.Prelude.{◌≡◌, ◌≢◌, ◌+◌, ◌-◌, ◌<◌, ◌≤◌, true, false, length, Some, IfOk};
ghost use Rattle.gd_syntax.specs.TokenReading.{IsEnded, kind_at, mark_at, place_at};
ghost use Rattle.gd_syntax.specs.Reading.{Read, On, Answers};
ghost use Rattle.gd_exprs.specs.Forms as spec;
ghost use Rattle.gd_exprs.specs.Nests.{Nests, IsFound, IsPart, found, found_turn};
ghost use Rattle.gd_syntax.specs.ExprGrammar.{is_part};
ghost use Rattle.gd_syntax.specs.Operators.{prefix_of};
ghost use Rattle.gd_syntax.specs.Levels as tree;

use crate::found::{Found, FoundList};
use crate::levels::{AS, PREFIX, prefix_of};
use crate::reader::{any_name, due, fits, fits_over, larger, mark_at, place_at, sees, skip};
use crate::rules::Rules;
use crate::types::type_name;
use gd_syntax::{Expr, Mark, Place, SolveError, Sought, Token, TreePrefix};
use std::alloc::Global;
use tree_lists::Boxed;

/// Whether a further part of a postfix form begins with this token.
fn is_part(mark: Option<Mark>) -> bool
    ensures { result ≡ is_part mark }
{
    matches!(mark, Some(Mark::LBracket | Mark::Dot | Mark::LParen))
}

impl<F: Fn(Global, &[Token], usize, usize, u8) -> Result<Found, SolveError>> Rules<'_, F> {
    fn index(&self, place: Place, left: Found) -> Result<Found, SolveError>
        requires nests { Nests (self.now.room - 1) (F.pre self.now.inner) (F.post self.now.inner) }
        requires ended { IsEnded self.now.tokens.now }
        requires some { 1 ≤ self.now.room }
        requires part { IsPart self.now.tokens.now self.now.room left }
        requires begins { mark_at self.now.tokens.now left.at ≡ Some Mark.LBracket }
        ensures reads { Answers found_turn result (spec.part self.now.tokens.now self.now.room place left.tree left.at) }
        ensures found { IfOk result (IsFound self.now.tokens.now self.now.room left.at) }
    {
        let Found { tree, levels, at } = left;
        fits_over(self.tokens, at, self.room, levels, 1)?;
        let Found {
            tree: index,
            levels: deep,
            at,
        } = self.inner(skip(self.tokens, at), 0, AS)?;
        let end = due(self.tokens, at, Sought::Other, Mark::RBracket)?;
        Ok(Found {
            tree: Boxed::new(self.alloc, Expr::Index(place, tree, index))?,
            levels: larger(levels, deep) + 1,
            at: end,
        })
    }

    fn member(&self, place: Place, left: Found) -> Result<Found, SolveError>
        requires nests { Nests (self.now.room - 1) (F.pre self.now.inner) (F.post self.now.inner) }
        requires ended { IsEnded self.now.tokens.now }
        requires some { 1 ≤ self.now.room }
        requires part { IsPart self.now.tokens.now self.now.room left }
        requires begins { mark_at self.now.tokens.now left.at ≡ Some Mark.Dot }
        ensures reads { Answers found_turn result (spec.part self.now.tokens.now self.now.room place left.tree left.at) }
        ensures found { IfOk result (IsFound self.now.tokens.now self.now.room left.at) }
    {
        let Found { tree, levels, at } = left;
        fits_over(self.tokens, at, self.room, levels, 1)?;
        let (name, end) = any_name(self.tokens, skip(self.tokens, at), Sought::Other)?;
        Ok(Found {
            tree: Boxed::new(self.alloc, Expr::Member(place, tree, name))?,
            levels: levels + 1,
            at: end,
        })
    }

    fn call(&self, place: Place, left: Found) -> Result<Found, SolveError>
        requires nests { Nests (self.now.room - 1) (F.pre self.now.inner) (F.post self.now.inner) }
        requires ended { IsEnded self.now.tokens.now }
        requires some { 1 ≤ self.now.room }
        requires part { IsPart self.now.tokens.now self.now.room left }
        requires begins { mark_at self.now.tokens.now left.at ≡ Some Mark.LParen }
        ensures reads { Answers found_turn result (spec.part self.now.tokens.now self.now.room place left.tree left.at) }
        ensures found { IfOk result (IsFound self.now.tokens.now self.now.room left.at) }
    {
        let Found { tree, levels, at } = left;
        fits_over(self.tokens, at, self.room, levels, 1)?;
        let FoundList {
            items,
            levels: deep,
            at,
        } = self.args(skip(self.tokens, at), Mark::RParen)?;
        Ok(Found {
            tree: Boxed::new(self.alloc, Expr::Call(place, tree, items))?,
            levels: larger(levels, deep) + 1,
            at,
        })
    }

    fn part(&self, place: Place, left: Found) -> Result<Found, SolveError>
        requires nests { Nests (self.now.room - 1) (F.pre self.now.inner) (F.post self.now.inner) }
        requires ended { IsEnded self.now.tokens.now }
        requires some { 1 ≤ self.now.room }
        requires part { IsPart self.now.tokens.now self.now.room left }
        requires begins { is_part (mark_at self.now.tokens.now left.at) ≡ true }
        ensures reads { Answers found_turn result (spec.part self.now.tokens.now self.now.room place left.tree left.at) }
        ensures found { IfOk result (IsFound self.now.tokens.now self.now.room left.at) }
    {
        match mark_at(self.tokens, left.at) {
            Some(Mark::LBracket) => self.index(place, left),
            Some(Mark::Dot) => self.member(place, left),
            Some(Mark::LParen) => self.call(place, left),
            _ => unreachable!(),
        }
    }

    fn postfix(&self, start: usize) -> Result<Found, SolveError>
        requires nests { Nests (self.now.room - 1) (F.pre self.now.inner) (F.post self.now.inner) }
        requires within { start < length self.now.tokens.now }
        requires ended { IsEnded self.now.tokens.now }
        requires some { 1 ≤ self.now.room }
        ensures reads { Answers found result (spec.postfix self.now.tokens.now self.now.room start) }
        ensures found { IfOk result (IsFound self.now.tokens.now self.now.room start) }
    {
        let place = place_at(self.tokens, start);
        let mut left = self.operand(start)?;
        'parts: while is_part(mark_at(self.tokens, left.at)) {
            left = self.part(place, left)?;
        }
        Ok(left)
    }

    /// The type after `is not`, where `at` is the place of `not`.
    fn is_not_type(&self, place: Place, left: Found, at: usize) -> Result<Found, SolveError>
        requires nests { Nests (self.now.room - 1) (F.pre self.now.inner) (F.post self.now.inner) }
        requires within { at < length self.now.tokens.now }
        requires ended { IsEnded self.now.tokens.now }
        requires some { 1 ≤ self.now.room }
        requires levels { left.levels ≡ tree.levels left.tree }
        requires room { left.levels + 1 ≤ self.now.room }
        requires begins { mark_at self.now.tokens.now at ≡ Some Mark.Not }
        ensures reads { Answers found_turn result (spec.kind_test self.now.tokens.now self.now.room place left.tree at) }
        ensures found { IfOk result (IsFound self.now.tokens.now self.now.room at) }
    {
        let Found { tree, levels, .. } = left;
        let (kind, end) = type_name(
            self.alloc,
            self.tokens,
            skip(self.tokens, at),
            Sought::Other,
        )?;
        Ok(Found {
            tree: Boxed::new(self.alloc, Expr::IsNot(place, tree, kind))?,
            levels: levels + 1,
            at: end,
        })
    }

    /// The type after `is`.
    fn is_type(&self, place: Place, left: Found, at: usize) -> Result<Found, SolveError>
        requires nests { Nests (self.now.room - 1) (F.pre self.now.inner) (F.post self.now.inner) }
        requires within { at < length self.now.tokens.now }
        requires ended { IsEnded self.now.tokens.now }
        requires some { 1 ≤ self.now.room }
        requires levels { left.levels ≡ tree.levels left.tree }
        requires room { left.levels + 1 ≤ self.now.room }
        requires begins { mark_at self.now.tokens.now at ≢ Some Mark.Not }
        ensures reads { Answers found_turn result (spec.kind_test self.now.tokens.now self.now.room place left.tree at) }
        ensures found { IfOk result (IsFound self.now.tokens.now self.now.room at) }
    {
        let Found { tree, levels, .. } = left;
        let (kind, end) = type_name(self.alloc, self.tokens, at, Sought::Other)?;
        Ok(Found {
            tree: Boxed::new(self.alloc, Expr::Is(place, tree, kind))?,
            levels: levels + 1,
            at: end,
        })
    }

    fn kind_test(&self, place: Place, left: Found, at: usize) -> Result<Found, SolveError>
        requires nests { Nests (self.now.room - 1) (F.pre self.now.inner) (F.post self.now.inner) }
        requires within { at < length self.now.tokens.now }
        requires ended { IsEnded self.now.tokens.now }
        requires some { 1 ≤ self.now.room }
        requires levels { left.levels ≡ tree.levels left.tree }
        requires room { left.levels + 1 ≤ self.now.room }
        ensures reads { Answers found_turn result (spec.kind_test self.now.tokens.now self.now.room place left.tree at) }
        ensures found { IfOk result (IsFound self.now.tokens.now self.now.room at) }
    {
        if sees(self.tokens, at, Mark::Not) {
            self.is_not_type(place, left, at)
        } else {
            self.is_type(place, left, at)
        }
    }

    /// `is`, and what stands after it.
    fn test(&self, place: Place, left: Found) -> Result<Found, SolveError>
        requires nests { Nests (self.now.room - 1) (F.pre self.now.inner) (F.post self.now.inner) }
        requires ended { IsEnded self.now.tokens.now }
        requires some { 1 ≤ self.now.room }
        requires part { IsPart self.now.tokens.now self.now.room left }
        requires begins { mark_at self.now.tokens.now left.at ≡ Some Mark.Is }
        ensures reads { Answers found_turn result (spec.test self.now.tokens.now self.now.room place left.tree left.at) }
        ensures found { IfOk result (IsFound self.now.tokens.now self.now.room left.at) }
    {
        fits_over(self.tokens, left.at, self.room, left.levels, 1)?;
        let next = skip(self.tokens, left.at);
        self.kind_test(place, left, next)
    }

    fn type_test(&self, start: usize) -> Result<Found, SolveError>
        requires nests { Nests (self.now.room - 1) (F.pre self.now.inner) (F.post self.now.inner) }
        requires within { start < length self.now.tokens.now }
        requires ended { IsEnded self.now.tokens.now }
        requires some { 1 ≤ self.now.room }
        ensures reads { Answers found result (spec.type_test self.now.tokens.now self.now.room start) }
        ensures found { IfOk result (IsFound self.now.tokens.now self.now.room start) }
    {
        let place = place_at(self.tokens, start);
        let mut left = self.postfix(start)?;
        'tests: while sees(self.tokens, left.at, Mark::Is) {
            left = self.test(place, left)?;
        }
        Ok(left)
    }

    fn prefixed(&self, start: usize, op: TreePrefix) -> Result<Found, SolveError>
        requires nests { Nests (self.now.room - 1) (F.pre self.now.inner) (F.post self.now.inner) }
        requires within { start < length self.now.tokens.now }
        requires ended { IsEnded self.now.tokens.now }
        requires some { 1 ≤ self.now.room }
        requires begins { prefix_of (mark_at self.now.tokens.now start) ≡ Some op }
        ensures reads { Answers found result (spec.prefix self.now.tokens.now self.now.room start) }
        ensures found { IfOk result (IsFound self.now.tokens.now self.now.room start) }
    {
        let place = place_at(self.tokens, start);
        fits(self.tokens, start, self.room, 2)?;
        let Found { tree, levels, at } = self.inner(skip(self.tokens, start), 0, PREFIX)?;
        Ok(Found {
            tree: Boxed::new(self.alloc, Expr::Prefix(place, op, tree))?,
            levels: levels + 1,
            at,
        })
    }

    pub fn prefix(&self, start: usize) -> Result<Found, SolveError>
        requires nests { Nests (self.now.room - 1) (F.pre self.now.inner) (F.post self.now.inner) }
        requires within { start < length self.now.tokens.now }
        requires ended { IsEnded self.now.tokens.now }
        requires some { 1 ≤ self.now.room }
        ensures reads { Answers found result (spec.prefix self.now.tokens.now self.now.room start) }
        ensures found { IfOk result (IsFound self.now.tokens.now self.now.room start) }
    {
        match prefix_of(mark_at(self.tokens, start)) {
            Some(op) => self.prefixed(start, op),
            None => self.type_test(start),
        }
    }
}
