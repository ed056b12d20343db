// Blocks, and the statements that open one.
//
// The rules take the reader of a whole block as a parameter, so that each is proved by itself.
ghost use Rattle.std.specs.Prelude.{◌≡◌, ◌≢◌, ◌+◌, ◌-◌, ◌<◌, ◌≤◌, [], ◌∷◌, length, Some, IfOk};
ghost use Rattle.gd_syntax.specs.Reading.{Read, Answers, Loop};
ghost use Rattle.gd_syntax.specs.TokenReading.{IsEnded, mark_at, place_at};
ghost use Rattle.gd_syntax.specs.StatementGrammar as grammar;
ghost use Rattle.gd_parser.specs.BlockForms as spec;
ghost use Rattle.gd_parser.specs.BlockForms.{NestsBlocks};

use crate::declarations::{expr, new_name, optional_type};
use crate::lists::one;
use crate::statements::{line, line_block};
use gd_exprs::reader::{due, fault_at, mark_at, place_at, sees, skip};
use gd_syntax::{Branch, Expr, FaultKind, Mark, Place, SolveError, Sought, Stmt, Token};
use std::alloc::Global;
use tree_lists::{Boxed, Items};

/// An expression and the `:` after it. It is boxed, so that what keeps it over a block moves one word and no whole tree.
fn headed(alloc: Global, tokens: &[Token], start: usize) -> Result<(Boxed<Expr>, usize), SolveError>
    requires within { start < length tokens.now }
    requires ended { IsEnded tokens.now }
    ensures reads { Answers (λ found. Read found.0 found.1) result (spec.headed tokens.now start) }
    ensures within { IfOk result (λ found. found.1 < length tokens.now) }
    ensures after { IfOk result (λ found. start < found.1) }
{
    let (tree, at) = expr(alloc, tokens, start)?;
    let boxed = Boxed::new(alloc, tree)?;
    let end = due(tokens, at, Sought::Other, Mark::Colon)?;
    Ok((boxed, end))
}

#[derive(Clone, Copy)]
pub struct Blocks<'a, F> {
    pub alloc: Global,
    pub tokens: &'a [Token],
    /// How many blocks may still be open inside this one.
    pub room: usize,
    pub inner: F,
}

impl<F> Blocks<'_, F>
where
    F: Fn(Global, &[Token], usize, usize) -> Result<(Items<Stmt>, usize), SolveError>,
{
    /// A block inside the one that has begun.
    pub fn inner(&self, at: usize) -> Result<(Items<Stmt>, usize), SolveError>
        requires nests { NestsBlocks self.now.room (F.pre self.now.inner) (F.post self.now.inner) }
        requires within { at < length self.now.tokens.now }
        requires ended { IsEnded self.now.tokens.now }
        ensures reads { Answers (λ found. Read found.0 found.1) result (spec.inner self.now.tokens.now self.now.room at) }
        ensures within { IfOk result (λ found. found.1 < length self.now.tokens.now) }
        ensures after { IfOk result (λ found. at < found.1) }
    {
        (self.inner)(self.alloc, self.tokens, at, self.room)
    }

    /// The branch of the keyword at `at`.
    fn branch(&self, at: usize) -> Result<(Branch, usize), SolveError>
        requires nests { NestsBlocks self.now.room (F.pre self.now.inner) (F.post self.now.inner) }
        requires within { at < length self.now.tokens.now }
        requires ended { IsEnded self.now.tokens.now }
        requires goes_on { mark_at self.now.tokens.now at ≢ Some Mark.End }
        ensures reads { Answers (λ found. Read found.0 found.1) result (spec.branch self.now.tokens.now self.now.room at) }
        ensures within { IfOk result (λ found. found.1 < length self.now.tokens.now) }
        ensures after { IfOk result (λ found. at < found.1) }
    {
        let place = place_at(self.tokens, at);
        let (condition, next) = headed(self.alloc, self.tokens, skip(self.tokens, at))?;
        let (body, end) = self.inner(next)?;
        let branch = Branch {
            place,
            condition: condition.into_inner(),
            body,
        };
        Ok((branch, end))
    }

    /// The branches of an `if` behind the first.
    fn elifs(
        &self,
        start: usize,
        first: Items<Branch>,
    ) -> Result<(Items<Branch>, usize), SolveError>
        requires nests { NestsBlocks self.now.room (F.pre self.now.inner) (F.post self.now.inner) }
        requires within { start < length self.now.tokens.now }
        requires ended { IsEnded self.now.tokens.now }
        ensures reads { Answers (λ found. Read found.0 found.1) result (Loop (spec.elif self.now.tokens.now self.now.room) first start) }
        ensures within { IfOk result (λ found. found.1 < length self.now.tokens.now) }
        ensures after { IfOk result (λ found. start ≤ found.1) }
    {
        let mut all = first;
        let mut at = start;
        'branches: while sees(self.tokens, at, Mark::Elif) {
            let (branch, next) = self.branch(at)?;
            all.push(branch)?;
            at = next;
        }
        Ok((all, at))
    }

    /// The block of `else`, which may be missing.
    fn other(&self, at: usize) -> Result<(Option<Items<Stmt>>, usize), SolveError>
        requires nests { NestsBlocks self.now.room (F.pre self.now.inner) (F.post self.now.inner) }
        requires within { at < length self.now.tokens.now }
        requires ended { IsEnded self.now.tokens.now }
        ensures reads { Answers (λ found. Read found.0 found.1) result (spec.other self.now.tokens.now self.now.room at) }
        ensures within { IfOk result (λ found. found.1 < length self.now.tokens.now) }
        ensures after { IfOk result (λ found. at ≤ found.1) }
    {
        if !sees(self.tokens, at, Mark::Else) {
            return Ok((None, at));
        }
        let start = due(
            self.tokens,
            skip(self.tokens, at),
            Sought::Other,
            Mark::Colon,
        )?;
        let (body, end) = self.inner(start)?;
        Ok((Some(body), end))
    }

    fn if_statement(&self, at: usize) -> Result<(Stmt, usize), SolveError>
        requires nests { NestsBlocks self.now.room (F.pre self.now.inner) (F.post self.now.inner) }
        requires within { at < length self.now.tokens.now }
        requires ended { IsEnded self.now.tokens.now }
        requires begins { mark_at self.now.tokens.now at ≡ Some Mark.If }
        ensures reads { Answers (λ found. Read found.0 found.1) result (spec.if_stmt self.now.tokens.now self.now.room (place_at self.now.tokens.now at) at) }
        ensures within { IfOk result (λ found. found.1 < length self.now.tokens.now) }
        ensures after { IfOk result (λ found. at < found.1) }
    {
        let place = place_at(self.tokens, at);
        let (branch, next) = self.branch(at)?;
        let first = one(self.alloc, branch)?;
        let (all, middle) = self.elifs(next, first)?;
        let (other, end) = self.other(middle)?;
        Ok((Stmt::If(place, all, other), end))
    }

    fn for_statement(&self, at: usize) -> Result<(Stmt, usize), SolveError>
        requires nests { NestsBlocks self.now.room (F.pre self.now.inner) (F.post self.now.inner) }
        requires within { at < length self.now.tokens.now }
        requires ended { IsEnded self.now.tokens.now }
        requires begins { mark_at self.now.tokens.now at ≡ Some Mark.For }
        ensures reads { Answers (λ found. Read found.0 found.1) result (spec.for_stmt self.now.tokens.now self.now.room (place_at self.now.tokens.now at) at) }
        ensures within { IfOk result (λ found. found.1 < length self.now.tokens.now) }
        ensures after { IfOk result (λ found. at < found.1) }
    {
        let place = place_at(self.tokens, at);
        let (name, next) = new_name(self.tokens, skip(self.tokens, at))?;
        let (type_name, middle) = optional_type(self.alloc, self.tokens, next, Sought::Other)?;
        let start = due(self.tokens, middle, Sought::Other, Mark::In)?;
        let (subject, open) = headed(self.alloc, self.tokens, start)?;
        let (body, end) = self.inner(open)?;
        let statement = Stmt::For {
            place,
            name,
            type_name,
            subject: subject.into_inner(),
            body,
        };
        Ok((statement, end))
    }

    fn while_statement(&self, at: usize) -> Result<(Stmt, usize), SolveError>
        requires nests { NestsBlocks self.now.room (F.pre self.now.inner) (F.post self.now.inner) }
        requires within { at < length self.now.tokens.now }
        requires ended { IsEnded self.now.tokens.now }
        requires begins { mark_at self.now.tokens.now at ≡ Some Mark.While }
        ensures reads { Answers (λ found. Read found.0 found.1) result (spec.while_stmt self.now.tokens.now self.now.room (place_at self.now.tokens.now at) at) }
        ensures within { IfOk result (λ found. found.1 < length self.now.tokens.now) }
        ensures after { IfOk result (λ found. at < found.1) }
    {
        let place = place_at(self.tokens, at);
        let (branch, end) = self.branch(at)?;
        let Branch {
            condition,
            body,
            ..
        } = branch;
        Ok((Stmt::While(place, condition, body), end))
    }

    fn match_statement(&self, at: usize) -> Result<(Stmt, usize), SolveError>
        requires nests { NestsBlocks self.now.room (F.pre self.now.inner) (F.post self.now.inner) }
        requires within { at < length self.now.tokens.now }
        requires ended { IsEnded self.now.tokens.now }
        requires begins { mark_at self.now.tokens.now at ≡ Some Mark.Match }
        ensures reads { Answers (λ found. Read found.0 found.1) result (spec.match_stmt self.now.tokens.now self.now.room (place_at self.now.tokens.now at) at) }
        ensures within { IfOk result (λ found. found.1 < length self.now.tokens.now) }
        ensures after { IfOk result (λ found. at < found.1) }
    {
        let place = place_at(self.tokens, at);
        let (subject, head) = headed(self.alloc, self.tokens, skip(self.tokens, at))?;
        let open = due(self.tokens, head, Sought::Other, Mark::Newline)?;
        let start = due(self.tokens, open, Sought::Other, Mark::Indent)?;
        let (branches, last) = self.match_branches(start)?;
        let end = due(self.tokens, last, Sought::Other, Mark::Dedent)?;
        Ok((Stmt::Match(place, subject.into_inner(), branches), end))
    }

    /// A statement that begins with a keyword or a sign.
    fn marked(&self, at: usize, mark: Mark) -> Result<(Stmt, usize), SolveError>
        requires nests { NestsBlocks self.now.room (F.pre self.now.inner) (F.post self.now.inner) }
        requires within { at < length self.now.tokens.now }
        requires ended { IsEnded self.now.tokens.now }
        requires begins { mark_at self.now.tokens.now at ≡ Some mark }
        ensures reads { Answers (λ found. Read found.0 found.1) result (spec.stmt self.now.tokens.now self.now.room at) }
        ensures within { IfOk result (λ found. found.1 < length self.now.tokens.now) }
        ensures after { IfOk result (λ found. at < found.1) }
    {
        match mark {
            Mark::If => self.if_statement(at),
            Mark::For => self.for_statement(at),
            Mark::While => self.while_statement(at),
            Mark::Match => self.match_statement(at),
            _ => line(self.alloc, self.tokens, at),
        }
    }

    fn statement(&self, at: usize) -> Result<(Stmt, usize), SolveError>
        requires nests { NestsBlocks self.now.room (F.pre self.now.inner) (F.post self.now.inner) }
        requires within { at < length self.now.tokens.now }
        requires ended { IsEnded self.now.tokens.now }
        ensures reads { Answers (λ found. Read found.0 found.1) result (spec.stmt self.now.tokens.now self.now.room at) }
        ensures within { IfOk result (λ found. found.1 < length self.now.tokens.now) }
        ensures after { IfOk result (λ found. at < found.1) }
    {
        match mark_at(self.tokens, at) {
            Some(mark) => self.marked(at, mark),
            None => line(self.alloc, self.tokens, at),
        }
    }

    /// The statements of a block, up to its end.
    fn body(&self, start: usize) -> Result<(Items<Stmt>, usize), SolveError>
        requires nests { NestsBlocks self.now.room (F.pre self.now.inner) (F.post self.now.inner) }
        requires within { start < length self.now.tokens.now }
        requires ended { IsEnded self.now.tokens.now }
        ensures reads { Answers (λ found. Read found.0 found.1) result (Loop (spec.body_turn self.now.tokens.now self.now.room) [] start) }
        ensures within { IfOk result (λ found. found.1 < length self.now.tokens.now) }
        ensures after { IfOk result (λ found. start ≤ found.1) }
    {
        let mut all = Items::new(self.alloc);
        let mut at = start;
        'statements: while !sees(self.tokens, at, Mark::Dedent) {
            let (tree, next) = self.statement(at)?;
            all.push(tree)?;
            at = next;
        }
        Ok((all, at))
    }

    /// A block on the line of its `:`, or indented below it.
    fn form(&self, at: usize) -> Result<(Items<Stmt>, usize), SolveError>
        requires nests { NestsBlocks self.now.room (F.pre self.now.inner) (F.post self.now.inner) }
        requires within { at < length self.now.tokens.now }
        requires ended { IsEnded self.now.tokens.now }
        ensures reads { Answers (λ found. Read found.0 found.1) result (spec.form self.now.tokens.now self.now.room at) }
        ensures within { IfOk result (λ found. found.1 < length self.now.tokens.now) }
        ensures after { IfOk result (λ found. at < found.1) }
    {
        if !sees(self.tokens, at, Mark::Newline) {
            return line_block(self.alloc, self.tokens, at);
        }
        let start = due(
            self.tokens,
            skip(self.tokens, at),
            Sought::Other,
            Mark::Indent,
        )?;
        let (all, next) = self.body(start)?;
        let end = due(self.tokens, next, Sought::Other, Mark::Dedent)?;
        Ok((all, end))
    }
}

/// The block from `at`, where `room` blocks more may be open, and the place after it.
pub fn block(
    alloc: Global,
    tokens: &[Token],
    at: usize,
    room: usize,
) -> Result<(Items<Stmt>, usize), SolveError>
    requires within { at < length tokens.now }
    requires ended { IsEnded tokens.now }
    ensures reads { Answers (λ found. Read found.0 found.1) result (grammar.block tokens.now room at) }
    ensures within { IfOk result (λ found. found.1 < length tokens.now) }
    ensures after { IfOk result (λ found. at < found.1) }
{
    if room == 0 {
        return Err(fault_at(tokens, at, FaultKind::NestTooDeep));
    }
    Blocks {
        alloc,
        tokens,
        room: room - 1,
        inner: block,
    }
    .form(at)
}
