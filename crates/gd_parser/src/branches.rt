// The branches of a `match`.
ghost use Rattle.std.specs.Prelude.{◌≡◌, ◌≢◌, ◌+◌, ◌<◌, ◌≤◌, [], ◌∷◌, length, Some, IfOk};
ghost use Rattle.gd_syntax.specs.Reading.{Read, Answers, Loop};
ghost use Rattle.gd_syntax.specs.TokenReading.{IsEnded, mark_at};
ghost use Rattle.gd_syntax.specs.StatementGrammar as grammar;
ghost use Rattle.gd_parser.specs.BlockForms as spec;
ghost use Rattle.gd_parser.specs.BlockForms.{NestsBlocks};

use crate::blocks::Blocks;
use crate::found_patterns::FoundPattern;
use crate::lists::one;
use crate::patterns::pattern;
use gd_exprs::reader::{due, refuse, sees, skip};
use gd_syntax::{Mark, MatchBranch, Pattern, SolveError, Sought, Stmt, Token};
use std::alloc::Global;
use tree_lists::Items;

/// The patterns behind the first. None follows one in which a `var` stands, and none has one.
fn further_patterns(
    alloc: Global,
    tokens: &[Token],
    start: usize,
    bound: bool,
    first: Items<Pattern>,
) -> Result<(Items<Pattern>, usize), SolveError>
    requires within { start < length tokens.now }
    requires ended { IsEnded tokens.now }
    ensures reads { Answers (λ found. Read found.0 found.1) result (Loop (spec.pats_turn tokens.now bound) first start) }
    ensures within { IfOk result (λ found. found.1 < length tokens.now) }
    ensures after { IfOk result (λ found. start ≤ found.1) }
{
    let mut all = first;
    let mut at = start;
    'patterns: while sees(tokens, at, Mark::Comma) {
        if bound {
            return Err(refuse(tokens, at, Sought::Other));
        }
        let FoundPattern { tree, at: next, .. } = pattern(alloc, tokens, skip(tokens, at), false)?;
        all.push(tree)?;
        at = next;
    }
    Ok((all, at))
}

/// The patterns of a branch.
fn patterns(
    alloc: Global,
    tokens: &[Token],
    start: usize,
) -> Result<(Items<Pattern>, usize), SolveError>
    requires within { start < length tokens.now }
    requires ended { IsEnded tokens.now }
    ensures reads { Answers (λ found. Read found.0 found.1) result (grammar.pats tokens.now start) }
    ensures within { IfOk result (λ found. found.1 < length tokens.now) }
    ensures after { IfOk result (λ found. start < found.1) }
{
    let FoundPattern { tree, binds, at } = pattern(alloc, tokens, start, true)?;
    let first = one(alloc, tree)?;
    further_patterns(alloc, tokens, at, binds, first)
}

impl<F> Blocks<'_, F>
where
    F: Fn(Global, &[Token], usize, usize) -> Result<(Items<Stmt>, usize), SolveError>,
{
    /// The patterns of a branch and its block.
    fn match_branch(&self, start: usize) -> Result<(MatchBranch, usize), SolveError>
        requires nests { NestsBlocks self.now.room (F.pre self.now.inner) (F.post self.now.inner) }
        requires within { start < length self.now.tokens.now }
        requires ended { IsEnded self.now.tokens.now }
        ensures reads { Answers (λ found. Read found.0 found.1) result (spec.match_branch self.now.tokens.now self.now.room start) }
        ensures within { IfOk result (λ found. found.1 < length self.now.tokens.now) }
        ensures after { IfOk result (λ found. start < found.1) }
    {
        let (all, head) = patterns(self.alloc, self.tokens, start)?;
        let open = due(self.tokens, head, Sought::Other, Mark::Colon)?;
        let (body, end) = self.inner(open)?;
        let branch = MatchBranch {
            patterns: all,
            body,
        };
        Ok((branch, end))
    }

    /// The branches of a `match`, up to the end of its body.
    pub fn match_branches(&self, start: usize) -> Result<(Items<MatchBranch>, usize), SolveError>
        requires nests { NestsBlocks self.now.room (F.pre self.now.inner) (F.post self.now.inner) }
        requires within { start < length self.now.tokens.now }
        requires ended { IsEnded self.now.tokens.now }
        ensures reads { Answers (λ found. Read found.0 found.1) result (Loop (spec.match_turn self.now.tokens.now self.now.room) [] start) }
        ensures within { IfOk result (λ found. found.1 < length self.now.tokens.now) }
        ensures after { IfOk result (λ found. start ≤ found.1) }
    {
        let mut branches = Items::new(self.alloc);
        let mut at = start;
        'branches: while !sees(self.tokens, at, Mark::Dedent) {
            let (branch, next) = self.match_branch(at)?;
            branches.push(branch)?;
            at = next;
        }
        Ok((branches, at))
    }
}
