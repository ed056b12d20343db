// Patterns. One that is free may hold a `var`.
//
// The rules take the reader of a whole pattern as a parameter, so that each is proved by itself.
ghost use Rattle.std.specs.Prelude.{◌≡◌, ◌≢◌, ◌+◌, ◌-◌, ◌<◌, ◌≤◌, true, false, ◌||◌, [], ◌∷◌, List, ℕ, length, Some, Err, IfOk};
ghost use Rattle.gd_syntax.specs.Reading.{Read, Answers, Look, Loop};
ghost use Rattle.gd_syntax.specs.TokenReading.{IsEnded, max_levels, kind_at, mark_at, place_at, mark_of};
ghost use Rattle.gd_syntax.specs.PatternGrammar as grammar;
ghost use Rattle.gd_syntax.specs.StatementGrammar as branches;
ghost use Rattle.gd_parser.specs.PatternForms as spec;
ghost use Rattle.gd_parser.specs.FoundPatterns.{Nests, IsPattern, IsPatterns, IsEntry, IsEntries, found, found_patterns, found_entry, found_entries};

use crate::found_patterns::{FoundEntries, FoundEntry, FoundPattern, FoundPatterns};
use gd_exprs::MAX_LEVELS;
use gd_exprs::reader::{
    any_name, due, fault_at, fits, identifier, kind_at, literal, mark_at, next_kind, one_name,
    place_at, plain_name, refuse, sees, skip,
};
use gd_syntax::{
    FaultKind, Form, Kind, Literal, Mark, Name, Pattern, PatternEntry, Place, SolveError, Sought,
    Token,
};
use std::alloc::Global;
use tree_lists::{Boxed, Items};

/// `when` is a keyword after a pattern.
fn is_when(kind: &Kind) -> bool
    ensures { result ≡ grammar.is_when kind.now }
{
    match kind {
        Kind::Name(name) => name.is_word("when"),
        _ => false,
    }
}

/// Whether a pattern begins with this token.
fn mark_begins(free: bool, mark: Mark) -> bool
    ensures { result ≡ spec.begins free (Kind.Mark mark) }
{
    match mark {
        Mark::Null | Mark::Yes | Mark::No | Mark::Minus | Mark::LBracket | Mark::LBrace => true,
        Mark::Var => free,
        _ => false,
    }
}

fn begins(free: bool, kind: &Kind) -> bool
    ensures { result ≡ spec.begins free kind.now }
{
    match kind {
        Kind::Int(_) | Kind::Text(_) => true,
        Kind::Name(name) => name.is_plain(),
        Kind::Mark(mark) => mark_begins(free, *mark),
    }
}

/// The refusal where no pattern may begin any more.
pub fn full(tokens: &[Token], at: usize, free: bool) -> SolveError
    requires within { at < length tokens.now }
    requires ended { IsEnded tokens.now }
    ensures { Answers found (Err result) (spec.full tokens.now free at) }
{
    if begins(free, kind_at(tokens, at)) {
        fault_at(tokens, at, FaultKind::NestTooDeep)
    } else {
        refuse(tokens, at, Sought::Other)
    }
}

/// `_` alone is the wildcard.
fn is_wildcard(names: &Items<Name>) -> bool
    ensures { result ≡ spec.is_wildcard names.now }
{
    match names.as_slice() {
        [name] => name.is_word("_"),
        _ => false,
    }
}

fn path_pattern(place: Place, names: Items<Name>) -> Pattern
    ensures { result ≡ grammar.path_pattern place names }
{
    if is_wildcard(&names) {
        Pattern::Wildcard(place)
    } else {
        Pattern::Path(place, names)
    }
}

/// Whether no item begins with this token, after the bracket that opens a list.
fn ends_items(closing: Mark, mark: Option<Mark>) -> bool
    ensures { result ≡ grammar.ends_items closing mark }
{
    match (closing, mark) {
        (_, Some(Mark::Comma | Mark::DotDot)) => true,
        (Mark::RBrace, Some(Mark::RBrace)) => true,
        (Mark::RBracket, Some(Mark::RBracket)) => true,
        _ => false,
    }
}

/// Whether an item follows a comma.
fn goes_on(kind: &Kind, next: &Kind) -> bool
    ensures { result ≡ grammar.goes_on (mark_of kind.now) (mark_of next.now) }
{
    match (kind, next) {
        (Kind::Mark(Mark::Comma), Kind::Mark(Mark::DotDot)) => false,
        (Kind::Mark(Mark::Comma), _) => true,
        _ => false,
    }
}

/// The `..` that may end a list, also behind a comma, and whether it does.
fn rest(tokens: &[Token], at: usize) -> Result<(bool, usize), SolveError>
    requires within { at < length tokens.now }
    requires ended { IsEnded tokens.now }
    ensures reads { Answers (λ found. Read found.0 found.1) result (Look (mark_at tokens.now) (grammar.rest_by tokens.now) at) }
    ensures within { IfOk result (λ found. found.1 < length tokens.now) }
    ensures after { IfOk result (λ found. at ≤ found.1) }
{
    if sees(tokens, at, Mark::Comma) {
        let next = due(tokens, skip(tokens, at), Sought::Other, Mark::DotDot)?;
        return Ok((true, next));
    }
    if sees(tokens, at, Mark::DotDot) {
        return Ok((true, skip(tokens, at)));
    }
    Ok((false, at))
}

#[derive(Clone, Copy)]
pub struct Patterns<'a, F> {
    pub alloc: Global,
    pub tokens: &'a [Token],
    /// How many levels there may still be.
    pub room: usize,
    /// Whether a `var` may stand in it.
    pub free: bool,
    pub inner: F,
}

impl<F> Patterns<'_, F>
where
    F: Fn(Global, &[Token], usize, usize, bool) -> Result<FoundPattern, SolveError>,
{
    /// A pattern inside the one that has begun.
    fn inner(&self, at: usize) -> Result<FoundPattern, SolveError>
        requires nests { Nests (self.now.room - 1) (F.pre self.now.inner) (F.post self.now.inner) }
        requires within { at < length self.now.tokens.now }
        requires ended { IsEnded self.now.tokens.now }
        requires some { 1 ≤ self.now.room }
        ensures reads { Answers found result (spec.inner self.now.tokens.now self.now.free self.now.room at) }
        ensures found { IfOk result (IsPattern self.now.tokens.now at) }
    {
        (self.inner)(self.alloc, self.tokens, at, self.room - 1, self.free)
    }

    /// `var` and its name.
    fn bind(&self, at: usize) -> Result<FoundPattern, SolveError>
        requires within { at < length self.now.tokens.now }
        requires ended { IsEnded self.now.tokens.now }
        requires begins { mark_at self.now.tokens.now at ≡ Some Mark.Var }
        ensures reads { Answers found result (spec.bind self.now.tokens.now self.now.free self.now.room (place_at self.now.tokens.now at) at) }
        ensures found { IfOk result (IsPattern self.now.tokens.now at) }
    {
        if !self.free {
            return Err(refuse(self.tokens, at, Sought::Other));
        }
        let place = place_at(self.tokens, at);
        let (name, next) = identifier(self.tokens, skip(self.tokens, at))?;
        Ok(FoundPattern {
            tree: Pattern::Bind(place, name),
            binds: true,
            at: next,
        })
    }

    /// A literal behind `-`.
    fn negative(&self, at: usize) -> Result<FoundPattern, SolveError>
        requires within { at < length self.now.tokens.now }
        requires ended { IsEnded self.now.tokens.now }
        requires begins { mark_at self.now.tokens.now at ≡ Some Mark.Minus }
        ensures reads { Answers found result (spec.negative self.now.tokens.now self.now.free self.now.room (place_at self.now.tokens.now at) at) }
        ensures found { IfOk result (IsPattern self.now.tokens.now at) }
    {
        let place = place_at(self.tokens, at);
        let start = skip(self.tokens, at);
        match literal(kind_at(self.tokens, start))? {
            Some(value) => Ok(FoundPattern {
                tree: Pattern::Literal(place, true, value),
                binds: false,
                at: skip(self.tokens, start),
            }),
            None => Err(refuse(self.tokens, start, Sought::Other)),
        }
    }

    /// The names after the first, each behind a dot.
    fn names(&self, start: usize, first: Items<Name>) -> Result<(Items<Name>, usize), SolveError>
        requires within { start < length self.now.tokens.now }
        requires ended { IsEnded self.now.tokens.now }
        ensures reads { Answers (λ found. Read found.0 found.1) result (Loop (spec.path_step self.now.tokens.now self.now.free self.now.room) first start) }
        ensures within { IfOk result (λ found. found.1 < length self.now.tokens.now) }
        ensures after { IfOk result (λ found. start ≤ found.1) }
    {
        let mut names = first;
        let mut at = start;
        'names: while sees(self.tokens, at, Mark::Dot) {
            let (name, next) = any_name(self.tokens, skip(self.tokens, at), Sought::Other)?;
            names.push(name)?;
            at = next;
        }
        Ok((names, at))
    }

    fn path(&self, at: usize) -> Result<FoundPattern, SolveError>
        requires within { at < length self.now.tokens.now }
        requires ended { IsEnded self.now.tokens.now }
        ensures reads { Answers found result (spec.path self.now.tokens.now self.now.free self.now.room (place_at self.now.tokens.now at) at) }
        ensures found { IfOk result (IsPattern self.now.tokens.now at) }
    {
        let place = place_at(self.tokens, at);
        let (name, next) = plain_name(self.tokens, at, Sought::Other)?;
        let first = one_name(self.alloc, name)?;
        let (names, end) = self.names(next, first)?;
        Ok(FoundPattern {
            tree: path_pattern(place, names),
            binds: false,
            at: end,
        })
    }

    /// The items of an array behind the first.
    fn more(&self, first: FoundPattern) -> Result<FoundPatterns, SolveError>
        requires nests { Nests (self.now.room - 1) (F.pre self.now.inner) (F.post self.now.inner) }
        requires ended { IsEnded self.now.tokens.now }
        requires some { 1 ≤ self.now.room }
        requires within { first.at < length self.now.tokens.now }
        requires binds { first.binds ≡ branches.binds first.tree }
        ensures reads { Answers found_patterns result (Loop (spec.more self.now.tokens.now self.now.free self.now.room) (first.tree ∷ []) first.at) }
        ensures found { IfOk result (IsPatterns self.now.tokens.now first.at) }
    {
        let FoundPattern {
            tree,
            mut binds,
            mut at,
        } = first;
        let mut items = Items::new(self.alloc);
        items.push(tree)?;
        'items: while goes_on(kind_at(self.tokens, at), next_kind(self.tokens, at)) {
            let FoundPattern {
                tree,
                binds: more,
                at: next,
            } = self.inner(skip(self.tokens, at))?;
            items.push(tree)?;
            binds = binds | more;
            at = next;
        }
        Ok(FoundPatterns { items, binds, at })
    }

    fn items(&self, start: usize) -> Result<FoundPatterns, SolveError>
        requires nests { Nests (self.now.room - 1) (F.pre self.now.inner) (F.post self.now.inner) }
        requires within { start < length self.now.tokens.now }
        requires ended { IsEnded self.now.tokens.now }
        requires some { 1 ≤ self.now.room }
        ensures reads { Answers found_patterns result (spec.items self.now.tokens.now self.now.free self.now.room start) }
        ensures found { IfOk result (IsPatterns self.now.tokens.now start) }
    {
        if ends_items(Mark::RBracket, mark_at(self.tokens, start)) {
            return Ok(FoundPatterns {
                items: Items::new(self.alloc),
                binds: false,
                at: start,
            });
        }
        let first = self.inner(start)?;
        self.more(first)
    }

    fn array(&self, at: usize) -> Result<FoundPattern, SolveError>
        requires nests { Nests (self.now.room - 1) (F.pre self.now.inner) (F.post self.now.inner) }
        requires within { at < length self.now.tokens.now }
        requires ended { IsEnded self.now.tokens.now }
        requires some { 1 ≤ self.now.room }
        requires begins { mark_at self.now.tokens.now at ≡ Some Mark.LBracket }
        ensures reads { Answers found result (spec.array self.now.tokens.now self.now.free self.now.room (place_at self.now.tokens.now at) at) }
        ensures found { IfOk result (IsPattern self.now.tokens.now at) }
    {
        let place = place_at(self.tokens, at);
        let FoundPatterns {
            items,
            binds,
            at: end,
        } = self.items(skip(self.tokens, at))?;
        let (unended, end) = rest(self.tokens, end)?;
        let end = due(self.tokens, end, Sought::Other, Mark::RBracket)?;
        Ok(FoundPattern {
            tree: Pattern::Array(place, items, unended),
            binds,
            at: end,
        })
    }

    /// The key of an entry, which is a leaf.
    fn key(&self, at: usize) -> Result<(Literal, usize), SolveError>
        requires within { at < length self.now.tokens.now }
        requires ended { IsEnded self.now.tokens.now }
        ensures reads { Answers (λ found. Read found.0 found.1) result (spec.key self.now.tokens.now self.now.free self.now.room at) }
        ensures within { IfOk result (λ found. found.1 < length self.now.tokens.now) }
        ensures next { IfOk result (λ found. found.1 ≡ at + 1) }
    {
        let value = literal(kind_at(self.tokens, at))?;
        match value {
            Some(value) => {
                fits(self.tokens, at, self.room, 2)?;
                Ok((value, skip(self.tokens, at)))
            }
            None => Err(refuse(self.tokens, at, Sought::Other)),
        }
    }

    /// `key: pattern`, or the key alone.
    fn entry(&self, start: usize) -> Result<FoundEntry, SolveError>
        requires nests { Nests (self.now.room - 1) (F.pre self.now.inner) (F.post self.now.inner) }
        requires within { start < length self.now.tokens.now }
        requires ended { IsEnded self.now.tokens.now }
        requires some { 1 ≤ self.now.room }
        ensures reads { Answers found_entry result (spec.entry self.now.tokens.now self.now.free self.now.room start) }
        ensures found { IfOk result (IsEntry self.now.tokens.now start) }
    {
        let place = place_at(self.tokens, start);
        let (key, at) = self.key(start)?;
        if !sees(self.tokens, at, Mark::Colon) {
            return Ok(FoundEntry {
                tree: PatternEntry {
                    place,
                    key,
                    value: None,
                },
                binds: false,
                at,
            });
        }
        let FoundPattern {
            tree,
            binds,
            at: end,
        } = self.inner(skip(self.tokens, at))?;
        let value = Boxed::new(self.alloc, tree)?;
        Ok(FoundEntry {
            tree: PatternEntry {
                place,
                key,
                value: Some(value),
            },
            binds,
            at: end,
        })
    }

    /// The entries of a dictionary behind the first.
    fn more_entries(&self, first: FoundEntry) -> Result<FoundEntries, SolveError>
        requires nests { Nests (self.now.room - 1) (F.pre self.now.inner) (F.post self.now.inner) }
        requires ended { IsEnded self.now.tokens.now }
        requires some { 1 ≤ self.now.room }
        requires within { first.at < length self.now.tokens.now }
        requires binds { first.binds ≡ branches.entry_binds first.tree }
        ensures reads { Answers found_entries result (Loop (spec.more_entries self.now.tokens.now self.now.free self.now.room) (first.tree ∷ []) first.at) }
        ensures found { IfOk result (IsEntries self.now.tokens.now first.at) }
    {
        let FoundEntry {
            tree,
            mut binds,
            mut at,
        } = first;
        let mut items = Items::new(self.alloc);
        items.push(tree)?;
        'items: while goes_on(kind_at(self.tokens, at), next_kind(self.tokens, at)) {
            let FoundEntry {
                tree,
                binds: more,
                at: next,
            } = self.entry(skip(self.tokens, at))?;
            items.push(tree)?;
            binds = binds | more;
            at = next;
        }
        Ok(FoundEntries { items, binds, at })
    }

    fn entries(&self, start: usize) -> Result<FoundEntries, SolveError>
        requires nests { Nests (self.now.room - 1) (F.pre self.now.inner) (F.post self.now.inner) }
        requires within { start < length self.now.tokens.now }
        requires ended { IsEnded self.now.tokens.now }
        requires some { 1 ≤ self.now.room }
        ensures reads { Answers found_entries result (spec.entries self.now.tokens.now self.now.free self.now.room start) }
        ensures found { IfOk result (IsEntries self.now.tokens.now start) }
    {
        if ends_items(Mark::RBrace, mark_at(self.tokens, start)) {
            return Ok(FoundEntries {
                items: Items::new(self.alloc),
                binds: false,
                at: start,
            });
        }
        let first = self.entry(start)?;
        self.more_entries(first)
    }

    fn dict(&self, at: usize) -> Result<FoundPattern, SolveError>
        requires nests { Nests (self.now.room - 1) (F.pre self.now.inner) (F.post self.now.inner) }
        requires within { at < length self.now.tokens.now }
        requires ended { IsEnded self.now.tokens.now }
        requires some { 1 ≤ self.now.room }
        requires begins { mark_at self.now.tokens.now at ≡ Some Mark.LBrace }
        ensures reads { Answers found result (spec.dict self.now.tokens.now self.now.free self.now.room (place_at self.now.tokens.now at) at) }
        ensures found { IfOk result (IsPattern self.now.tokens.now at) }
    {
        let place = place_at(self.tokens, at);
        let FoundEntries {
            items,
            binds,
            at: end,
        } = self.entries(skip(self.tokens, at))?;
        let (unended, end) = rest(self.tokens, end)?;
        let end = due(self.tokens, end, Sought::Other, Mark::RBrace)?;
        Ok(FoundPattern {
            tree: Pattern::Dict(place, items, unended),
            binds,
            at: end,
        })
    }

    fn marked(&self, at: usize, mark: Mark) -> Result<FoundPattern, SolveError>
        requires nests { Nests (self.now.room - 1) (F.pre self.now.inner) (F.post self.now.inner) }
        requires within { at < length self.now.tokens.now }
        requires ended { IsEnded self.now.tokens.now }
        requires some { 1 ≤ self.now.room }
        requires begins { kind_at self.now.tokens.now at ≡ Kind.Mark mark }
        ensures reads { Answers found result (spec.other self.now.tokens.now self.now.free self.now.room (place_at self.now.tokens.now at) at) }
        ensures found { IfOk result (IsPattern self.now.tokens.now at) }
    {
        match mark {
            Mark::Var => self.bind(at),
            Mark::Minus => self.negative(at),
            Mark::LBracket => self.array(at),
            Mark::LBrace => self.dict(at),
            _ => self.path(at),
        }
    }

    /// A pattern that begins with no literal.
    fn other(&self, at: usize) -> Result<FoundPattern, SolveError>
        requires nests { Nests (self.now.room - 1) (F.pre self.now.inner) (F.post self.now.inner) }
        requires within { at < length self.now.tokens.now }
        requires ended { IsEnded self.now.tokens.now }
        requires some { 1 ≤ self.now.room }
        ensures reads { Answers found result (spec.other self.now.tokens.now self.now.free self.now.room (place_at self.now.tokens.now at) at) }
        ensures found { IfOk result (IsPattern self.now.tokens.now at) }
    {
        match kind_at(self.tokens, at) {
            Kind::Mark(mark) => self.marked(at, *mark),
            _ => self.path(at),
        }
    }

    /// All of a pattern, before what may not follow it.
    fn unfinished(&self, at: usize) -> Result<FoundPattern, SolveError>
        requires nests { Nests (self.now.room - 1) (F.pre self.now.inner) (F.post self.now.inner) }
        requires within { at < length self.now.tokens.now }
        requires ended { IsEnded self.now.tokens.now }
        requires some { 1 ≤ self.now.room }
        ensures reads { Answers found result (spec.unfinished self.now.tokens.now self.now.free self.now.room (place_at self.now.tokens.now at) at) }
        ensures found { IfOk result (IsPattern self.now.tokens.now at) }
    {
        let value = literal(kind_at(self.tokens, at))?;
        match value {
            Some(value) => Ok(FoundPattern {
                tree: Pattern::Literal(place_at(self.tokens, at), false, value),
                binds: false,
                at: skip(self.tokens, at),
            }),
            None => self.other(at),
        }
    }

    fn form(&self, at: usize) -> Result<FoundPattern, SolveError>
        requires nests { Nests (self.now.room - 1) (F.pre self.now.inner) (F.post self.now.inner) }
        requires within { at < length self.now.tokens.now }
        requires ended { IsEnded self.now.tokens.now }
        requires some { 1 ≤ self.now.room }
        ensures reads { Answers found result (spec.form self.now.tokens.now self.now.free self.now.room at) }
        ensures found { IfOk result (IsPattern self.now.tokens.now at) }
    {
        let whole = self.unfinished(at)?;
        if is_when(kind_at(self.tokens, whole.at)) {
            return Err(fault_at(self.tokens, whole.at, FaultKind::Unsupported(Form::When)));
        }
        Ok(whole)
    }
}

/// A pattern, where there is room for so many levels.
fn pattern_at(
    alloc: Global,
    tokens: &[Token],
    at: usize,
    room: usize,
    free: bool,
) -> Result<FoundPattern, SolveError>
    requires within { at < length tokens.now }
    requires ended { IsEnded tokens.now }
    ensures reads { Answers found result (spec.pattern tokens.now free room at) }
    ensures found { IfOk result (IsPattern tokens.now at) }
{
    if room == 0 {
        return Err(full(tokens, at, free));
    }
    Patterns {
        alloc,
        tokens,
        room,
        free,
        inner: pattern_at,
    }
    .form(at)
}

/// The pattern from `at`, in which a `var` may stand or not.
pub fn pattern(
    alloc: Global,
    tokens: &[Token],
    at: usize,
    free: bool,
) -> Result<FoundPattern, SolveError>
    requires within { at < length tokens.now }
    requires ended { IsEnded tokens.now }
    ensures reads { Answers found result (spec.pattern tokens.now free max_levels at) }
    ensures found { IfOk result (IsPattern tokens.now at) }
{
    pattern_at(alloc, tokens, at, MAX_LEVELS as usize, free)
}
