// Operands.
ghost use Rattle.std.specs.Prelude.{◌≡◌, ◌≢◌, ◌+◌, ◌-◌, ◌<◌, ◌≤◌, true, false, length, Some, List, ℕ, IfOk};
ghost use Rattle.gd_syntax.specs.TokenReading.{IsEnded, kind_at, mark_at, place_at, is_plain, plain_name, mark_of};
ghost use Rattle.gd_syntax.specs.Reading.{Read, On, Answers};
ghost use Rattle.gd_exprs.specs.Forms as spec;
ghost use Rattle.gd_exprs.specs.Nests.{Nests, IsFound, IsPart, found, found_turn};
ghost use Rattle.gd_syntax.specs.Refusals.{is_load};
ghost use Rattle.gd_syntax.specs.Reading.{Loop};
ghost use Rattle.gd_syntax.specs.ExprGrammar as grammar;
ghost use Rattle.gd_syntax.specs.Levels as depth;

use crate::found::{Found, FoundEntries, FoundFields, FoundList};
use crate::levels::AS;
use crate::reader::{
    any_name, due, fits, kind_at, literal, next_kind, one_name, path_text, place_at, plain_name,
    refuse, sees, skip,
};
use crate::rules::Rules;
use gd_syntax::{Expr, Kind, Mark, Name, Place, SolveError, Sought, Token};
use std::alloc::Global;
use tree_lists::{Boxed, Items};

/// Whether the two tokens begin an entry `name = value`.
fn is_field(kind: &Kind, next: &Kind) -> bool
    ensures { result ≡ grammar.is_field kind.now (mark_of next.now) }
{
    match (kind, next) {
        (Kind::Name(name), Kind::Mark(Mark::Assign)) => name.is_plain(),
        _ => false,
    }
}

/// Whether the two tokens go on a node path.
fn is_step(kind: &Kind, next: &Kind) -> bool
    ensures { result ≡ grammar.is_step (mark_of kind.now) (plain_name next.now) }
{
    match (kind, next) {
        (Kind::Mark(Mark::Slash), Kind::Name(name)) => name.is_plain(),
        _ => false,
    }
}

impl<F: Fn(Global, &[Token], usize, usize, u8) -> Result<Found, SolveError>> Rules<'_, F> {
    /// A form of one token and one level.
    fn leaf(&self, at: usize, tree: Expr) -> Result<Found, SolveError>
        requires within { at < length self.now.tokens.now }
        requires ended { IsEnded self.now.tokens.now }
        requires some { 1 ≤ self.now.room }
        requires goes_on { mark_at self.now.tokens.now at ≢ Some Mark.End }
        requires leaf { depth.levels tree ≡ 1 }
        ensures reads { Answers found result (grammar.leaf self.now.tokens.now self.now.room (spec.inner self.now.tokens.now self.now.room) tree at) }
        ensures found { IfOk result (IsFound self.now.tokens.now self.now.room at) }
    {
        let tree = Boxed::new(self.alloc, tree)?;
        Ok(Found {
            tree,
            levels: 1,
            at: skip(self.tokens, at),
        })
    }

    fn paren(&self, at: usize) -> Result<Found, SolveError>
        requires nests { Nests (self.now.room - 1) (F.pre self.now.inner) (F.post self.now.inner) }
        requires within { at < length self.now.tokens.now }
        requires ended { IsEnded self.now.tokens.now }
        requires some { 1 ≤ self.now.room }
        requires begins { kind_at self.now.tokens.now at ≡ Kind.Mark Mark.LParen }
        ensures reads { Answers found result (spec.other self.now.tokens.now self.now.room at) }
        ensures found { IfOk result (IsFound self.now.tokens.now self.now.room at) }
    {
        let place = place_at(self.tokens, at);
        fits(self.tokens, at, self.room, 2)?;
        let Found { tree, levels, at } = self.inner(skip(self.tokens, at), 0, AS)?;
        let end = due(self.tokens, at, Sought::Other, Mark::RParen)?;
        Ok(Found {
            tree: Boxed::new(self.alloc, Expr::Paren(place, tree))?,
            levels: levels + 1,
            at: end,
        })
    }

    fn array(&self, at: usize) -> Result<Found, SolveError>
        requires nests { Nests (self.now.room - 1) (F.pre self.now.inner) (F.post self.now.inner) }
        requires within { at < length self.now.tokens.now }
        requires ended { IsEnded self.now.tokens.now }
        requires some { 1 ≤ self.now.room }
        requires begins { kind_at self.now.tokens.now at ≡ Kind.Mark Mark.LBracket }
        ensures reads { Answers found result (spec.other self.now.tokens.now self.now.room at) }
        ensures found { IfOk result (IsFound self.now.tokens.now self.now.room at) }
    {
        let place = place_at(self.tokens, at);
        let FoundList { items, levels, at } = self.args(skip(self.tokens, at), Mark::RBracket)?;
        Ok(Found {
            tree: Boxed::new(self.alloc, Expr::Array(place, items))?,
            levels: levels + 1,
            at,
        })
    }

    /// The entries `name = value` of a dictionary.
    fn table(&self, place: Place, at: usize) -> Result<Found, SolveError>
        requires nests { Nests (self.now.room - 1) (F.pre self.now.inner) (F.post self.now.inner) }
        requires within { at < length self.now.tokens.now }
        requires ended { IsEnded self.now.tokens.now }
        requires some { 1 ≤ self.now.room }
        requires begins { grammar.is_field (kind_at self.now.tokens.now at) (mark_at self.now.tokens.now (at + 1)) ≡ true }
        ensures reads { Answers found result (spec.after_brace self.now.tokens.now self.now.room place at) }
        ensures found { IfOk result (IsFound self.now.tokens.now self.now.room at) }
    {
        let FoundFields { items, levels, at } = self.fields(at, Mark::RBrace)?;
        Ok(Found {
            tree: Boxed::new(self.alloc, Expr::Table(place, items))?,
            levels: levels + 1,
            at,
        })
    }

    /// The entries `key: value` of a dictionary.
    fn pairs(&self, place: Place, at: usize) -> Result<Found, SolveError>
        requires nests { Nests (self.now.room - 1) (F.pre self.now.inner) (F.post self.now.inner) }
        requires within { at < length self.now.tokens.now }
        requires ended { IsEnded self.now.tokens.now }
        requires some { 1 ≤ self.now.room }
        requires begins { grammar.is_field (kind_at self.now.tokens.now at) (mark_at self.now.tokens.now (at + 1)) ≡ false }
        ensures reads { Answers found result (spec.after_brace self.now.tokens.now self.now.room place at) }
        ensures found { IfOk result (IsFound self.now.tokens.now self.now.room at) }
    {
        let FoundEntries { items, levels, at } = self.entries(at, Mark::RBrace)?;
        Ok(Found {
            tree: Boxed::new(self.alloc, Expr::Dict(place, items))?,
            levels: levels + 1,
            at,
        })
    }

    /// What stands after `{`.
    fn after_brace(&self, place: Place, at: usize) -> Result<Found, SolveError>
        requires nests { Nests (self.now.room - 1) (F.pre self.now.inner) (F.post self.now.inner) }
        requires within { at < length self.now.tokens.now }
        requires ended { IsEnded self.now.tokens.now }
        requires some { 1 ≤ self.now.room }
        ensures reads { Answers found result (spec.after_brace self.now.tokens.now self.now.room place at) }
        ensures found { IfOk result (IsFound self.now.tokens.now self.now.room at) }
    {
        if is_field(kind_at(self.tokens, at), next_kind(self.tokens, at)) {
            self.table(place, at)
        } else {
            self.pairs(place, at)
        }
    }

    fn dict(&self, at: usize) -> Result<Found, SolveError>
        requires nests { Nests (self.now.room - 1) (F.pre self.now.inner) (F.post self.now.inner) }
        requires within { at < length self.now.tokens.now }
        requires ended { IsEnded self.now.tokens.now }
        requires some { 1 ≤ self.now.room }
        requires begins { kind_at self.now.tokens.now at ≡ Kind.Mark Mark.LBrace }
        ensures reads { Answers found result (spec.other self.now.tokens.now self.now.room at) }
        ensures found { IfOk result (IsFound self.now.tokens.now self.now.room at) }
    {
        let place = place_at(self.tokens, at);
        self.after_brace(place, skip(self.tokens, at))
    }

    fn preload(&self, at: usize) -> Result<Found, SolveError>
        requires nests { Nests (self.now.room - 1) (F.pre self.now.inner) (F.post self.now.inner) }
        requires within { at < length self.now.tokens.now }
        requires ended { IsEnded self.now.tokens.now }
        requires some { 1 ≤ self.now.room }
        requires begins { kind_at self.now.tokens.now at ≡ Kind.Mark Mark.Preload }
        ensures reads { Answers found result (spec.other self.now.tokens.now self.now.room at) }
        ensures found { IfOk result (IsFound self.now.tokens.now self.now.room at) }
    {
        let place = place_at(self.tokens, at);
        let start = due(
            self.tokens,
            skip(self.tokens, at),
            Sought::Other,
            Mark::LParen,
        )?;
        let (path, next) = path_text(self.tokens, start, Sought::Other)?;
        let end = due(self.tokens, next, Sought::Other, Mark::RParen)?;
        Ok(Found {
            tree: Boxed::new(self.alloc, Expr::Preload(place, path))?,
            levels: 1,
            at: end,
        })
    }

    fn load(&self, at: usize, name: &Name) -> Result<Found, SolveError>
        requires nests { Nests (self.now.room - 1) (F.pre self.now.inner) (F.post self.now.inner) }
        requires within { at < length self.now.tokens.now }
        requires ended { IsEnded self.now.tokens.now }
        requires some { 1 ≤ self.now.room }
        requires begins { kind_at self.now.tokens.now at ≡ Kind.Name name.now }
        requires word { is_plain name.now ≡ false }
        requires is_load { is_load name.now ≡ true }
        ensures reads { Answers found result (spec.other self.now.tokens.now self.now.room at) }
        ensures found { IfOk result (IsFound self.now.tokens.now self.now.room at) }
    {
        let place = place_at(self.tokens, at);
        let start = due(
            self.tokens,
            skip(self.tokens, at),
            Sought::Other,
            Mark::LParen,
        )?;
        let (path, next) = path_text(self.tokens, start, Sought::LoadPath)?;
        let end = due(self.tokens, next, Sought::LoadPath, Mark::RParen)?;
        Ok(Found {
            tree: Boxed::new(self.alloc, Expr::Load(place, path))?,
            levels: 1,
            at: end,
        })
    }

    fn named(&self, at: usize, name: &Name) -> Result<Found, SolveError>
        requires nests { Nests (self.now.room - 1) (F.pre self.now.inner) (F.post self.now.inner) }
        requires within { at < length self.now.tokens.now }
        requires ended { IsEnded self.now.tokens.now }
        requires some { 1 ≤ self.now.room }
        requires begins { kind_at self.now.tokens.now at ≡ Kind.Name name.now }
        ensures reads { Answers found result (spec.other self.now.tokens.now self.now.room at) }
        ensures found { IfOk result (IsFound self.now.tokens.now self.now.room at) }
    {
        if name.is_plain() {
            let place = place_at(self.tokens, at);
            let name = name.clone()?;
            return self.leaf(at, Expr::Name(place, name));
        }
        if name.is_load() {
            return self.load(at, name);
        }
        Err(refuse(self.tokens, at, Sought::Operand))
    }

    fn super_arguments(&self, place: Place, at: usize) -> Result<Found, SolveError>
        requires nests { Nests (self.now.room - 1) (F.pre self.now.inner) (F.post self.now.inner) }
        requires within { at < length self.now.tokens.now }
        requires ended { IsEnded self.now.tokens.now }
        requires some { 1 ≤ self.now.room }
        requires begins { mark_at self.now.tokens.now at ≡ Some Mark.LParen }
        ensures reads { Answers found result (spec.after_super self.now.tokens.now self.now.room place at) }
        ensures found { IfOk result (IsFound self.now.tokens.now self.now.room at) }
    {
        let FoundList { items, levels, at } = self.args(skip(self.tokens, at), Mark::RParen)?;
        Ok(Found {
            tree: Boxed::new(self.alloc, Expr::Super(place, items))?,
            levels: levels + 1,
            at,
        })
    }

    fn super_member(&self, place: Place, at: usize) -> Result<Found, SolveError>
        requires nests { Nests (self.now.room - 1) (F.pre self.now.inner) (F.post self.now.inner) }
        requires within { at < length self.now.tokens.now }
        requires ended { IsEnded self.now.tokens.now }
        requires some { 1 ≤ self.now.room }
        requires begins { mark_at self.now.tokens.now at ≡ Some Mark.Dot }
        ensures reads { Answers found result (spec.after_super self.now.tokens.now self.now.room place at) }
        ensures found { IfOk result (IsFound self.now.tokens.now self.now.room at) }
    {
        let (name, next) = any_name(self.tokens, skip(self.tokens, at), Sought::Other)?;
        let start = due(self.tokens, next, Sought::Other, Mark::LParen)?;
        let FoundList { items, levels, at } = self.args(start, Mark::RParen)?;
        Ok(Found {
            tree: Boxed::new(self.alloc, Expr::SuperCall(place, name, items))?,
            levels: levels + 1,
            at,
        })
    }

    /// What stands after `super`.
    fn after_super(&self, place: Place, at: usize) -> Result<Found, SolveError>
        requires nests { Nests (self.now.room - 1) (F.pre self.now.inner) (F.post self.now.inner) }
        requires within { at < length self.now.tokens.now }
        requires ended { IsEnded self.now.tokens.now }
        requires some { 1 ≤ self.now.room }
        ensures reads { Answers found result (spec.after_super self.now.tokens.now self.now.room place at) }
        ensures found { IfOk result (IsFound self.now.tokens.now self.now.room at) }
    {
        if sees(self.tokens, at, Mark::LParen) {
            return self.super_arguments(place, at);
        }
        if sees(self.tokens, at, Mark::Dot) {
            return self.super_member(place, at);
        }
        Err(refuse(self.tokens, at, Sought::Other))
    }

    fn super_form(&self, at: usize) -> Result<Found, SolveError>
        requires nests { Nests (self.now.room - 1) (F.pre self.now.inner) (F.post self.now.inner) }
        requires within { at < length self.now.tokens.now }
        requires ended { IsEnded self.now.tokens.now }
        requires some { 1 ≤ self.now.room }
        requires begins { kind_at self.now.tokens.now at ≡ Kind.Mark Mark.Super }
        ensures reads { Answers found result (spec.other self.now.tokens.now self.now.room at) }
        ensures found { IfOk result (IsFound self.now.tokens.now self.now.room at) }
    {
        let place = place_at(self.tokens, at);
        self.after_super(place, skip(self.tokens, at))
    }

    /// The names of a node path behind the first.
    fn steps(&self, start: usize, first: Items<Name>) -> Result<(Items<Name>, usize), SolveError>
        requires within { start < length self.now.tokens.now }
        requires ended { IsEnded self.now.tokens.now }
        ensures reads { Answers (λ found. Read found.0 found.1) result (Loop (spec.step self.now.tokens.now self.now.room) first start) }
        ensures within { IfOk result (λ found. found.1 < length self.now.tokens.now) }
        ensures after { IfOk result (λ found. start ≤ found.1) }
    {
        let mut names = first;
        let mut at = start;
        'names: while is_step(kind_at(self.tokens, at), next_kind(self.tokens, at)) {
            let (name, next) = plain_name(self.tokens, skip(self.tokens, at), Sought::Other)?;
            names.push(name)?;
            at = next;
        }
        Ok((names, at))
    }

    fn node_names(&self, place: Place, at: usize) -> Result<Found, SolveError>
        requires nests { Nests (self.now.room - 1) (F.pre self.now.inner) (F.post self.now.inner) }
        requires within { at < length self.now.tokens.now }
        requires ended { IsEnded self.now.tokens.now }
        requires some { 1 ≤ self.now.room }
        requires begins { (text : List ℕ) → kind_at self.now.tokens.now at ≢ Kind.Text text }
        ensures reads { Answers found result (spec.after_dollar self.now.tokens.now self.now.room place at) }
        ensures found { IfOk result (IsFound self.now.tokens.now self.now.room at) }
    {
        let (name, next) = plain_name(self.tokens, at, Sought::Node)?;
        let first = one_name(self.alloc, name)?;
        let (names, end) = self.steps(next, first)?;
        Ok(Found {
            tree: Boxed::new(self.alloc, Expr::NodePath(place, names))?,
            levels: 1,
            at: end,
        })
    }

    /// What stands after `$`.
    fn after_dollar(&self, place: Place, at: usize) -> Result<Found, SolveError>
        requires nests { Nests (self.now.room - 1) (F.pre self.now.inner) (F.post self.now.inner) }
        requires within { at < length self.now.tokens.now }
        requires ended { IsEnded self.now.tokens.now }
        requires some { 1 ≤ self.now.room }
        ensures reads { Answers found result (spec.after_dollar self.now.tokens.now self.now.room place at) }
        ensures found { IfOk result (IsFound self.now.tokens.now self.now.room at) }
    {
        match kind_at(self.tokens, at) {
            Kind::Text(text) => {
                let text = text.clone()?;
                self.leaf(at, Expr::NodeText(place, text))
            }
            _ => self.node_names(place, at),
        }
    }

    fn node(&self, at: usize) -> Result<Found, SolveError>
        requires nests { Nests (self.now.room - 1) (F.pre self.now.inner) (F.post self.now.inner) }
        requires within { at < length self.now.tokens.now }
        requires ended { IsEnded self.now.tokens.now }
        requires some { 1 ≤ self.now.room }
        requires begins { kind_at self.now.tokens.now at ≡ Kind.Mark Mark.Dollar }
        ensures reads { Answers found result (spec.other self.now.tokens.now self.now.room at) }
        ensures found { IfOk result (IsFound self.now.tokens.now self.now.room at) }
    {
        let place = place_at(self.tokens, at);
        self.after_dollar(place, skip(self.tokens, at))
    }

    fn this(&self, at: usize) -> Result<Found, SolveError>
        requires nests { Nests (self.now.room - 1) (F.pre self.now.inner) (F.post self.now.inner) }
        requires within { at < length self.now.tokens.now }
        requires ended { IsEnded self.now.tokens.now }
        requires some { 1 ≤ self.now.room }
        requires begins { kind_at self.now.tokens.now at ≡ Kind.Mark Mark.This }
        ensures reads { Answers found result (spec.other self.now.tokens.now self.now.room at) }
        ensures found { IfOk result (IsFound self.now.tokens.now self.now.room at) }
    {
        let place = place_at(self.tokens, at);
        self.leaf(at, Expr::This(place))
    }

    fn marked(&self, at: usize, mark: Mark) -> Result<Found, SolveError>
        requires nests { Nests (self.now.room - 1) (F.pre self.now.inner) (F.post self.now.inner) }
        requires within { at < length self.now.tokens.now }
        requires ended { IsEnded self.now.tokens.now }
        requires some { 1 ≤ self.now.room }
        requires begins { kind_at self.now.tokens.now at ≡ Kind.Mark mark }
        ensures reads { Answers found result (spec.other self.now.tokens.now self.now.room at) }
        ensures found { IfOk result (IsFound self.now.tokens.now self.now.room at) }
    {
        match mark {
            Mark::This => self.this(at),
            Mark::LParen => self.paren(at),
            Mark::LBracket => self.array(at),
            Mark::LBrace => self.dict(at),
            Mark::Preload => self.preload(at),
            Mark::Super => self.super_form(at),
            Mark::Dollar => self.node(at),
            _ => Err(refuse(self.tokens, at, Sought::Operand)),
        }
    }

    /// An operand that is no literal.
    fn other(&self, at: usize) -> Result<Found, SolveError>
        requires nests { Nests (self.now.room - 1) (F.pre self.now.inner) (F.post self.now.inner) }
        requires within { at < length self.now.tokens.now }
        requires ended { IsEnded self.now.tokens.now }
        requires some { 1 ≤ self.now.room }
        ensures reads { Answers found result (spec.other self.now.tokens.now self.now.room at) }
        ensures found { IfOk result (IsFound self.now.tokens.now self.now.room at) }
    {
        match kind_at(self.tokens, at) {
            Kind::Name(name) => self.named(at, name),
            Kind::Mark(mark) => self.marked(at, *mark),
            Kind::Int(_) => Err(refuse(self.tokens, at, Sought::Operand)),
            Kind::Text(_) => Err(refuse(self.tokens, at, Sought::Operand)),
        }
    }

    pub fn operand(&self, at: usize) -> Result<Found, SolveError>
        requires nests { Nests (self.now.room - 1) (F.pre self.now.inner) (F.post self.now.inner) }
        requires within { at < length self.now.tokens.now }
        requires ended { IsEnded self.now.tokens.now }
        requires some { 1 ≤ self.now.room }
        ensures reads { Answers found result (spec.operand self.now.tokens.now self.now.room at) }
        ensures found { IfOk result (IsFound self.now.tokens.now self.now.room at) }
    {
        let value = literal(kind_at(self.tokens, at))?;
        match value {
            Some(value) => {
                let place = place_at(self.tokens, at);
                self.leaf(at, Expr::Literal(place, value))
            }
            None => self.other(at),
        }
    }
}
