// Lists in brackets, where a comma may stand behind the last item. What is named `.._before` ends before the closing
// bracket.
ghost use Rattle.std.specs.Prelude.{◌≡◌, ◌≢◌, ◌+◌, ◌-◌, ◌<◌, ◌≤◌, [], length, IfOk};
ghost use Rattle.gd_syntax.specs.TokenReading.{IsEnded};
ghost use Rattle.gd_syntax.specs.Reading.{Read, Answers};
ghost use Rattle.gd_exprs.specs.Forms as spec;
ghost use Rattle.gd_exprs.specs.Nests.{Nests, IsFound, IsEntry, IsField, IsList, IsEntries, IsFields, found_entry, found_field, found_list, found_entries, found_fields};

use crate::found::{Found, FoundEntries, FoundEntry, FoundField, FoundFields, FoundList};
use crate::levels::AS;
use crate::reader::{due, fits, kind_at, larger, place_at, refuse, sees, skip};
use crate::rules::Rules;
use gd_syntax::{Identifier, Kind, Mark, SolveError, Sought, Token};
use std::alloc::Global;
use tree_lists::Items;

impl<F: Fn(Global, &[Token], usize, usize, u8) -> Result<Found, SolveError>> Rules<'_, F> {
    /// Expressions, as arguments or as items of an array.
    fn args_before(&self, start: usize, closing: Mark) -> Result<FoundList, SolveError>
        requires nests { Nests (self.now.room - 1) (F.pre self.now.inner) (F.post self.now.inner) }
        requires within { start < length self.now.tokens.now }
        requires ended { IsEnded self.now.tokens.now }
        requires some { 1 ≤ self.now.room }
        ensures reads { Answers found_list result (spec.args_before self.now.tokens.now self.now.room closing [] start) }
        ensures found { IfOk result (IsList self.now.tokens.now (self.now.room - 1) start) }
    {
        let mut items = Items::new(self.alloc);
        let mut levels = 0;
        let mut at = start;
        'items: while !sees(self.tokens, at, closing) {
            let Found {
                tree,
                levels: deep,
                at: next,
            } = self.inner(at, 0, AS)?;
            items.push(tree.into_inner())?;
            levels = larger(levels, deep);
            at = next;
            let goes_on = sees(self.tokens, at, Mark::Comma);
            if !goes_on {
                return Ok(FoundList { items, levels, at });
            }
            at = skip(self.tokens, at);
        }
        Ok(FoundList { items, levels, at })
    }

    pub fn args(&self, start: usize, closing: Mark) -> Result<FoundList, SolveError>
        requires nests { Nests (self.now.room - 1) (F.pre self.now.inner) (F.post self.now.inner) }
        requires within { start < length self.now.tokens.now }
        requires ended { IsEnded self.now.tokens.now }
        requires some { 1 ≤ self.now.room }
        requires goes_on { closing ≢ Mark.End }
        ensures reads { Answers found_list result (spec.args self.now.tokens.now self.now.room closing start) }
        ensures found { IfOk result (IsList self.now.tokens.now (self.now.room - 1) start) }
        ensures closed { IfOk result (λ f. start < f.at) }
    {
        let FoundList { items, levels, at } = self.args_before(start, closing)?;
        let at = due(self.tokens, at, Sought::Other, closing)?;
        Ok(FoundList { items, levels, at })
    }

    /// `key: value`
    fn entry(&self, start: usize) -> Result<FoundEntry, SolveError>
        requires nests { Nests (self.now.room - 1) (F.pre self.now.inner) (F.post self.now.inner) }
        requires within { start < length self.now.tokens.now }
        requires ended { IsEnded self.now.tokens.now }
        requires some { 1 ≤ self.now.room }
        ensures reads { Answers found_entry result (spec.entry self.now.tokens.now self.now.room start) }
        ensures found { IfOk result (IsEntry self.now.tokens.now (self.now.room - 1) start) }
    {
        let Found {
            tree: key,
            levels: first,
            at,
        } = self.inner(start, 0, AS)?;
        let at = due(self.tokens, at, Sought::Other, Mark::Colon)?;
        let Found {
            tree: value,
            levels: second,
            at,
        } = self.inner(at, 0, AS)?;
        Ok(FoundEntry {
            key,
            value,
            levels: larger(first, second),
            at,
        })
    }

    /// Entries `key: value`.
    fn entries_before(&self, start: usize, closing: Mark) -> Result<FoundEntries, SolveError>
        requires nests { Nests (self.now.room - 1) (F.pre self.now.inner) (F.post self.now.inner) }
        requires within { start < length self.now.tokens.now }
        requires ended { IsEnded self.now.tokens.now }
        requires some { 1 ≤ self.now.room }
        ensures reads { Answers found_entries result (spec.entries_before self.now.tokens.now self.now.room closing [] start) }
        ensures found { IfOk result (IsEntries self.now.tokens.now (self.now.room - 1) start) }
    {
        let mut items = Items::new(self.alloc);
        let mut levels = 0;
        let mut at = start;
        'items: while !sees(self.tokens, at, closing) {
            let FoundEntry {
                key,
                value,
                levels: deep,
                at: next,
            } = self.entry(at)?;
            items.push((key.into_inner(), value.into_inner()))?;
            levels = larger(levels, deep);
            at = next;
            let goes_on = sees(self.tokens, at, Mark::Comma);
            if !goes_on {
                return Ok(FoundEntries { items, levels, at });
            }
            at = skip(self.tokens, at);
        }
        Ok(FoundEntries { items, levels, at })
    }

    pub fn entries(&self, start: usize, closing: Mark) -> Result<FoundEntries, SolveError>
        requires nests { Nests (self.now.room - 1) (F.pre self.now.inner) (F.post self.now.inner) }
        requires within { start < length self.now.tokens.now }
        requires ended { IsEnded self.now.tokens.now }
        requires some { 1 ≤ self.now.room }
        requires goes_on { closing ≢ Mark.End }
        ensures reads { Answers found_entries result (spec.entries self.now.tokens.now self.now.room closing start) }
        ensures found { IfOk result (IsEntries self.now.tokens.now (self.now.room - 1) start) }
        ensures closed { IfOk result (λ f. start < f.at) }
    {
        let FoundEntries { items, levels, at } = self.entries_before(start, closing)?;
        let at = due(self.tokens, at, Sought::Other, closing)?;
        Ok(FoundEntries { items, levels, at })
    }

    /// The name of an entry `name = value`, of which the value is still due.
    fn field_name(&self, at: usize) -> Result<(Identifier, usize), SolveError>
        requires within { at < length self.now.tokens.now }
        requires ended { IsEnded self.now.tokens.now }
        ensures reads { Answers (λ found. Read found.0 found.1) result (spec.field_name self.now.tokens.now self.now.room at) }
        ensures within { IfOk result (λ found. found.1 < length self.now.tokens.now) }
        ensures next { IfOk result (λ found. found.1 ≡ at + 1) }
    {
        match kind_at(self.tokens, at) {
            Kind::Name(name) => {
                if !name.is_plain() {
                    return Err(refuse(self.tokens, at, Sought::Other));
                }
                fits(self.tokens, at, self.room, 2)?;
                let place = place_at(self.tokens, at);
                let name = name.clone()?;
                Ok((Identifier { place, name }, skip(self.tokens, at)))
            }
            _ => Err(refuse(self.tokens, at, Sought::Other)),
        }
    }

    /// `name = value`
    fn field(&self, start: usize) -> Result<FoundField, SolveError>
        requires nests { Nests (self.now.room - 1) (F.pre self.now.inner) (F.post self.now.inner) }
        requires within { start < length self.now.tokens.now }
        requires ended { IsEnded self.now.tokens.now }
        requires some { 1 ≤ self.now.room }
        ensures reads { Answers found_field result (spec.field self.now.tokens.now self.now.room start) }
        ensures found { IfOk result (IsField self.now.tokens.now (self.now.room - 1) start) }
    {
        let (key, at) = self.field_name(start)?;
        let at = due(self.tokens, at, Sought::Other, Mark::Assign)?;
        let Found {
            tree: value,
            levels,
            at,
        } = self.inner(at, 0, AS)?;
        Ok(FoundField {
            key,
            value,
            levels,
            at,
        })
    }

    /// Entries `name = value`.
    fn fields_before(&self, start: usize, closing: Mark) -> Result<FoundFields, SolveError>
        requires nests { Nests (self.now.room - 1) (F.pre self.now.inner) (F.post self.now.inner) }
        requires within { start < length self.now.tokens.now }
        requires ended { IsEnded self.now.tokens.now }
        requires some { 1 ≤ self.now.room }
        ensures reads { Answers found_fields result (spec.fields_before self.now.tokens.now self.now.room closing [] start) }
        ensures found { IfOk result (IsFields self.now.tokens.now (self.now.room - 1) start) }
    {
        let mut items = Items::new(self.alloc);
        let mut levels = 0;
        let mut at = start;
        'items: while !sees(self.tokens, at, closing) {
            let FoundField {
                key,
                value,
                levels: deep,
                at: next,
            } = self.field(at)?;
            items.push((key, value.into_inner()))?;
            levels = larger(levels, deep);
            at = next;
            let goes_on = sees(self.tokens, at, Mark::Comma);
            if !goes_on {
                return Ok(FoundFields { items, levels, at });
            }
            at = skip(self.tokens, at);
        }
        Ok(FoundFields { items, levels, at })
    }

    pub fn fields(&self, start: usize, closing: Mark) -> Result<FoundFields, SolveError>
        requires nests { Nests (self.now.room - 1) (F.pre self.now.inner) (F.post self.now.inner) }
        requires within { start < length self.now.tokens.now }
        requires ended { IsEnded self.now.tokens.now }
        requires some { 1 ≤ self.now.room }
        requires goes_on { closing ≢ Mark.End }
        ensures reads { Answers found_fields result (spec.fields self.now.tokens.now self.now.room closing start) }
        ensures found { IfOk result (IsFields self.now.tokens.now (self.now.room - 1) start) }
        ensures closed { IfOk result (λ f. start < f.at) }
    {
        let FoundFields { items, levels, at } = self.fields_before(start, closing)?;
        let at = due(self.tokens, at, Sought::Other, closing)?;
        Ok(FoundFields { items, levels, at })
    }
}
