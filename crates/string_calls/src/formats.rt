// Formats of the operator `%` on a string.
ghost use Rattle.std.specs.Prelude.{◌≡◌, ◌≤◌, ◌||◌, true, length, option_map, Some, IfOk, IfSome, IsCharBoundary};
ghost use Rattle.variant_values.specs.ValueTexts.{is_within, items_in, most_levels, text_in};
ghost use Rattle.variant_values.specs.Heaps.{knows, KnowsAll};
ghost use Rattle.variant_values.specs.Operators.{Answers};
ghost use Rattle.string_calls.specs.Directives.{directive_of};
ghost use Rattle.variant_values.specs.declared.operators.BinaryOp.TheVariants.{Rem};
ghost use Rattle.variant_values.specs.Changes.{HasGiven};
ghost use Rattle.variant_values.specs.Operations.{operated, text_answer};
ghost use Rattle.string_calls.specs.Drafts.{Grows, Fills, Takes};
ghost use Rattle.variant_values.specs.Formats.{character_in, coded, filled_where, format_result, format_value, formatted_value, number_in, number_text, padded_text, pieces, plain};
ghost use Rattle.string_calls.specs.Passes.{formatted_after};

use crate::builders::StringBuilder;
use crate::directives::{Conversion, Directive, directive_at};
use crate::pieces::{write_number, write_padded_text};
use crate::searches::{begins_with, count_chars, split_first};
use crate::texts::text_within;
use call_support::arguments::natural;
use call_support::views::items;
use call_support::walks::is_within;
use ref_objects::heap::Heap;
use std::alloc::{AllocError, Global};
use std::slice;
use variant_values::classes::ClassNames;
use variant_values::faults::{RunFault, Trouble};
use variant_values::texts::Str;
use variant_values::values::Value;

/// What is written of a format so far, and whether it is to be refused once all of it has been looked at.
#[derive(Drop)]
struct Draft {
    out: StringBuilder,
    is_deep: bool,
    is_long: bool,
}

impl Draft {
    /// Whether no more text is kept.
    fn is_given_up(&self) -> bool
        ensures { result ≡ self.now.is_deep || self.now.is_long }
    {
        self.is_deep || self.is_long
    }

    fn add(&mut self, text: &str) -> Result<(), AllocError>
        ensures { IfOk result (λ _. Grows self.old self.new true text.now) }
    {
        if self.is_given_up() {
            return Ok(());
        }
        match self.out.write(text) {
            Ok(()) => Ok(()),
            Err(Trouble::Fault(_)) => {
                self.is_long = true;
                Ok(())
            }
            Err(Trouble::NoMemory) => Err(AllocError),
        }
    }

    fn add_padded(&mut self, d: &Directive, text: &str) -> Result<(), AllocError>
        ensures { IfOk result (λ _. Grows self.old self.new true (padded_text (directive_of d.now) text.now)) }
    {
        if self.is_given_up() {
            return Ok(());
        }
        match write_padded_text(&mut self.out, d, text) {
            Ok(()) => Ok(()),
            Err(Trouble::Fault(_)) => {
                self.is_long = true;
                Ok(())
            }
            Err(Trouble::NoMemory) => Err(AllocError),
        }
    }

    /// The text of a value. It is built only where it can still be of use, and its walk counted only where no other went too
    /// deep.
    fn add_text(
        &mut self,
        alloc: Global,
        heap: &Heap,
        d: &Directive,
        v: &Value,
        names: &ClassNames,
    ) -> Result<(), AllocError>
        requires { knows heap.now.state.cells v.now ≡ true }
        ensures { IfOk result (λ _. Grows self.old self.new (is_within (items_in most_levels heap.now.state.cells v.now)) (padded_text (directive_of d.now) (text_in most_levels heap.now.state.cells names.now v.now))) }
    {
        if self.is_deep {
            return Ok(());
        }
        if !is_within(heap, v) {
            self.is_deep = true;
            return Ok(());
        }
        if self.is_long {
            return Ok(());
        }
        match text_within(alloc, heap, v, names) {
            Ok(text) => self.add_padded(d, text.as_str()),
            Err(Trouble::Fault(_)) => {
                self.is_long = true;
                Ok(())
            }
            Err(Trouble::NoMemory) => Err(AllocError),
        }
    }

    fn add_character(&mut self, alloc: Global, d: &Directive, v: &Value) -> Result<bool, AllocError>
        ensures { IfOk result (λ ok. Fills self.old self.new ok (plain (option_map (padded_text (directive_of d.now)) (character_in v.now)))) }
    {
        match character_in(alloc, v)? {
            Some(text) => {
                self.add_padded(d, text.as_str())?;
                Ok(true)
            }
            None => Ok(false),
        }
    }

    fn add_int(&mut self, alloc: Global, d: &Directive, n: i64) -> Result<(), AllocError>
        ensures { IfOk result (λ _. Fills self.old self.new true (plain (Some (number_text (directive_of d.now) n)))) }
    {
        if self.is_given_up() {
            return Ok(());
        }
        match write_number(alloc, &mut self.out, d, n) {
            Ok(()) => Ok(()),
            Err(Trouble::Fault(_)) => {
                self.is_long = true;
                Ok(())
            }
            Err(Trouble::NoMemory) => Err(AllocError),
        }
    }

    fn add_number(&mut self, alloc: Global, d: &Directive, v: &Value) -> Result<bool, AllocError>
        ensures { IfOk result (λ ok. Fills self.old self.new ok (plain (number_in (directive_of d.now) v.now))) }
    {
        match v {
            Value::Int(n) => {
                self.add_int(alloc, d, *n)?;
                Ok(true)
            }
            _ => Ok(false),
        }
    }

    /// A value under a directive, or `false` where it is of another kind.
    fn add_value(
        &mut self,
        alloc: Global,
        heap: &Heap,
        d: &Directive,
        v: &Value,
        names: &ClassNames,
    ) -> Result<bool, AllocError>
        requires { knows heap.now.state.cells v.now ≡ true }
        ensures { IfOk result (λ ok. Fills self.old self.new ok (formatted_value heap.now.state.cells names.now (directive_of d.now) v.now)) }
    {
        match d.conversion {
            Conversion::Text => {
                self.add_text(alloc, heap, d, v, names)?;
                Ok(true)
            }
            Conversion::Character => self.add_character(alloc, d, v),
            Conversion::Decimal | Conversion::LowerHex | Conversion::UpperHex | Conversion::Octal =>
                self.add_number(alloc, d, v),
        }
    }

    /// What stands behind a `%`, or `None` for a bad format.
    fn take_directive(
        &mut self,
        alloc: Global,
        heap: &Heap,
        after: &str,
        left: &[Value],
        names: &ClassNames,
    ) -> Result<Option<Taken>, AllocError>
        requires { KnowsAll heap.now.state.cells left.now }
        ensures step { IfOk result (λ taken. Takes self.old self.new (formatted_value heap.now.state.cells names.now) taken after.now left.now) }
        ensures bounds { IfOk result (λ taken. IfSome taken (λ t. IsCharBoundary after.now t.bytes × (t.values ≤ length left.now))) }
    {
        if begins_with(after, "%") {
            self.add("%")?;
            return Ok(Some(Taken {
                bytes: 1,
                values: 0,
            }));
        }
        let Some(d) = directive_at(after.as_bytes()) else {
            return Ok(None);
        };
        let [v, ..] = left else {
            return Ok(None);
        };
        if !self.add_value(alloc, heap, &d, v, names)? {
            return Ok(None);
        }
        Ok(Some(Taken {
            bytes: d.size,
            values: 1,
        }))
    }

    /// A pattern with values, or `false` for a bad format.
    fn fill(
        &mut self,
        alloc: Global,
        heap: &Heap,
        pattern: &str,
        values: &[Value],
        names: &ClassNames,
    ) -> Result<bool, AllocError>
        requires { KnowsAll heap.now.state.cells values.now }
        ensures { IfOk result (λ ok. Fills self.old self.new ok (formatted_after (formatted_value heap.now.state.cells names.now) 0 pattern.now values.now)) }
    {
        let mut rest = pattern;
        let mut left = values;
        while let Some((before, after)) = split_first(rest, "%") {
            self.add(before)?;
            let Some(taken) = self.take_directive(alloc, heap, after, left, names)? else {
                return Ok(false);
            };
            rest = after.split_at(taken.bytes).1;
            left = left.split_at(taken.values).1;
        }
        if !left.is_empty() {
            return Ok(false);
        }
        self.add(rest)?;
        Ok(true)
    }
}

/// What a directive takes of the pattern and of the values.
#[derive(Clone, Copy)]
struct Taken {
    bytes: usize,
    values: usize,
}

/// The character of a code point.
fn coded(alloc: Global, code: Option<usize>) -> Result<Option<Str>, AllocError>
    ensures { IfOk result (λ text. text ≡ coded code) }
{
    let Some(code) = code else {
        return Ok(None);
    };
    if code > 0x10_FFFF {
        return Ok(None);
    }
    let Some(c) = char::from_u32(code as u32) else {
        return Ok(None);
    };
    let mut text = String::new(alloc);
    text.push(c)?;
    Ok(Some(Str::from_string(text)?))
}

fn one_character(text: &Str) -> Result<Option<Str>, AllocError>
    ensures { IfOk result (λ found. found ≡ character_in (Value.Str text.now)) }
{
    if count_chars(text.as_str()) == 1 {
        Ok(Some(text.clone()?))
    } else {
        Ok(None)
    }
}

/// The character that `c` shows.
fn character_in(alloc: Global, v: &Value) -> Result<Option<Str>, AllocError>
    ensures { IfOk result (λ text. text ≡ character_in v.now) }
{
    match v {
        Value::Int(n) => coded(alloc, natural(*n)),
        Value::Str(text) => one_character(text),
        _ => Ok(None),
    }
}

fn format_values(
    alloc: Global,
    heap: &Heap,
    pattern: &Str,
    values: &[Value],
    names: &ClassNames,
) -> Result<Str, Trouble>
    requires { KnowsAll heap.now.state.cells values.now }
    ensures { Answers result (format_result (filled_where (formatted_value heap.now.state.cells names.now) (pieces pattern.now) values.now)) }
{
    let mut draft = Draft {
        out: StringBuilder::new(alloc),
        is_deep: false,
        is_long: false,
    };
    if !draft.fill(alloc, heap, pattern.as_str(), values, names)? {
        return Err(Trouble::Fault(RunFault::BadFormat));
    }
    if draft.is_deep {
        return Err(Trouble::Fault(RunFault::TooDeep));
    }
    if draft.is_long {
        return Err(Trouble::Fault(RunFault::TooLong));
    }
    Ok(draft.out.finish()?)
}

fn formatted(
    alloc: Global,
    heap: &Heap,
    pattern: &Str,
    arg: &Value,
    names: &ClassNames,
) -> Result<Str, Trouble>
    requires { knows heap.now.state.cells arg.now ≡ true }
    ensures { Answers result (format_value heap.now.state.cells names.now pattern.now arg.now) }
{
    match arg {
        Value::Array(s) => format_values(alloc, heap, pattern, items(heap, *s), names),
        _ => format_values(alloc, heap, pattern, slice::from_ref(arg), names),
    }
}

/// A pattern with the values of an array, or with one value, in the places of its directives. `BadFormat` for a breach of
/// the pattern's form, a value of another kind, and too few or too many values; then `TooDeep` and `TooLong` as for texts. It
/// is the operator `%` on a text (`operator`).
pub fn format_text(
    alloc: Global,
    heap: &Heap,
    pattern: &Str,
    arg: &Value,
    names: &ClassNames,
) -> Result<Str, Trouble>
    requires { knows heap.now.state.cells arg.now ≡ true }
    ensures value { Answers result (format_value heap.now.state.cells names.now pattern.now arg.now) }
    ensures operator { HasGiven (text_answer result) heap.now.state heap.now.state (operated names.now heap.now.state Rem (Value.Str pattern.now) arg.now) }
{
    formatted(alloc, heap, pattern, arg, names)
}
