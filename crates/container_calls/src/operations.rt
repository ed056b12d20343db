// The operators on all values.
ghost use Rattle.std.specs.Prelude.{◌≡◌, ◌++◌, true, false, List, Option, IfOk};
ghost use Rattle.variant_values.specs.declared.operators.BinaryOp.TheVariants.{Rem, Add};
ghost use Rattle.variant_values.specs.Heaps.{cell_at, is_array, items_of, knows, KnowsAll};
ghost use Rattle.variant_values.specs.Operators.{binary_of, is_container, is_text, key_of, Answers};
ghost use Rattle.variant_values.specs.Changes.{looked, Keeps, HasGiven};
ghost use Rattle.variant_values.specs.declared.cells.Cell.{Cell as ACell};
ghost use Rattle.variant_values.specs.ValueTexts.{Names};
ghost use Rattle.variant_values.specs.Operations.{added, answered, arrays_joined, denied, has_key, in_text, is_found, is_part, is_value_op, operated, remainder, within};
ghost use Rattle.container_calls.specs.Walks.{is_plain_op};
ghost use Rattle.call_support.specs.Retaining.{RetainsAsMuch};

use crate::comparisons::{equality, first_equal};
use crate::elements::common;
use call_support::changes::new_array;
use call_support::views::{element, entries, items};
use ref_objects::heap::Heap;
use std::alloc::{AllocError, Global};
use variant_values::entries::Entries;
use variant_values::faults::{RunFault, Trouble};
use variant_values::operators::{BinaryOp, MOST_ITEMS, binary};
use variant_values::texts::Str;
use variant_values::values::{Key, Serial, Value};

fn is_container(v: &Value) -> bool
    ensures { result ≡ is_container v.now }
{
    match v {
        Value::Array(_) => true,
        Value::Dict(_) => true,
        _ => false,
    }
}

fn answered(answer: Result<bool, RunFault>) -> Result<Value, Trouble>
    ensures { Answers result (answered answer) }
{
    match answer {
        Ok(b) => Ok(Value::Bool(b)),
        Err(fault) => Err(Trouble::Fault(fault)),
    }
}

fn denied(answer: Result<bool, RunFault>) -> Result<Value, Trouble>
    ensures { Answers result (denied answer) }
{
    match answer {
        Ok(b) => Ok(Value::Bool(!b)),
        Err(fault) => Err(Trouble::Fault(fault)),
    }
}

fn is_found(found: Result<Option<usize>, RunFault>) -> Result<Value, Trouble>
    ensures { Answers result (is_found found) }
{
    match found {
        Ok(place) => Ok(Value::Bool(place.is_some())),
        Err(fault) => Err(Trouble::Fault(fault)),
    }
}

fn has_key(entries: &Entries, v: &Value) -> Result<Value, Trouble>
    ensures { Answers result (has_key entries.now (key_of v.now)) }
{
    match Key::of(v) {
        Ok(key) => Ok(Value::Bool(entries.get(&key).is_some())),
        Err(Trouble::Fault(_)) => Err(Trouble::Fault(RunFault::BadOperands)),
        Err(Trouble::NoMemory) => Err(Trouble::NoMemory),
    }
}

fn is_part(part: &Str, text: &Str) -> bool
    ensures { result ≡ is_part part.now text.now }
{
    text.as_str().contains(part.as_str())
}

fn in_text(a: &Value, text: &Str) -> Result<Value, Trouble>
    ensures { Answers result (in_text a.now text.now) }
{
    match a {
        Value::Str(part) => Ok(Value::Bool(is_part(part, text))),
        _ => Err(Trouble::Fault(RunFault::BadOperands)),
    }
}

/// `a in b`. A text stands in a text, an item in an array, a key in a dictionary.
fn within(heap: &Heap, a: &Value, b: &Value) -> Result<Value, Trouble>
    requires left { knows heap.now.state.cells a.now ≡ true }
    requires right { knows heap.now.state.cells b.now ≡ true }
    ensures { Answers result (within heap.now.state.cells a.now b.now) }
{
    match b {
        Value::Array(s) => is_found(first_equal(heap, a, items(heap, *s))),
        Value::Dict(s) => has_key(entries(heap, *s), a),
        Value::Str(text) => in_text(a, text),
        _ => Err(Trouble::Fault(RunFault::BadOperands)),
    }
}

/// The items of two arrays, one after the other.
fn joined_items(alloc: Global, a: &[Value], b: &[Value]) -> Result<Vec<Value>, AllocError>
    ensures { IfOk result (λ both. both.items ≡ a.now ++ b.now) }
{
    let mut both = a.to_vec(alloc)?;
    let mut second = b.to_vec(alloc)?;
    both.append(&mut second)?;
    Ok(both)
}

fn join_arrays(alloc: Global, heap: &mut Heap, a: Serial, b: Serial) -> Result<Value, Trouble>
    requires left { is_array (cell_at heap.old.state.cells a.0) ≡ true }
    requires right { is_array (cell_at heap.old.state.cells b.0) ≡ true }
    ensures given { HasGiven result heap.old.state heap.new.state (arrays_joined heap.old.state a.0 b.0) }
    ensures keeps { Keeps heap.old.state.cells heap.new.state.cells }
    ensures kept { RetainsAsMuch heap.old.state heap.new.state }
    ensures known { IfOk result (λ v. knows heap.new.state.cells v ≡ true) }
{
    let both = joined_items(alloc, items(heap, a), items(heap, b))?;
    if both.len() > MOST_ITEMS {
        return Err(Trouble::Fault(RunFault::TooLong));
    }
    let of = common(element(heap, a), element(heap, b));
    new_array(heap, both, of)
}

/// Values under an operator that looks at no cell.
fn plain(alloc: Global, op: BinaryOp, a: &Value, b: &Value) -> Result<Value, Trouble>
    requires operator { is_plain_op op ≡ true }
    requires format { op ≡ Rem → is_text a.now ≡ false }
    ensures { Answers result (binary_of op a.now b.now) }
{
    if is_container(a) {
        return Err(Trouble::Fault(RunFault::BadOperands));
    }
    if is_container(b) {
        return Err(Trouble::Fault(RunFault::BadOperands));
    }
    binary(alloc, op, a, b)
}

fn add(alloc: Global, heap: &mut Heap, a: &Value, b: &Value) -> Result<Value, Trouble>
    requires left { knows heap.old.state.cells a.now ≡ true }
    requires right { knows heap.old.state.cells b.now ≡ true }
    ensures given { HasGiven result heap.old.state heap.new.state (added heap.old.state a.now b.now) }
    ensures keeps { Keeps heap.old.state.cells heap.new.state.cells }
    ensures kept { RetainsAsMuch heap.old.state heap.new.state }
    ensures known { IfOk result (λ v. knows heap.new.state.cells v ≡ true) }
{
    match (a, b) {
        (Value::Array(a), Value::Array(b)) => join_arrays(alloc, heap, *a, *b),
        _ => plain(alloc, BinaryOp::Add, a, b),
    }
}

/// `a % b`, where `a` is no text.
fn remainder(alloc: Global, a: &Value, b: &Value) -> Result<Value, Trouble>
    requires { is_text a.now ≡ false }
    ensures value { (names : Names) (cells : List (Option ACell)) → Answers result (remainder names cells a.now b.now) }
    ensures known { (cells : List (Option ACell)) → IfOk result (λ v. knows cells v ≡ true) }
{
    plain(alloc, BinaryOp::Rem, a, b)
}

/// The value of a binary operation. `and` and `or` are read elsewhere, and so is a text before `%`.
pub fn operate(
    alloc: Global,
    heap: &mut Heap,
    op: BinaryOp,
    a: &Value,
    b: &Value,
) -> Result<Value, Trouble>
    requires left { knows heap.old.state.cells a.now ≡ true }
    requires right { knows heap.old.state.cells b.now ≡ true }
    requires operator { is_value_op op ≡ true }
    requires format { op ≡ Rem → is_text a.now ≡ false }
    ensures given { (names : Names) → HasGiven result heap.old.state heap.new.state (operated names heap.old.state op a.now b.now) }
    ensures keeps { Keeps heap.old.state.cells heap.new.state.cells }
    ensures kept { RetainsAsMuch heap.old.state heap.new.state }
    ensures known { IfOk result (λ v. knows heap.new.state.cells v ≡ true) }
{
    match op {
        BinaryOp::Within => within(heap, a, b),
        BinaryOp::Eq => answered(equality(heap, a, b)),
        BinaryOp::Ne => denied(equality(heap, a, b)),
        BinaryOp::Add => add(alloc, heap, a, b),
        BinaryOp::Rem => remainder(alloc, a, b),
        _ => plain(alloc, op, a, b),
    }
}
