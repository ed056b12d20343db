//! Calls of dictionaries, by a method and its arguments.
ghost use Rattle.std.specs.Prelude.{◌≡◌, [], ◌∷◌, true, false, IfOk};
ghost use Rattle.variant_values.specs.Heaps.{cell_at, is_dict, knows, KnowsAll};
ghost use Rattle.variant_values.specs.StringMethods.{with_given};
ghost use Rattle.variant_values.specs.Changes.{HasGiven, Keeps};
ghost use Rattle.variant_values.specs.ContainerCalls.{dict_call_of, dict_in, truth_in};
ghost use Rattle.variant_values.specs.Copies.{dict_duplicate_of};
ghost use Rattle.call_support.specs.Retaining.{RetainsAsMuch};

use crate::array_calls::BAD_ARGS;
use crate::dicts;
use bulk_changes::merges::merge;
use call_support::arguments::{dict_in, truth_in};
use deep_copies::deep_copy;
use ref_objects::heap::Heap;
use std::alloc::Global;
use variant_values::container_methods::DictMethod;
use variant_values::faults::Trouble;
use variant_values::values::{Serial, Value};

fn with_none(
    alloc: Global,
    heap: &mut Heap,
    method: DictMethod,
    of: Serial,
) -> Result<Value, Trouble>
    requires { is_dict (cell_at heap.old.state.cells of.0) ≡ true }
    ensures given { HasGiven result heap.old.state heap.new.state (dict_call_of heap.old.state method of []) }
    ensures keeps { Keeps heap.old.state.cells heap.new.state.cells }
    ensures kept { RetainsAsMuch heap.old.state heap.new.state }
    ensures known { IfOk result (λ v. knows heap.new.state.cells v ≡ true) }
{
    match method {
        DictMethod::Size => Ok(dicts::size(heap, of)?),
        DictMethod::IsEmpty => Ok(dicts::is_empty(heap, of)?),
        DictMethod::Keys => dicts::keys(alloc, heap, of),
        DictMethod::Values => dicts::values(alloc, heap, of),
        DictMethod::Clear => dicts::clear(heap, of),
        DictMethod::Duplicate => dicts::duplicate(alloc, heap, of),
        DictMethod::Has | DictMethod::Get | DictMethod::Erase | DictMethod::Merge => Err(BAD_ARGS),
    }
}

fn duplicate(alloc: Global, heap: &mut Heap, of: Serial, deep: &Value) -> Result<Value, Trouble>
    requires { is_dict (cell_at heap.old.state.cells of.0) ≡ true }
    ensures given { HasGiven result heap.old.state heap.new.state (with_given (truth_in deep.now) (λ deep. dict_duplicate_of heap.old.state of deep)) }
    ensures keeps { Keeps heap.old.state.cells heap.new.state.cells }
    ensures kept { RetainsAsMuch heap.old.state heap.new.state }
    ensures known { IfOk result (λ v. knows heap.new.state.cells v ≡ true) }
{
    match truth_in(deep) {
        Some(true) => deep_copy(alloc, heap, &Value::Dict(of)),
        Some(false) => dicts::duplicate(alloc, heap, of),
        None => Err(BAD_ARGS),
    }
}

fn merge_missing(heap: &mut Heap, of: Serial, other: &Value) -> Result<Value, Trouble>
    requires dict { is_dict (cell_at heap.old.state.cells of.0) ≡ true }
    requires other { knows heap.old.state.cells other.now ≡ true }
    ensures given { HasGiven result heap.old.state heap.new.state (dict_call_of heap.old.state DictMethod.Merge of (other.now ∷ [])) }
    ensures keeps { Keeps heap.old.state.cells heap.new.state.cells }
    ensures kept { RetainsAsMuch heap.old.state heap.new.state }
    ensures known { IfOk result (λ v. knows heap.new.state.cells v ≡ true) }
{
    match dict_in(heap, other) {
        Some(other) => merge(heap, of, other, false),
        None => Err(BAD_ARGS),
    }
}

fn with_one(
    alloc: Global,
    heap: &mut Heap,
    method: DictMethod,
    of: Serial,
    v: &Value,
) -> Result<Value, Trouble>
    requires dict { is_dict (cell_at heap.old.state.cells of.0) ≡ true }
    requires value { knows heap.old.state.cells v.now ≡ true }
    ensures given { HasGiven result heap.old.state heap.new.state (dict_call_of heap.old.state method of (v.now ∷ [])) }
    ensures keeps { Keeps heap.old.state.cells heap.new.state.cells }
    ensures kept { RetainsAsMuch heap.old.state heap.new.state }
    ensures known { IfOk result (λ v. knows heap.new.state.cells v ≡ true) }
{
    match method {
        DictMethod::Has => dicts::has(heap, of, v),
        DictMethod::Get => dicts::get(heap, of, v, &Value::Null),
        DictMethod::Erase => dicts::erase(heap, of, v),
        DictMethod::Duplicate => duplicate(alloc, heap, of, v),
        DictMethod::Merge => merge_missing(heap, of, v),
        DictMethod::Size
        | DictMethod::IsEmpty
        | DictMethod::Keys
        | DictMethod::Values
        | DictMethod::Clear => Err(BAD_ARGS),
    }
}

fn merge_with(
    heap: &mut Heap,
    of: Serial,
    other: &Value,
    overwrite: &Value,
) -> Result<Value, Trouble>
    requires dict { is_dict (cell_at heap.old.state.cells of.0) ≡ true }
    requires other { knows heap.old.state.cells other.now ≡ true }
    ensures given { HasGiven result heap.old.state heap.new.state (dict_call_of heap.old.state DictMethod.Merge of (other.now ∷ overwrite.now ∷ [])) }
    ensures keeps { Keeps heap.old.state.cells heap.new.state.cells }
    ensures kept { RetainsAsMuch heap.old.state heap.new.state }
    ensures known { IfOk result (λ v. knows heap.new.state.cells v ≡ true) }
{
    match (dict_in(heap, other), truth_in(overwrite)) {
        (Some(other), Some(overwrite)) => merge(heap, of, other, overwrite),
        _ => Err(BAD_ARGS),
    }
}

fn with_two(
    heap: &mut Heap,
    method: DictMethod,
    of: Serial,
    v: &Value,
    w: &Value,
) -> Result<Value, Trouble>
    requires dict { is_dict (cell_at heap.old.state.cells of.0) ≡ true }
    requires first { knows heap.old.state.cells v.now ≡ true }
    requires second { knows heap.old.state.cells w.now ≡ true }
    ensures given { HasGiven result heap.old.state heap.new.state (dict_call_of heap.old.state method of (v.now ∷ w.now ∷ [])) }
    ensures keeps { Keeps heap.old.state.cells heap.new.state.cells }
    ensures kept { RetainsAsMuch heap.old.state heap.new.state }
    ensures known { IfOk result (λ v. knows heap.new.state.cells v ≡ true) }
{
    match method {
        DictMethod::Get => dicts::get(heap, of, v, w),
        DictMethod::Merge => merge_with(heap, of, v, w),
        DictMethod::Size
        | DictMethod::IsEmpty
        | DictMethod::Has
        | DictMethod::Keys
        | DictMethod::Values
        | DictMethod::Erase
        | DictMethod::Clear
        | DictMethod::Duplicate => Err(BAD_ARGS),
    }
}

/// Calls a method of a dictionary. A method without a result gives null. The fault is the first of these that applies:
/// `BadArgs` where the number or a kind of the arguments is wrong; `BadKey` where a value can be no key; `TooDeep` where a deep
/// copy passes a limit; `TooLong` where a container would have more than 1,048,576 items; `HeapFull`. What is new is held by no
/// caller yet.
pub fn dict_call(
    alloc: Global,
    heap: &mut Heap,
    method: DictMethod,
    of: Serial,
    args: &[Value],
) -> Result<Value, Trouble>
    requires dict { is_dict (cell_at heap.old.state.cells of.0) ≡ true }
    requires args { KnowsAll heap.old.state.cells args.now }
    ensures given { HasGiven result heap.old.state heap.new.state (dict_call_of heap.old.state method of args.now) }
    ensures keeps { Keeps heap.old.state.cells heap.new.state.cells }
    ensures kept { RetainsAsMuch heap.old.state heap.new.state }
    ensures known { IfOk result (λ v. knows heap.new.state.cells v ≡ true) }
{
    match args {
        [] => with_none(alloc, heap, method, of),
        [v] => with_one(alloc, heap, method, of, v),
        [v, w] => with_two(heap, method, of, v, w),
        [_, _, _, ..] => Err(BAD_ARGS),
    }
}
