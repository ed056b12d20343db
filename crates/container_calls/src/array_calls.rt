//! Calls of arrays, by a method and its arguments.
ghost use Rattle.std.specs.Prelude.{◌≡◌, [], ◌∷◌, true, IfOk};
ghost use Rattle.variant_values.specs.Heaps.{cell_at, is_array, knows, KnowsAll};
ghost use Rattle.variant_values.specs.StringMethods.{array_in, int_in, with_given};
ghost use Rattle.variant_values.specs.Changes.{HasGiven, Keeps};
ghost use Rattle.variant_values.specs.ArrayMethods.{append_array_of, remove_at_of, slice_from_of};
ghost use Rattle.variant_values.specs.ContainerCalls.{array_call_of, truth_in};
ghost use Rattle.variant_values.specs.Copies.{array_duplicate_of};
ghost use Rattle.variant_values.specs.Resizes.{resize_of};
ghost use Rattle.call_support.specs.Retaining.{RetainsAsMuch};

use crate::arrays;
use crate::sorts::sort;
use bulk_changes::resizes::resize;
use call_support::arguments::{array_in, int_in, truth_in};
use deep_copies::deep_copy;
use ref_objects::heap::Heap;
use std::alloc::Global;
use variant_values::container_methods::ArrayMethod;
use variant_values::faults::{RunFault, Trouble};
use variant_values::values::{Serial, Value};

/// Where the number of arguments or the kind of one is wrong.
pub(crate) const BAD_ARGS: Trouble = Trouble::Fault(RunFault::BadArgs);

fn with_none(
    alloc: Global,
    heap: &mut Heap,
    method: ArrayMethod,
    of: Serial,
) -> Result<Value, Trouble>
    requires { is_array (cell_at heap.old.state.cells of.0) ≡ true }
    ensures given { HasGiven result heap.old.state heap.new.state (array_call_of heap.old.state method of []) }
    ensures keeps { Keeps heap.old.state.cells heap.new.state.cells }
    ensures kept { RetainsAsMuch heap.old.state heap.new.state }
    ensures known { IfOk result (λ v. knows heap.new.state.cells v ≡ true) }
{
    match method {
        ArrayMethod::Size => Ok(arrays::size(heap, of)?),
        ArrayMethod::IsEmpty => Ok(arrays::is_empty(heap, of)?),
        ArrayMethod::PopBack => arrays::pop_back(alloc, heap, of),
        ArrayMethod::PopFront => arrays::pop_front(alloc, heap, of),
        ArrayMethod::Front => arrays::front(heap, of),
        ArrayMethod::Back => arrays::back(heap, of),
        ArrayMethod::Clear => arrays::clear(alloc, heap, of),
        ArrayMethod::Reverse => arrays::reverse(alloc, heap, of),
        ArrayMethod::Sort => sort(alloc, heap, of),
        ArrayMethod::Duplicate => arrays::duplicate(alloc, heap, of),
        ArrayMethod::Append
        | ArrayMethod::PushBack
        | ArrayMethod::PushFront
        | ArrayMethod::Insert
        | ArrayMethod::RemoveAt
        | ArrayMethod::Erase
        | ArrayMethod::Has
        | ArrayMethod::Find
        | ArrayMethod::Count
        | ArrayMethod::Slice
        | ArrayMethod::AppendArray
        | ArrayMethod::Resize
        | ArrayMethod::Fill => Err(BAD_ARGS),
    }
}

fn remove_at(alloc: Global, heap: &mut Heap, of: Serial, index: &Value) -> Result<Value, Trouble>
    requires { is_array (cell_at heap.old.state.cells of.0) ≡ true }
    ensures given { HasGiven result heap.old.state heap.new.state (with_given (int_in index.now) (λ i. remove_at_of heap.old.state of.0 i)) }
    ensures keeps { Keeps heap.old.state.cells heap.new.state.cells }
    ensures kept { RetainsAsMuch heap.old.state heap.new.state }
    ensures known { IfOk result (λ v. knows heap.new.state.cells v ≡ true) }
{
    match int_in(index) {
        Some(i) => arrays::remove_at(alloc, heap, of, i),
        None => Err(BAD_ARGS),
    }
}

fn slice_from(alloc: Global, heap: &mut Heap, of: Serial, from: &Value) -> Result<Value, Trouble>
    requires { is_array (cell_at heap.old.state.cells of.0) ≡ true }
    ensures given { HasGiven result heap.old.state heap.new.state (with_given (int_in from.now) (λ i. slice_from_of heap.old.state of.0 i)) }
    ensures keeps { Keeps heap.old.state.cells heap.new.state.cells }
    ensures kept { RetainsAsMuch heap.old.state heap.new.state }
    ensures known { IfOk result (λ v. knows heap.new.state.cells v ≡ true) }
{
    match int_in(from) {
        Some(i) => arrays::slice_from(alloc, heap, of, i),
        None => Err(BAD_ARGS),
    }
}

fn resize_to(alloc: Global, heap: &mut Heap, of: Serial, size: &Value) -> Result<Value, Trouble>
    requires { is_array (cell_at heap.old.state.cells of.0) ≡ true }
    ensures given { HasGiven result heap.old.state heap.new.state (with_given (int_in size.now) (λ n. resize_of heap.old.state of.0 n)) }
    ensures keeps { Keeps heap.old.state.cells heap.new.state.cells }
    ensures kept { RetainsAsMuch heap.old.state heap.new.state }
    ensures known { IfOk result (λ v. knows heap.new.state.cells v ≡ true) }
{
    match int_in(size) {
        Some(n) => resize(alloc, heap, of, n),
        None => Err(BAD_ARGS),
    }
}

fn append_array(alloc: Global, heap: &mut Heap, of: Serial, other: &Value) -> Result<Value, Trouble>
    requires array { is_array (cell_at heap.old.state.cells of.0) ≡ true }
    requires other { knows heap.old.state.cells other.now ≡ true }
    ensures given { HasGiven result heap.old.state heap.new.state (with_given (array_in other.now) (λ y. append_array_of heap.old.state of.0 y.0)) }
    ensures keeps { Keeps heap.old.state.cells heap.new.state.cells }
    ensures kept { RetainsAsMuch heap.old.state heap.new.state }
    ensures known { IfOk result (λ v. knows heap.new.state.cells v ≡ true) }
{
    match array_in(heap, other) {
        Some(other) => arrays::append_array(alloc, heap, of, other),
        None => Err(BAD_ARGS),
    }
}

fn duplicate(alloc: Global, heap: &mut Heap, of: Serial, deep: &Value) -> Result<Value, Trouble>
    requires { is_array (cell_at heap.old.state.cells of.0) ≡ true }
    ensures given { HasGiven result heap.old.state heap.new.state (with_given (truth_in deep.now) (λ deep. array_duplicate_of heap.old.state of deep)) }
    ensures keeps { Keeps heap.old.state.cells heap.new.state.cells }
    ensures kept { RetainsAsMuch heap.old.state heap.new.state }
    ensures known { IfOk result (λ v. knows heap.new.state.cells v ≡ true) }
{
    match truth_in(deep) {
        Some(true) => deep_copy(alloc, heap, &Value::Array(of)),
        Some(false) => arrays::duplicate(alloc, heap, of),
        None => Err(BAD_ARGS),
    }
}

fn with_one(
    alloc: Global,
    heap: &mut Heap,
    method: ArrayMethod,
    of: Serial,
    v: &Value,
) -> Result<Value, Trouble>
    requires array { is_array (cell_at heap.old.state.cells of.0) ≡ true }
    requires value { knows heap.old.state.cells v.now ≡ true }
    ensures given { HasGiven result heap.old.state heap.new.state (array_call_of heap.old.state method of (v.now ∷ [])) }
    ensures keeps { Keeps heap.old.state.cells heap.new.state.cells }
    ensures kept { RetainsAsMuch heap.old.state heap.new.state }
    ensures known { IfOk result (λ v. knows heap.new.state.cells v ≡ true) }
{
    match method {
        ArrayMethod::Append | ArrayMethod::PushBack => arrays::append(alloc, heap, of, v),
        ArrayMethod::PushFront => arrays::push_front(alloc, heap, of, v),
        ArrayMethod::Erase => arrays::erase(alloc, heap, of, v),
        ArrayMethod::Has => Ok(arrays::has(heap, of, v)?),
        ArrayMethod::Find => Ok(arrays::find(heap, of, v)?),
        ArrayMethod::Count => Ok(arrays::count(heap, of, v)?),
        ArrayMethod::Fill => arrays::fill(alloc, heap, of, v),
        ArrayMethod::RemoveAt => remove_at(alloc, heap, of, v),
        ArrayMethod::Slice => slice_from(alloc, heap, of, v),
        ArrayMethod::Duplicate => duplicate(alloc, heap, of, v),
        ArrayMethod::AppendArray => append_array(alloc, heap, of, v),
        ArrayMethod::Resize => resize_to(alloc, heap, of, v),
        ArrayMethod::Size
        | ArrayMethod::IsEmpty
        | ArrayMethod::PopBack
        | ArrayMethod::PopFront
        | ArrayMethod::Front
        | ArrayMethod::Back
        | ArrayMethod::Insert
        | ArrayMethod::Clear
        | ArrayMethod::Reverse
        | ArrayMethod::Sort => Err(BAD_ARGS),
    }
}

fn insert(
    alloc: Global,
    heap: &mut Heap,
    of: Serial,
    index: &Value,
    v: &Value,
) -> Result<Value, Trouble>
    requires array { is_array (cell_at heap.old.state.cells of.0) ≡ true }
    requires value { knows heap.old.state.cells v.now ≡ true }
    ensures given { HasGiven result heap.old.state heap.new.state (array_call_of heap.old.state ArrayMethod.Insert of (index.now ∷ v.now ∷ [])) }
    ensures keeps { Keeps heap.old.state.cells heap.new.state.cells }
    ensures kept { RetainsAsMuch heap.old.state heap.new.state }
    ensures known { IfOk result (λ v. knows heap.new.state.cells v ≡ true) }
{
    match int_in(index) {
        Some(i) => arrays::insert(alloc, heap, of, i, v),
        None => Err(BAD_ARGS),
    }
}

fn slice(
    alloc: Global,
    heap: &mut Heap,
    of: Serial,
    from: &Value,
    to: &Value,
) -> Result<Value, Trouble>
    requires { is_array (cell_at heap.old.state.cells of.0) ≡ true }
    ensures given { HasGiven result heap.old.state heap.new.state (array_call_of heap.old.state ArrayMethod.Slice of (from.now ∷ to.now ∷ [])) }
    ensures keeps { Keeps heap.old.state.cells heap.new.state.cells }
    ensures kept { RetainsAsMuch heap.old.state heap.new.state }
    ensures known { IfOk result (λ v. knows heap.new.state.cells v ≡ true) }
{
    match (int_in(from), int_in(to)) {
        (Some(a), Some(b)) => arrays::slice(alloc, heap, of, a, b),
        _ => Err(BAD_ARGS),
    }
}

fn with_two(
    alloc: Global,
    heap: &mut Heap,
    method: ArrayMethod,
    of: Serial,
    v: &Value,
    w: &Value,
) -> Result<Value, Trouble>
    requires array { is_array (cell_at heap.old.state.cells of.0) ≡ true }
    requires value { knows heap.old.state.cells w.now ≡ true }
    ensures given { HasGiven result heap.old.state heap.new.state (array_call_of heap.old.state method of (v.now ∷ w.now ∷ [])) }
    ensures keeps { Keeps heap.old.state.cells heap.new.state.cells }
    ensures kept { RetainsAsMuch heap.old.state heap.new.state }
    ensures known { IfOk result (λ v. knows heap.new.state.cells v ≡ true) }
{
    match method {
        ArrayMethod::Insert => insert(alloc, heap, of, v, w),
        ArrayMethod::Slice => slice(alloc, heap, of, v, w),
        ArrayMethod::Size
        | ArrayMethod::IsEmpty
        | ArrayMethod::Append
        | ArrayMethod::PushBack
        | ArrayMethod::PushFront
        | ArrayMethod::PopBack
        | ArrayMethod::PopFront
        | ArrayMethod::Front
        | ArrayMethod::Back
        | ArrayMethod::RemoveAt
        | ArrayMethod::Erase
        | ArrayMethod::Clear
        | ArrayMethod::Has
        | ArrayMethod::Find
        | ArrayMethod::Count
        | ArrayMethod::Reverse
        | ArrayMethod::Sort
        | ArrayMethod::Duplicate
        | ArrayMethod::AppendArray
        | ArrayMethod::Resize
        | ArrayMethod::Fill => Err(BAD_ARGS),
    }
}

/// Calls a method of an array. A method without a result gives null, and `insert` and `resize` give 0. The fault is the first
/// of these that applies: `BadArgs` where the number or a kind of the arguments is wrong, or a size is negative; `BadOperands`
/// where items cannot be sorted; `BadIndex` where there is no such place; `ElementType` where a value is not of the array's
/// element type; `TooDeep` where a comparison or a deep copy passes a limit; `TooLong` where an array would have more than
/// 1,048,576 items; `HeapFull`. A new array is held by no caller yet.
pub fn array_call(
    alloc: Global,
    heap: &mut Heap,
    method: ArrayMethod,
    of: Serial,
    args: &[Value],
) -> Result<Value, Trouble>
    requires array { is_array (cell_at heap.old.state.cells of.0) ≡ true }
    requires args { KnowsAll heap.old.state.cells args.now }
    ensures given { HasGiven result heap.old.state heap.new.state (array_call_of heap.old.state method of args.now) }
    ensures keeps { Keeps heap.old.state.cells heap.new.state.cells }
    ensures kept { RetainsAsMuch heap.old.state heap.new.state }
    ensures known { IfOk result (λ v. knows heap.new.state.cells v ≡ true) }
{
    match args {
        [] => with_none(alloc, heap, method, of),
        [v] => with_one(alloc, heap, method, of, v),
        [v, w] => with_two(alloc, heap, method, of, v, w),
        [_, _, _, ..] => Err(BAD_ARGS),
    }
}
