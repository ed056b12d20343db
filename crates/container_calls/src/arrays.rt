//! The methods of arrays, one by one.
ghost use Rattle.std.specs.Prelude.{◌≡◌, ◌+◌, ◌<◌, ◌≤◌, ◌^◌, [], ◌∷◌, true, length, reverse, replicate, slice_get, IfOk, IfSome};
ghost use Rattle.variant_values.specs.Heaps.{cell_at, is_array, knows, with_splice, KnowsAll};
ghost use Rattle.variant_values.specs.Operators.{Answers};
ghost use Rattle.variant_values.specs.Changes.{Keeps, HasGiven, weighed};
ghost use Rattle.variant_values.specs.Comparisons.{count_equal, first_equal, same_value};
ghost use Rattle.variant_values.specs.ArrayMethods.{append_array_of, append_of, back_of, between, clear_of, count_of, cut, emptiness_of, erase_of, fill_of, find_of, front_of, has_of, insert_of, item_or_null, items_at, place_number, pop_back_of, pop_front_of, popped, push_front_of, put_of, remove_at_of, reverse_of, shallow_of, size_of, slice_from_of, slice_of, spot_between};
ghost use Rattle.call_support.specs.Retaining.{RetainsAsMuch};

use crate::comparisons::{count_equal, first_equal};
use crate::elements::{all_taken, is_taken};
use crate::indexing::{one, spot};
use call_support::changes::{new_array, remove_items, splice};
use call_support::views::{element, items};
use ref_objects::heap::Heap;
use std::alloc::{AllocError, Global};
use variant_values::faults::{RunFault, Trouble};
use variant_values::operators::MOST_ITEMS;
use variant_values::values::{Serial, Value};

/// How many items an array has.
pub fn size(heap: &Heap, of: Serial) -> Result<Value, RunFault>
    requires { is_array (cell_at heap.now.state.cells of.0) ≡ true }
    ensures value { result ≡ size_of (items_at heap.now.state of.0) }
    ensures known { IfOk result (λ v. knows heap.now.state.cells v ≡ true) }
{
    Ok(Value::Int(items(heap, of).len() as i64))
}

/// Whether it has none.
pub fn is_empty(heap: &Heap, of: Serial) -> Result<Value, RunFault>
    requires { is_array (cell_at heap.now.state.cells of.0) ≡ true }
    ensures value { result ≡ emptiness_of (items_at heap.now.state of.0) }
    ensures known { IfOk result (λ v. knows heap.now.state.cells v ≡ true) }
{
    Ok(Value::Bool(items(heap, of).len() == 0))
}

/// A copy of an item, or null where there is none.
fn item_or_null(heap: &Heap, items: &[Value], at: usize) -> Result<Value, Trouble>
    requires { KnowsAll heap.now.state.cells items.now }
    ensures value { Answers result (Ok (item_or_null (slice_get items.now at))) }
    ensures known { IfOk result (λ v. knows heap.now.state.cells v ≡ true) }
{
    match items.get(at) {
        Some(v) => Ok(v.clone()?),
        None => Ok(Value::Null),
    }
}

/// The first item, or null.
pub fn front(heap: &Heap, of: Serial) -> Result<Value, Trouble>
    requires { is_array (cell_at heap.now.state.cells of.0) ≡ true }
    ensures value { Answers result (front_of (items_at heap.now.state of.0)) }
    ensures known { IfOk result (λ v. knows heap.now.state.cells v ≡ true) }
{
    item_or_null(heap, items(heap, of), 0)
}

/// The last item, or null.
pub fn back(heap: &Heap, of: Serial) -> Result<Value, Trouble>
    requires { is_array (cell_at heap.now.state.cells of.0) ≡ true }
    ensures value { Answers result (back_of (items_at heap.now.state of.0)) }
    ensures known { IfOk result (λ v. knows heap.now.state.cells v ≡ true) }
{
    let items = items(heap, of);
    item_or_null(heap, items, items.len().saturating_sub(1))
}

/// A change of items, and the value that it gives.
pub fn change(
    heap: &mut Heap,
    of: Serial,
    at: usize,
    out: usize,
    put: Vec<Value>,
    gives: Value,
) -> Result<Value, Trouble>
    requires array { is_array (cell_at heap.old.state.cells of.0) ≡ true }
    requires items { at + out ≤ length (items_at heap.old.state of.0) }
    requires gives { knows heap.old.state.cells gives ≡ true }
    requires put { KnowsAll heap.old.state.cells put.items }
    ensures given { HasGiven result heap.old.state heap.new.state (weighed (with_splice heap.old.state of.0 at out put.items) gives) }
    ensures keeps { Keeps heap.old.state.cells heap.new.state.cells }
    ensures kept { RetainsAsMuch heap.old.state heap.new.state }
    ensures known { IfOk result (λ v. knows heap.new.state.cells v ≡ true) }
{
    splice(heap, of, at, out, put)?;
    Ok(gives)
}

/// Items taken out, and the value that this gives.
fn take_out(
    alloc: Global,
    heap: &mut Heap,
    of: Serial,
    at: usize,
    out: usize,
    gives: Value,
) -> Result<Value, Trouble>
    requires array { is_array (cell_at heap.old.state.cells of.0) ≡ true }
    requires items { at + out ≤ length (items_at heap.old.state of.0) }
    requires gives { knows heap.old.state.cells gives ≡ true }
    ensures given { HasGiven result heap.old.state heap.new.state (Ok (gives, with_splice heap.old.state of.0 at out [])) }
    ensures keeps { Keeps heap.old.state.cells heap.new.state.cells }
    ensures kept { RetainsAsMuch heap.old.state heap.new.state }
    ensures known { IfOk result (λ v. knows heap.new.state.cells v ≡ true) }
{
    remove_items(alloc, heap, of, at, out)?;
    Ok(gives)
}

/// Puts values in the place of others, where they are of the element type and not too many then.
fn put(
    heap: &mut Heap,
    of: Serial,
    at: usize,
    out: usize,
    put: Vec<Value>,
    gives: Value,
) -> Result<Value, Trouble>
    requires array { is_array (cell_at heap.old.state.cells of.0) ≡ true }
    requires items { at + out ≤ length (items_at heap.old.state of.0) }
    requires gives { knows heap.old.state.cells gives ≡ true }
    requires put { KnowsAll heap.old.state.cells put.items }
    ensures given { HasGiven result heap.old.state heap.new.state (put_of heap.old.state of.0 at out put.items gives) }
    ensures keeps { Keeps heap.old.state.cells heap.new.state.cells }
    ensures kept { RetainsAsMuch heap.old.state heap.new.state }
    ensures known { IfOk result (λ v. knows heap.new.state.cells v ≡ true) }
{
    if !all_taken(heap, element(heap, of), put.as_slice()) {
        return Err(Trouble::Fault(RunFault::ElementType));
    }
    if items(heap, of).len() - out + put.len() > MOST_ITEMS {
        return Err(Trouble::Fault(RunFault::TooLong));
    }
    change(heap, of, at, out, put, gives)
}

/// Puts a value last: `append` and `push_back`.
pub fn append(alloc: Global, heap: &mut Heap, of: Serial, v: &Value) -> Result<Value, Trouble>
    requires array { is_array (cell_at heap.old.state.cells of.0) ≡ true }
    requires value { knows heap.old.state.cells v.now ≡ true }
    ensures given { HasGiven result heap.old.state heap.new.state (append_of heap.old.state of.0 v.now) }
    ensures keeps { Keeps heap.old.state.cells heap.new.state.cells }
    ensures kept { RetainsAsMuch heap.old.state heap.new.state }
    ensures known { IfOk result (λ v. knows heap.new.state.cells v ≡ true) }
{
    let len = items(heap, of).len();
    put(heap, of, len, 0, one(alloc, v.clone()?)?, Value::Null)
}

/// Puts a value first.
pub fn push_front(alloc: Global, heap: &mut Heap, of: Serial, v: &Value) -> Result<Value, Trouble>
    requires array { is_array (cell_at heap.old.state.cells of.0) ≡ true }
    requires value { knows heap.old.state.cells v.now ≡ true }
    ensures given { HasGiven result heap.old.state heap.new.state (push_front_of heap.old.state of.0 v.now) }
    ensures keeps { Keeps heap.old.state.cells heap.new.state.cells }
    ensures kept { RetainsAsMuch heap.old.state heap.new.state }
    ensures known { IfOk result (λ v. knows heap.new.state.cells v ≡ true) }
{
    put(heap, of, 0, 0, one(alloc, v.clone()?)?, Value::Null)
}

/// Puts the items of another array last.
pub fn append_array(
    alloc: Global,
    heap: &mut Heap,
    of: Serial,
    other: Serial,
) -> Result<Value, Trouble>
    requires array { is_array (cell_at heap.old.state.cells of.0) ≡ true }
    requires other { is_array (cell_at heap.old.state.cells other.0) ≡ true }
    ensures given { HasGiven result heap.old.state heap.new.state (append_array_of heap.old.state of.0 other.0) }
    ensures keeps { Keeps heap.old.state.cells heap.new.state.cells }
    ensures kept { RetainsAsMuch heap.old.state heap.new.state }
    ensures known { IfOk result (λ v. knows heap.new.state.cells v ≡ true) }
{
    let len = items(heap, of).len();
    let more = items(heap, other).to_vec(alloc)?;
    put(heap, of, len, 0, more, Value::Null)
}

/// The place of an index where a value may go in: a negative one counts from the end, and the size puts last.
fn spot_between(index: i64, len: usize) -> Option<usize>
    ensures { result ≡ spot_between index len }
{
    let size = index.unsigned_abs() as usize;
    if size > len {
        None
    } else {
        Some(if index < 0 { len - size } else { size })
    }
}

/// Puts a value in before the item at an index.
pub fn insert(
    alloc: Global,
    heap: &mut Heap,
    of: Serial,
    index: i64,
    v: &Value,
) -> Result<Value, Trouble>
    requires array { is_array (cell_at heap.old.state.cells of.0) ≡ true }
    requires value { knows heap.old.state.cells v.now ≡ true }
    ensures given { HasGiven result heap.old.state heap.new.state (insert_of heap.old.state of.0 index v.now) }
    ensures keeps { Keeps heap.old.state.cells heap.new.state.cells }
    ensures kept { RetainsAsMuch heap.old.state heap.new.state }
    ensures known { IfOk result (λ v. knows heap.new.state.cells v ≡ true) }
{
    let Some(at) = spot_between(index, items(heap, of).len()) else {
        return Err(Trouble::Fault(RunFault::BadIndex));
    };
    put(heap, of, at, 0, one(alloc, v.clone()?)?, Value::Int(0))
}

/// Takes out the item at an index.
pub fn remove_at(alloc: Global, heap: &mut Heap, of: Serial, index: i64) -> Result<Value, Trouble>
    requires { is_array (cell_at heap.old.state.cells of.0) ≡ true }
    ensures given { HasGiven result heap.old.state heap.new.state (remove_at_of heap.old.state of.0 index) }
    ensures keeps { Keeps heap.old.state.cells heap.new.state.cells }
    ensures kept { RetainsAsMuch heap.old.state heap.new.state }
    ensures known { IfOk result (λ v. knows heap.new.state.cells v ≡ true) }
{
    let Some(at) = spot(index, items(heap, of).len()) else {
        return Err(Trouble::Fault(RunFault::BadIndex));
    };
    take_out(alloc, heap, of, at, 1, Value::Null)
}

/// Takes out the first item that a value equals.
pub fn erase(alloc: Global, heap: &mut Heap, of: Serial, v: &Value) -> Result<Value, Trouble>
    requires array { is_array (cell_at heap.old.state.cells of.0) ≡ true }
    requires value { knows heap.old.state.cells v.now ≡ true }
    ensures given { HasGiven result heap.old.state heap.new.state (erase_of heap.old.state of.0 v.now) }
    ensures keeps { Keeps heap.old.state.cells heap.new.state.cells }
    ensures kept { RetainsAsMuch heap.old.state heap.new.state }
    ensures known { IfOk result (λ v. knows heap.new.state.cells v ≡ true) }
{
    let found = find_in(heap, of, v)?;
    let Some(at) = found else {
        return Ok(Value::Null);
    };
    take_out(alloc, heap, of, at, 1, Value::Null)
}

/// The place of the first item that a value equals, which is one.
fn find_in(heap: &Heap, of: Serial, v: &Value) -> Result<Option<usize>, RunFault>
    requires array { is_array (cell_at heap.now.state.cells of.0) ≡ true }
    requires value { knows heap.now.state.cells v.now ≡ true }
    ensures found { result ≡ first_equal (λ w. same_value heap.now.state.cells v.now w) 0 (items_at heap.now.state of.0) }
    ensures within { IfOk result (λ found. IfSome found (λ at. at < length (items_at heap.now.state of.0))) }
    ensures small { IfOk result (λ found. IfSome found (λ at. at < 2 ^ 63)) }
{
    first_equal(heap, v, items(heap, of))
}

/// Takes an item out, or gives null where there is none.
fn pop(alloc: Global, heap: &mut Heap, of: Serial, at: usize) -> Result<Value, Trouble>
    requires { is_array (cell_at heap.old.state.cells of.0) ≡ true }
    ensures given { HasGiven result heap.old.state heap.new.state (popped heap.old.state of.0 at (slice_get (items_at heap.old.state of.0) at)) }
    ensures keeps { Keeps heap.old.state.cells heap.new.state.cells }
    ensures kept { RetainsAsMuch heap.old.state heap.new.state }
    ensures known { IfOk result (λ v. knows heap.new.state.cells v ≡ true) }
{
    match copy_at(items(heap, of), at)? {
        Some(v) => take_out(alloc, heap, of, at, 1, v),
        None => Ok(Value::Null),
    }
}

fn copy_at(items: &[Value], at: usize) -> Result<Option<Value>, AllocError>
    ensures { IfOk result (λ v. v ≡ slice_get items.now at) }
{
    match items.get(at) {
        Some(v) => Ok(Some(v.clone()?)),
        None => Ok(None),
    }
}

/// Takes out the last item.
pub fn pop_back(alloc: Global, heap: &mut Heap, of: Serial) -> Result<Value, Trouble>
    requires { is_array (cell_at heap.old.state.cells of.0) ≡ true }
    ensures given { HasGiven result heap.old.state heap.new.state (pop_back_of heap.old.state of.0) }
    ensures keeps { Keeps heap.old.state.cells heap.new.state.cells }
    ensures kept { RetainsAsMuch heap.old.state heap.new.state }
    ensures known { IfOk result (λ v. knows heap.new.state.cells v ≡ true) }
{
    let at = items(heap, of).len().saturating_sub(1);
    pop(alloc, heap, of, at)
}

/// Takes out the first item.
pub fn pop_front(alloc: Global, heap: &mut Heap, of: Serial) -> Result<Value, Trouble>
    requires { is_array (cell_at heap.old.state.cells of.0) ≡ true }
    ensures given { HasGiven result heap.old.state heap.new.state (pop_front_of heap.old.state of.0) }
    ensures keeps { Keeps heap.old.state.cells heap.new.state.cells }
    ensures kept { RetainsAsMuch heap.old.state heap.new.state }
    ensures known { IfOk result (λ v. knows heap.new.state.cells v ≡ true) }
{
    pop(alloc, heap, of, 0)
}

/// Takes out all items.
pub fn clear(alloc: Global, heap: &mut Heap, of: Serial) -> Result<Value, Trouble>
    requires { is_array (cell_at heap.old.state.cells of.0) ≡ true }
    ensures given { HasGiven result heap.old.state heap.new.state (clear_of heap.old.state of.0) }
    ensures keeps { Keeps heap.old.state.cells heap.new.state.cells }
    ensures kept { RetainsAsMuch heap.old.state heap.new.state }
    ensures known { IfOk result (λ v. knows heap.new.state.cells v ≡ true) }
{
    let len = items(heap, of).len();
    take_out(alloc, heap, of, 0, len, Value::Null)
}

fn reversed(alloc: Global, items: &[Value]) -> Result<Vec<Value>, AllocError>
    ensures { IfOk result (λ list. list.items ≡ reverse items.now) }
{
    let mut list = items.to_vec(alloc)?;
    list.as_mut_slice().reverse();
    Ok(list)
}

/// Turns the order of the items.
pub fn reverse(alloc: Global, heap: &mut Heap, of: Serial) -> Result<Value, Trouble>
    requires { is_array (cell_at heap.old.state.cells of.0) ≡ true }
    ensures given { HasGiven result heap.old.state heap.new.state (reverse_of heap.old.state of.0) }
    ensures keeps { Keeps heap.old.state.cells heap.new.state.cells }
    ensures kept { RetainsAsMuch heap.old.state heap.new.state }
    ensures known { IfOk result (λ v. knows heap.new.state.cells v ≡ true) }
{
    let list = reversed(alloc, items(heap, of))?;
    let len = list.len();
    change(heap, of, 0, len, list, Value::Null)
}

fn repeated(alloc: Global, v: &Value, count: usize) -> Result<Vec<Value>, AllocError>
    ensures { IfOk result (λ list. list.items ≡ replicate count v.now) }
{
    let mut list = Vec::new(alloc);
    for _ in 0..count {
        list.push(v.clone()?)?;
    }
    Ok(list)
}

/// Makes every item one value.
pub fn fill(alloc: Global, heap: &mut Heap, of: Serial, v: &Value) -> Result<Value, Trouble>
    requires array { is_array (cell_at heap.old.state.cells of.0) ≡ true }
    requires value { knows heap.old.state.cells v.now ≡ true }
    ensures given { HasGiven result heap.old.state heap.new.state (fill_of heap.old.state of.0 v.now) }
    ensures keeps { Keeps heap.old.state.cells heap.new.state.cells }
    ensures kept { RetainsAsMuch heap.old.state heap.new.state }
    ensures known { IfOk result (λ v. knows heap.new.state.cells v ≡ true) }
{
    if !is_taken(heap, element(heap, of), v) {
        return Err(Trouble::Fault(RunFault::ElementType));
    }
    let len = items(heap, of).len();
    let list = repeated(alloc, v, len)?;
    change(heap, of, 0, len, list, Value::Null)
}

/// A place cut to the array, where a negative one counts from the end.
fn cut(index: i64, len: usize) -> usize
    ensures { result ≡ cut index len }
{
    let size = index.unsigned_abs() as usize;
    if index < 0 {
        len.saturating_sub(size)
    } else {
        size.min(len)
    }
}

/// Copies of the items between two places.
fn between(
    alloc: Global,
    items: &[Value],
    start: usize,
    end: usize,
) -> Result<Vec<Value>, AllocError>
    requires { end ≤ length items.now }
    ensures { IfOk result (λ part. part.items ≡ between items.now start end) }
{
    if start < end {
        items[start..end].to_vec(alloc)
    } else {
        Ok(Vec::new(alloc))
    }
}

/// A new array of the items between two places.
pub fn slice(
    alloc: Global,
    heap: &mut Heap,
    of: Serial,
    from: i64,
    to: i64,
) -> Result<Value, Trouble>
    requires { is_array (cell_at heap.old.state.cells of.0) ≡ true }
    ensures given { HasGiven result heap.old.state heap.new.state (slice_of heap.old.state of.0 from to) }
    ensures keeps { Keeps heap.old.state.cells heap.new.state.cells }
    ensures kept { RetainsAsMuch heap.old.state heap.new.state }
    ensures known { IfOk result (λ v. knows heap.new.state.cells v ≡ true) }
{
    let all = items(heap, of);
    let part = between(alloc, all, cut(from, all.len()), cut(to, all.len()))?;
    let element = element(heap, of);
    new_array(heap, part, element)
}

/// A new array of the items from a place on.
pub fn slice_from(alloc: Global, heap: &mut Heap, of: Serial, from: i64) -> Result<Value, Trouble>
    requires { is_array (cell_at heap.old.state.cells of.0) ≡ true }
    ensures given { HasGiven result heap.old.state heap.new.state (slice_from_of heap.old.state of.0 from) }
    ensures keeps { Keeps heap.old.state.cells heap.new.state.cells }
    ensures kept { RetainsAsMuch heap.old.state heap.new.state }
    ensures known { IfOk result (λ v. knows heap.new.state.cells v ≡ true) }
{
    let all = items(heap, of);
    let part = between(alloc, all, cut(from, all.len()), all.len())?;
    let element = element(heap, of);
    new_array(heap, part, element)
}

/// A new array of the same items. Containers inside stay shared.
pub fn duplicate(alloc: Global, heap: &mut Heap, of: Serial) -> Result<Value, Trouble>
    requires { is_array (cell_at heap.old.state.cells of.0) ≡ true }
    ensures given { HasGiven result heap.old.state heap.new.state (shallow_of heap.old.state of.0) }
    ensures keeps { Keeps heap.old.state.cells heap.new.state.cells }
    ensures kept { RetainsAsMuch heap.old.state heap.new.state }
    ensures known { IfOk result (λ v. knows heap.new.state.cells v ≡ true) }
{
    let all = items(heap, of).to_vec(alloc)?;
    let element = element(heap, of);
    new_array(heap, all, element)
}

/// Whether an item equals a value.
pub fn has(heap: &Heap, of: Serial, v: &Value) -> Result<Value, RunFault>
    requires array { is_array (cell_at heap.now.state.cells of.0) ≡ true }
    requires value { knows heap.now.state.cells v.now ≡ true }
    ensures value { result ≡ has_of heap.now.state of.0 v.now }
    ensures known { IfOk result (λ v. knows heap.now.state.cells v ≡ true) }
{
    match find_in(heap, of, v) {
        Ok(found) => Ok(Value::Bool(found.is_some())),
        Err(fault) => Err(fault),
    }
}

/// The first place of an equal item, or -1.
pub fn find(heap: &Heap, of: Serial, v: &Value) -> Result<Value, RunFault>
    requires array { is_array (cell_at heap.now.state.cells of.0) ≡ true }
    requires value { knows heap.now.state.cells v.now ≡ true }
    ensures value { result ≡ find_of heap.now.state of.0 v.now }
    ensures known { IfOk result (λ v. knows heap.now.state.cells v ≡ true) }
{
    match find_in(heap, of, v) {
        Ok(found) => Ok(Value::Int(place_number(found))),
        Err(fault) => Err(fault),
    }
}

fn place_number(found: Option<usize>) -> i64
    requires { IfSome found (λ at. at < 2 ^ 63) }
    ensures { result ≡ place_number found }
{
    match found {
        Some(at) => at as i64,
        None => -1,
    }
}

/// How many items equal a value.
pub fn count(heap: &Heap, of: Serial, v: &Value) -> Result<Value, RunFault>
    requires array { is_array (cell_at heap.now.state.cells of.0) ≡ true }
    requires value { knows heap.now.state.cells v.now ≡ true }
    ensures value { result ≡ count_of heap.now.state of.0 v.now }
    ensures known { IfOk result (λ v. knows heap.now.state.cells v ≡ true) }
{
    match count_in(heap, of, v) {
        Ok(count) => Ok(Value::Int(count as i64)),
        Err(fault) => Err(fault),
    }
}

fn count_in(heap: &Heap, of: Serial, v: &Value) -> Result<usize, RunFault>
    requires array { is_array (cell_at heap.now.state.cells of.0) ≡ true }
    requires value { knows heap.now.state.cells v.now ≡ true }
    ensures count { result ≡ count_equal (λ w. same_value heap.now.state.cells v.now w) 0 (items_at heap.now.state of.0) }
    ensures few { IfOk result (λ count. count < 2 ^ 63) }
{
    count_equal(heap, v, items(heap, of))
}
