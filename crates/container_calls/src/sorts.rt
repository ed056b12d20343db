//! Arrays put in order.
ghost use Rattle.std.specs.Prelude.{◌≡◌, true, IfOk};
ghost use Rattle.std.specs.List.{list_all};
ghost use Rattle.variant_values.specs.Heaps.{cell_at, is_array, knows};
ghost use Rattle.variant_values.specs.Operators.{is_text};
ghost use Rattle.variant_values.specs.Changes.{Keeps, HasGiven};
ghost use Rattle.variant_values.specs.ArrayMethods.{in_order, is_number, items_at, number_before, number_in, put_in_order, sort_of, text_before, text_in};
ghost use Rattle.call_support.specs.Retaining.{RetainsAsMuch};

use crate::arrays::change;
use call_support::views::items;
use ref_objects::heap::Heap;
use std::alloc::{AllocError, Global};
use variant_values::faults::{RunFault, Trouble};
use variant_values::values::{Serial, Value};

fn number_in(v: &Value) -> i64
    ensures { result ≡ number_in v.now }
{
    match v {
        Value::Int(n) => *n,
        _ => 0,
    }
}

fn text_in(v: &Value) -> &str
    ensures { result.now ≡ text_in v.now }
{
    match v {
        Value::Str(text) => text.as_str(),
        _ => "",
    }
}

fn is_number(v: &Value) -> bool
    ensures { result ≡ is_number v.now }
{
    match v {
        Value::Int(_) => true,
        _ => false,
    }
}

fn is_text(v: &Value) -> bool
    ensures { result ≡ is_text v.now }
{
    match v {
        Value::Str(_) => true,
        _ => false,
    }
}

fn all_numbers(values: &[Value]) -> bool
    ensures { result ≡ list_all is_number values.now }
{
    values.iter().all(|v| is_number(v))
}

fn all_texts(values: &[Value]) -> bool
    ensures { result ≡ list_all is_text values.now }
{
    values.iter().all(|v| is_text(v))
}

fn sort_numbers_of(mut list: Vec<Value>) -> Result<Vec<Value>, AllocError>
    requires { list_all is_number list.items ≡ true }
    ensures { IfOk result (λ sorted. sorted.items ≡ in_order number_before list.items) }
{
    list.sort_by(|a, b| number_in(a).cmp(&number_in(b)))?;
    Ok(list)
}

fn numbers_in_order(alloc: Global, values: &[Value]) -> Result<Vec<Value>, AllocError>
    requires { list_all is_number values.now ≡ true }
    ensures { IfOk result (λ list. list.items ≡ in_order number_before values.now) }
{
    sort_numbers_of(values.to_vec(alloc)?)
}

fn sort_texts_of(mut list: Vec<Value>) -> Result<Vec<Value>, AllocError>
    requires { list_all is_text list.items ≡ true }
    ensures { IfOk result (λ sorted. sorted.items ≡ in_order text_before list.items) }
{
    list.sort_by(|a, b| text_in(a).cmp(text_in(b)))?;
    Ok(list)
}

fn texts_in_order(alloc: Global, values: &[Value]) -> Result<Vec<Value>, AllocError>
    requires { list_all is_text values.now ≡ true }
    ensures { IfOk result (λ list. list.items ≡ in_order text_before values.now) }
{
    sort_texts_of(values.to_vec(alloc)?)
}

fn sort_numbers(alloc: Global, heap: &mut Heap, of: Serial) -> Result<Value, Trouble>
    requires array { is_array (cell_at heap.old.state.cells of.0) ≡ true }
    requires numbers { list_all is_number (items_at heap.old.state of.0) ≡ true }
    ensures given { HasGiven result heap.old.state heap.new.state (put_in_order heap.old.state of.0 number_before) }
    ensures keeps { Keeps heap.old.state.cells heap.new.state.cells }
    ensures kept { RetainsAsMuch heap.old.state heap.new.state }
    ensures known { IfOk result (λ v. knows heap.new.state.cells v ≡ true) }
{
    let list = numbers_in_order(alloc, items(heap, of))?;
    let len = items(heap, of).len();
    change(heap, of, 0, len, list, Value::Null)
}

fn sort_texts(alloc: Global, heap: &mut Heap, of: Serial) -> Result<Value, Trouble>
    requires array { is_array (cell_at heap.old.state.cells of.0) ≡ true }
    requires texts { list_all is_text (items_at heap.old.state of.0) ≡ true }
    ensures given { HasGiven result heap.old.state heap.new.state (put_in_order heap.old.state of.0 text_before) }
    ensures keeps { Keeps heap.old.state.cells heap.new.state.cells }
    ensures kept { RetainsAsMuch heap.old.state heap.new.state }
    ensures known { IfOk result (λ v. knows heap.new.state.cells v ≡ true) }
{
    let list = texts_in_order(alloc, items(heap, of))?;
    let len = items(heap, of).len();
    change(heap, of, 0, len, list, Value::Null)
}

/// Puts the items in order, where all are whole numbers or all are texts.
pub(crate) fn sort(alloc: Global, heap: &mut Heap, of: Serial) -> Result<Value, Trouble>
    requires { is_array (cell_at heap.old.state.cells of.0) ≡ true }
    ensures given { HasGiven result heap.old.state heap.new.state (sort_of heap.old.state of.0) }
    ensures keeps { Keeps heap.old.state.cells heap.new.state.cells }
    ensures kept { RetainsAsMuch heap.old.state heap.new.state }
    ensures known { IfOk result (λ v. knows heap.new.state.cells v ≡ true) }
{
    if all_numbers(items(heap, of)) {
        return sort_numbers(alloc, heap, of);
    }
    if all_texts(items(heap, of)) {
        return sort_texts(alloc, heap, of);
    }
    Err(Trouble::Fault(RunFault::BadOperands))
}
