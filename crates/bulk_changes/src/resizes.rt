ghost use Rattle.std.specs.Prelude.{◌≡◌, ◌+◌, ◌*◌, ◌^◌, ◌<◌, ◌≤◌, true, length, replicate, IfOk, IfErr, OnOk};
ghost use Rattle.variant_values.specs.Places.{weight};
ghost use Rattle.variant_values.specs.Heaps.{cell_at, is_array, knows, with_new, KnowsAll};
ghost use Rattle.variant_values.specs.Changes.{Keeps, HasGiven, next_serial};
ghost use Rattle.variant_values.specs.ElementTypes.{element_of};
ghost use Rattle.variant_values.specs.ArrayMethods.{items_at};
ghost use Rattle.variant_values.specs.Resizes.{default_of, defaults, in_a_row, put_last, resize_of, sized, with_more};
ghost use Rattle.bulk_changes.specs.Containers.{empty_cell, named};
ghost use Rattle.call_support.specs.Retaining.{RetainsAsMuch};

use call_support::changes::{new_array, new_dict, remove_items, splice};
use call_support::views::{element, items};
use ref_objects::heap::Heap;
use std::alloc::{AllocError, Global};
use variant_values::classes::ElementTag;
use variant_values::entries::Entries;
use variant_values::faults::{RunFault, Trouble};
use variant_values::operators::MOST_ITEMS;
use variant_values::texts::Str;
use variant_values::values::{Serial, Value};

/// The containers that items may be.
#[derive(Clone, Copy)]
enum Container {
    Array,
    Dict,
}

/// The value that an item has at first, but in an array of containers.
fn default_of(alloc: Global, element: Option<ElementTag>) -> Result<Value, AllocError>
    ensures { IfOk result (λ v. v ≡ default_of element) }
{
    match element {
        Some(ElementTag::Bool) => Ok(Value::Bool(false)),
        Some(ElementTag::Int) => Ok(Value::Int(0)),
        Some(ElementTag::Str) => Ok(Value::Str(Str::new(alloc, "")?)),
        _ => Ok(Value::Null),
    }
}

fn repeated(alloc: Global, v: &Value, count: usize) -> Result<Vec<Value>, AllocError>
    ensures { IfOk result (λ list. list.items ≡ replicate count v.now) }
{
    let mut list = Vec::new(alloc);
    for _ in 0..count {
        list.push(v.clone()?)?;
    }
    Ok(list)
}

/// Makes a new container, which the heap has room and a serial for.
fn add_one(alloc: Global, heap: &mut Heap, kind: Container) -> Result<Value, Trouble>
    requires light { weight heap.old.state.cells + 16 ≤ 67108864 }
    requires serial { length heap.old.state.cells < 2 ^ 64 }
    ensures ok { OnOk result (heap.new.state ≡ with_new heap.old.state (empty_cell kind)) }
    ensures value { IfOk result (λ v. v ≡ named kind (next_serial heap.old.state)) }
    ensures memory { IfErr result (λ e. e ≡ Trouble.NoMemory) }
    ensures keeps { Keeps heap.old.state.cells heap.new.state.cells }
    ensures kept { RetainsAsMuch heap.old.state heap.new.state }
    ensures known { IfOk result (λ v. knows heap.new.state.cells v ≡ true) }
{
    match kind {
        Container::Array => new_array(heap, Vec::new(alloc), None),
        Container::Dict => new_dict(heap, Entries::new(alloc)),
    }
}

/// Makes so many, which the heap has room and serials for.
fn add_many(
    alloc: Global,
    heap: &mut Heap,
    kind: Container,
    count: usize,
) -> Result<Vec<Value>, Trouble>
    requires light { weight heap.old.state.cells + 16 * count ≤ 67108864 }
    requires serials { length heap.old.state.cells + count ≤ 2 ^ 64 }
    ensures ok { OnOk result (heap.new.state ≡ with_more heap.old.state (empty_cell kind) count) }
    ensures values { IfOk result (λ list. list.items ≡ in_a_row (named kind) (length heap.old.state.cells) count) }
    ensures memory { IfErr result (λ e. e ≡ Trouble.NoMemory) }
    ensures keeps { Keeps heap.old.state.cells heap.new.state.cells }
    ensures kept { RetainsAsMuch heap.old.state heap.new.state }
    ensures known { IfOk result (λ list. KnowsAll heap.new.state.cells list.items) }
{
    let mut list = Vec::new(alloc);
    for i in 0..count {
        let v = add_one(alloc, heap, kind)?;
        list.push(v)?;
    }
    Ok(list)
}

/// Puts values last.
fn put_last(heap: &mut Heap, of: Serial, put: Vec<Value>) -> Result<Value, Trouble>
    requires array { is_array (cell_at heap.old.state.cells of.0) ≡ true }
    requires put { KnowsAll heap.old.state.cells put.items }
    ensures given { HasGiven result heap.old.state heap.new.state (put_last (put.items, heap.old.state) of.0) }
    ensures keeps { Keeps heap.old.state.cells heap.new.state.cells }
    ensures kept { RetainsAsMuch heap.old.state heap.new.state }
    ensures known { IfOk result (λ v. knows heap.new.state.cells v ≡ true) }
{
    heap.is_sound();
    let len = items(heap, of).len();
    splice(heap, of, len, 0, put)?;
    Ok(Value::Int(0))
}

/// Makes an array longer by new containers. The weight of all, and a serial for each, are looked at before any is made.
fn grow_by(
    alloc: Global,
    heap: &mut Heap,
    of: Serial,
    kind: Container,
    more: usize,
) -> Result<Value, Trouble>
    requires array { is_array (cell_at heap.old.state.cells of.0) ≡ true }
    requires few { more ≤ 1048576 }
    ensures given { HasGiven result heap.old.state heap.new.state (put_last (in_a_row (named kind) (length heap.old.state.cells) more, with_more heap.old.state (empty_cell kind) more) of.0) }
    ensures keeps { Keeps heap.old.state.cells heap.new.state.cells }
    ensures kept { RetainsAsMuch heap.old.state heap.new.state }
    ensures known { IfOk result (λ v. knows heap.new.state.cells v ≡ true) }
{
    if more as u64 * 18 > heap.room() {
        return Err(Trouble::Fault(RunFault::HeapFull));
    }
    if more as u64 > heap.serials_left() {
        return Err(Trouble::Fault(RunFault::HeapFull));
    }
    let put = add_many(alloc, heap, kind, more)?;
    put_last(heap, of, put)
}

/// Makes an array longer by so many items, which have their first values.
fn grow(alloc: Global, heap: &mut Heap, of: Serial, more: usize) -> Result<Value, Trouble>
    requires array { is_array (cell_at heap.old.state.cells of.0) ≡ true }
    requires few { more ≤ 1048576 }
    ensures given { HasGiven result heap.old.state heap.new.state (put_last (defaults heap.old.state (element_of (cell_at heap.old.state.cells of.0)) more) of.0) }
    ensures keeps { Keeps heap.old.state.cells heap.new.state.cells }
    ensures kept { RetainsAsMuch heap.old.state heap.new.state }
    ensures known { IfOk result (λ v. knows heap.new.state.cells v ≡ true) }
{
    match element(heap, of) {
        Some(ElementTag::Array) => grow_by(alloc, heap, of, Container::Array, more),
        Some(ElementTag::Dict) => grow_by(alloc, heap, of, Container::Dict, more),
        plain => {
            let put = repeated(alloc, &default_of(alloc, plain)?, more)?;
            put_last(heap, of, put)
        }
    }
}

/// Gives an array so many items.
fn sized(alloc: Global, heap: &mut Heap, of: Serial, size: usize) -> Result<Value, Trouble>
    requires array { is_array (cell_at heap.old.state.cells of.0) ≡ true }
    requires few { size ≤ 1048576 }
    ensures given { HasGiven result heap.old.state heap.new.state (sized heap.old.state of.0 size) }
    ensures keeps { Keeps heap.old.state.cells heap.new.state.cells }
    ensures kept { RetainsAsMuch heap.old.state heap.new.state }
    ensures known { IfOk result (λ v. knows heap.new.state.cells v ≡ true) }
{
    let len = items(heap, of).len();
    if size > len {
        return grow(alloc, heap, of, size - len);
    }
    remove_items(alloc, heap, of, size, len - size)?;
    Ok(Value::Int(0))
}

/// Makes an array shorter or longer. New items have the first value of the element type.
pub fn resize(alloc: Global, heap: &mut Heap, of: Serial, to: i64) -> Result<Value, Trouble>
    requires { is_array (cell_at heap.old.state.cells of.0) ≡ true }
    ensures given { HasGiven result heap.old.state heap.new.state (resize_of heap.old.state of.0 to) }
    ensures keeps { Keeps heap.old.state.cells heap.new.state.cells }
    ensures kept { RetainsAsMuch heap.old.state heap.new.state }
    ensures known { IfOk result (λ v. knows heap.new.state.cells v ≡ true) }
{
    if to < 0 {
        return Err(Trouble::Fault(RunFault::BadArgs));
    }
    let size = to.unsigned_abs() as usize;
    if size > MOST_ITEMS {
        return Err(Trouble::Fault(RunFault::TooLong));
    }
    sized(alloc, heap, of, size)
}
