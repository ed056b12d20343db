ghost use Rattle.std.specs.Prelude.{◌≡◌, ◌≢◌, ◌+◌, ◌<◌, ◌≤◌, ◌^◌, true, length, cond, is_some, option_copied, slice_get, Some, IfOk, IfErr, OnOk, Err};
ghost use Rattle.std.specs.Map.{lookup};
ghost use Rattle.variant_values.specs.declared.values.Key.{Key as AKey};
ghost use Rattle.variant_values.specs.declared.values.Value.{Value as AValue};
ghost use Rattle.variant_values.specs.declared.values.Value.TheVariants.{Null};
ghost use Rattle.variant_values.specs.Keys.{same_key, HasKeysOnce};
ghost use Rattle.variant_values.specs.Places.{weight};
ghost use Rattle.variant_values.specs.Heaps.{cell_at, is_dict, knows, knows_key, with_entry_at};
ghost use Rattle.variant_values.specs.Changes.{Keeps, HasGiven, counted, weighed};
ghost use Rattle.variant_values.specs.DictMethods.{entries_in, merge_of, merged, with_entries};
ghost use Rattle.bulk_changes.specs.Merges.{key_more, keys_more, weight_less, weight_more, weights_less, weights_more, with_put, HasNulls};
ghost use Rattle.call_support.specs.Retaining.{RetainsAsMuch};

use call_support::changes::set_entry;
use call_support::views::entries;
use call_support::walks::MOST_ITEMS;
use ref_objects::heap::Heap;
use variant_values::entries::Entries;
use variant_values::faults::{RunFault, Trouble};
use variant_values::values::{Key, Serial, Value};
use variant_values::weights::{entry_weight, text_weight};

/// What entries that are put in change.
#[derive(Clone, Copy)]
struct Tally {
    keys: u64,
    more: u128,
    less: u128,
}

/// Adds what one entry changes, by the value before.
fn add_entry(
    tally: Tally,
    overwrite: bool,
    before: Option<&Value>,
    key: &Key,
    value: &Value,
) -> Tally
    requires keys { tally.keys < 2 ^ 32 }
    requires more { tally.more < 2 ^ 120 }
    requires less { tally.less < 2 ^ 120 }
    ensures keys { result.keys ≡ tally.keys + key_more (option_copied before.entry) }
    ensures more { result.more ≡ tally.more + weight_more overwrite (option_copied before.entry) (key.now, value.now) }
    ensures less { result.less ≡ tally.less + weight_less overwrite (option_copied before.entry) }
    ensures few { result.keys ≤ tally.keys + 1 }
    ensures more_fits { result.more < tally.more + 2 ^ 65 }
    ensures less_fits { result.less < tally.less + 2 ^ 65 }
{
    match before {
        Some(old) if overwrite => Tally {
            keys: tally.keys,
            more: tally.more + text_weight(value) as u128,
            less: tally.less + text_weight(old) as u128,
        },
        Some(_) => tally,
        None => Tally {
            keys: tally.keys + 1,
            more: tally.more + entry_weight(key, value),
            less: tally.less,
        },
    }
}

/// What entries change that are put in.
fn sum_up(entries: &Entries, put: &Entries, overwrite: bool) -> Tally
    requires { length put.now ≤ 67108864 }
    ensures keys { result.keys ≡ keys_more entries.now put.now }
    ensures more { result.more ≡ weights_more overwrite entries.now put.now }
    ensures less { result.less ≡ weights_less overwrite entries.now put.now }
    ensures few { result.keys ≤ 67108864 }
    ensures less_fits { result.less < 2 ^ 120 }
{
    let mut tally = Tally {
        keys: 0,
        more: 0,
        less: 0,
    };
    for i in 0..put.len() {
        let (key, value) = put.entry_at(i);
        tally = add_entry(tally, overwrite, entries.get(key), key, value);
    }
    tally
}

/// Whether the entries of another dictionary may all be put in. It is decided on the whole, before anything changes.
fn fits(heap: &Heap, of: Serial, other: Serial, overwrite: bool) -> Result<(), RunFault>
    requires dict { is_dict (cell_at heap.now.state.cells of.0) ≡ true }
    requires other { is_dict (cell_at heap.now.state.cells other.0) ≡ true }
    ensures count { OnOk result (length (merged overwrite (entries_in heap.now.state of.0) (entries_in heap.now.state other.0)) ≤ 1048576) }
    ensures light { OnOk result (weight (with_entries heap.now.state of.0 (merged overwrite (entries_in heap.now.state of.0) (entries_in heap.now.state other.0))).cells ≤ 67108864) }
    ensures once { HasKeysOnce (entries_in heap.now.state other.0) }
    ensures err { IfErr result (λ fault. merge_of heap.now.state of.0 other.0 overwrite ≡ Err fault) }
{
    let (before, put) = (entries(heap, of), entries(heap, other));
    let tally = sum_up(before, put, overwrite);
    if before.len() as u64 + tally.keys > MOST_ITEMS {
        return Err(RunFault::TooLong);
    }
    if tally.more > heap.room() as u128 + tally.less {
        return Err(RunFault::HeapFull);
    }
    Ok(())
}

/// Puts an entry in, which the heap has room for.
fn enter(heap: &mut Heap, of: Serial, key: Key, value: Value) -> Result<(), Trouble>
    requires dict { is_dict (cell_at heap.old.state.cells of.0) ≡ true }
    requires key { knows_key heap.old.state.cells key ≡ true }
    requires value { knows heap.old.state.cells value ≡ true }
    requires room { weight (with_entry_at heap.old.state of.0 key value).cells ≤ 67108864 }
    ensures ok { OnOk result (heap.new.state ≡ with_entry_at heap.old.state of.0 key value) }
    ensures memory { IfErr result (λ e. e ≡ Trouble.NoMemory) }
    ensures keeps { Keeps heap.old.state.cells heap.new.state.cells }
    ensures kept { RetainsAsMuch heap.old.state heap.new.state }
{
    set_entry(heap, of, key, value)
}

/// Makes the value null that another dictionary's key at an index has, where it is there. Null is the lightest value.
fn set_null_at(heap: &mut Heap, of: Serial, other: Serial, index: usize) -> Result<(), Trouble>
    requires dict { is_dict (cell_at heap.old.state.cells of.0) ≡ true }
    requires other { is_dict (cell_at heap.old.state.cells other.0) ≡ true }
    requires index { index < length (entries_in heap.old.state other.0) }
    ensures ok { OnOk result ((f : AKey × AValue) → slice_get (entries_in heap.old.state other.0) index ≡ Some f → heap.new.state ≡ cond (is_some (lookup (same_key f.0) (entries_in heap.old.state of.0))) (with_entry_at heap.old.state of.0 f.0 Null) heap.old.state) }
    ensures memory { IfErr result (λ e. e ≡ Trouble.NoMemory) }
    ensures keeps { Keeps heap.old.state.cells heap.new.state.cells }
    ensures kept { RetainsAsMuch heap.old.state heap.new.state }
{
    heap.is_sound();
    let (key, _) = entries(heap, other).entry_at(index);
    if entries(heap, of).get(key).is_some() {
        let key = key.clone()?;
        enter(heap, of, key, Value::Null)
    } else {
        Ok(())
    }
}

/// Makes the value of each key null that is there and is put in, so that the weight only rises afterwards.
fn set_nulls(heap: &mut Heap, of: Serial, other: Serial) -> Result<(), Trouble>
    requires dict { is_dict (cell_at heap.old.state.cells of.0) ≡ true }
    requires other { is_dict (cell_at heap.old.state.cells other.0) ≡ true }
    requires apart { other.0 ≢ of.0 }
    ensures ok { OnOk result (HasNulls heap.old.state heap.new.state of.0 (entries_in heap.old.state other.0) (entries_in heap.old.state other.0)) }
    ensures memory { IfErr result (λ e. e ≡ Trouble.NoMemory) }
    ensures keeps { Keeps heap.old.state.cells heap.new.state.cells }
    ensures kept { RetainsAsMuch heap.old.state heap.new.state }
{
    for i in 0..entries(heap, other).len() {
        set_null_at(heap, of, other, i)?;
    }
    Ok(())
}

/// Puts a copy of another dictionary's entry in, which the heap has room for, where its key is missing or its value overwritten.
fn enter_at(
    heap: &mut Heap,
    of: Serial,
    other: Serial,
    index: usize,
    overwrite: bool,
) -> Result<(), Trouble>
    requires dict { is_dict (cell_at heap.old.state.cells of.0) ≡ true }
    requires other { is_dict (cell_at heap.old.state.cells other.0) ≡ true }
    requires index { index < length (entries_in heap.old.state other.0) }
    requires room { (f : AKey × AValue) → slice_get (entries_in heap.old.state other.0) index ≡ Some f → weight (with_entries heap.old.state of.0 (with_put overwrite (entries_in heap.old.state of.0) f)).cells ≤ 67108864 }
    ensures ok { OnOk result ((f : AKey × AValue) → slice_get (entries_in heap.old.state other.0) index ≡ Some f → heap.new.state ≡ with_entries heap.old.state of.0 (with_put overwrite (entries_in heap.old.state of.0) f)) }
    ensures memory { IfErr result (λ e. e ≡ Trouble.NoMemory) }
    ensures keeps { Keeps heap.old.state.cells heap.new.state.cells }
    ensures kept { RetainsAsMuch heap.old.state heap.new.state }
{
    let (key, value) = entries(heap, other).entry_at(index);
    if !overwrite && entries(heap, of).get(key).is_some() {
        return Ok(());
    }
    let (key, value) = (key.clone()?, value.clone()?);
    enter(heap, of, key, value)
}

/// Puts copies of another dictionary's entries in, where the heap has room for all, and the values that they overwrite weigh
/// nothing.
fn enter_all(heap: &mut Heap, of: Serial, other: Serial, overwrite: bool) -> Result<(), Trouble>
    requires dict { is_dict (cell_at heap.old.state.cells of.0) ≡ true }
    requires other { is_dict (cell_at heap.old.state.cells other.0) ≡ true }
    requires apart { other.0 ≢ of.0 }
    requires light { weights_less overwrite (entries_in heap.old.state of.0) (entries_in heap.old.state other.0) ≡ 0 }
    requires room { weight (with_entries heap.old.state of.0 (merged overwrite (entries_in heap.old.state of.0) (entries_in heap.old.state other.0))).cells ≤ 67108864 }
    ensures ok { OnOk result (heap.new.state ≡ with_entries heap.old.state of.0 (merged overwrite (entries_in heap.old.state of.0) (entries_in heap.old.state other.0))) }
    ensures memory { IfErr result (λ e. e ≡ Trouble.NoMemory) }
    ensures keeps { Keeps heap.old.state.cells heap.new.state.cells }
    ensures kept { RetainsAsMuch heap.old.state heap.new.state }
{
    for i in 0..entries(heap, other).len() {
        enter_at(heap, of, other, i, overwrite)?;
    }
    Ok(())
}

/// Puts copies of another dictionary's entries in, each over the value before, where the heap has room for all.
fn overwrite_all(heap: &mut Heap, of: Serial, other: Serial) -> Result<(), Trouble>
    requires dict { is_dict (cell_at heap.old.state.cells of.0) ≡ true }
    requires other { is_dict (cell_at heap.old.state.cells other.0) ≡ true }
    requires apart { other.0 ≢ of.0 }
    requires room { weight (with_entries heap.old.state of.0 (merged true (entries_in heap.old.state of.0) (entries_in heap.old.state other.0))).cells ≤ 67108864 }
    ensures ok { OnOk result (heap.new.state ≡ with_entries heap.old.state of.0 (merged true (entries_in heap.old.state of.0) (entries_in heap.old.state other.0))) }
    ensures memory { IfErr result (λ e. e ≡ Trouble.NoMemory) }
    ensures keeps { Keeps heap.old.state.cells heap.new.state.cells }
    ensures kept { RetainsAsMuch heap.old.state heap.new.state }
{
    set_nulls(heap, of, other)?;
    enter_all(heap, of, other, true)
}

/// Puts copies of another dictionary's entries in, where the heap has room for all.
fn put_all(heap: &mut Heap, of: Serial, other: Serial, overwrite: bool) -> Result<(), Trouble>
    requires dict { is_dict (cell_at heap.old.state.cells of.0) ≡ true }
    requires other { is_dict (cell_at heap.old.state.cells other.0) ≡ true }
    requires apart { other.0 ≢ of.0 }
    requires room { weight (with_entries heap.old.state of.0 (merged overwrite (entries_in heap.old.state of.0) (entries_in heap.old.state other.0))).cells ≤ 67108864 }
    ensures ok { OnOk result (heap.new.state ≡ with_entries heap.old.state of.0 (merged overwrite (entries_in heap.old.state of.0) (entries_in heap.old.state other.0))) }
    ensures memory { IfErr result (λ e. e ≡ Trouble.NoMemory) }
    ensures keeps { Keeps heap.old.state.cells heap.new.state.cells }
    ensures kept { RetainsAsMuch heap.old.state heap.new.state }
{
    if overwrite {
        overwrite_all(heap, of, other)
    } else {
        enter_all(heap, of, other, overwrite)
    }
}

/// Puts the entries of another dictionary in. A present key keeps its place, and its value where none is overwritten.
pub fn merge(heap: &mut Heap, of: Serial, other: Serial, overwrite: bool) -> Result<Value, Trouble>
    requires dict { is_dict (cell_at heap.old.state.cells of.0) ≡ true }
    requires other { is_dict (cell_at heap.old.state.cells other.0) ≡ true }
    ensures given { HasGiven result heap.old.state heap.new.state (merge_of heap.old.state of.0 other.0 overwrite) }
    ensures keeps { Keeps heap.old.state.cells heap.new.state.cells }
    ensures kept { RetainsAsMuch heap.old.state heap.new.state }
    ensures known { IfOk result (λ v. knows heap.new.state.cells v ≡ true) }
{
    fits(heap, of, other, overwrite)?;
    if other.0 == of.0 {
        return Ok(Value::Null);
    }
    put_all(heap, of, other, overwrite)?;
    Ok(Value::Null)
}
