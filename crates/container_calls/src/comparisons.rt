// The walk over two values.
ghost use Rattle.std.specs.Prelude.{◌≡◌, ◌<◌, ◌≤◌, true, false, length, IfOk, IfSome, Some, None, Ok};
ghost use Rattle.variant_values.specs.Heaps.{cell_at, is_array, is_dict, knows, KnowsAll, KnowsEntries};
ghost use Rattle.variant_values.specs.Comparisons.{by_test, count_equal, equality, first_equal, or_refused, same_at, same_by, same_entries, same_items, same_value, compared, verdict};
ghost use Rattle.container_calls.specs.Walks.{arrays_at, dicts_at, is_no, left_of};

use call_support::views::{entries, items};
use call_support::walks::{MOST_ITEMS, MOST_LEVELS};
use ref_objects::heap::Heap;
use variant_values::entries::Entries;
use variant_values::faults::RunFault;
use variant_values::operators::equal;
use variant_values::values::{Serial, Value};

/// The items that one walk may come to.
const ITEMS: u32 = MOST_ITEMS as u32;

fn compared(answer: Option<bool>, room: u32) -> Option<u32>
    ensures { Ok result ≡ compared answer room }
{
    match answer {
        Some(true) => Some(room),
        _ => None,
    }
}

/// How many items a walk may still come to, where it found no difference.
fn left_of(walked: &Result<Option<u32>, RunFault>) -> Option<u32>
    ensures { result ≡ left_of walked.now }
{
    match walked {
        Ok(left) => *left,
        Err(_) => None,
    }
}

/// Walks over two values, where so many levels may be opened, and so many items come to. Answers how many items it may
/// still come to, or None where the values differ.
#[cycle(walk)]
fn same_at(
    heap: &Heap,
    levels: u32,
    a: &Value,
    b: &Value,
    room: u32,
) -> Result<Option<u32>, RunFault>
    requires left { knows heap.now.state.cells a.now ≡ true }
    requires right { knows heap.now.state.cells b.now ≡ true }
    ensures { result ≡ same_by heap.now.state.cells (arrays_at heap.now.state.cells levels) (dicts_at heap.now.state.cells levels) a.now b.now room }
{
    match (a, b) {
        (Value::Array(a), Value::Array(b)) => same_arrays(heap, levels, *a, *b, room),
        (Value::Dict(a), Value::Dict(b)) => same_dicts(heap, levels, *a, *b, room),
        _ => Ok(compared(equal(a, b), room)),
    }
}

#[cycle(walk)]
fn same_arrays(
    heap: &Heap,
    levels: u32,
    a: Serial,
    b: Serial,
    room: u32,
) -> Result<Option<u32>, RunFault>
    requires left { is_array (cell_at heap.now.state.cells a.0) ≡ true }
    requires right { is_array (cell_at heap.now.state.cells b.0) ≡ true }
    ensures { result ≡ same_by heap.now.state.cells (arrays_at heap.now.state.cells levels) (dicts_at heap.now.state.cells levels) (Value.Array a) (Value.Array b) room }
{
    if a.0 == b.0 {
        return Ok(Some(room));
    }
    let (vs, ws) = (items(heap, a), items(heap, b));
    if vs.len() != ws.len() {
        return Ok(None);
    }
    open_arrays(heap, levels, vs, ws, room)
}

#[cycle(walk)]
fn open_arrays(
    heap: &Heap,
    levels: u32,
    vs: &[Value],
    ws: &[Value],
    room: u32,
) -> Result<Option<u32>, RunFault>
    requires size { length vs.now ≡ length ws.now }
    requires left { KnowsAll heap.now.state.cells vs.now }
    requires right { KnowsAll heap.now.state.cells ws.now }
    ensures { result ≡ arrays_at heap.now.state.cells levels vs.now ws.now room }
{
    if levels == 0 {
        return Err(RunFault::TooDeep);
    }
    same_items(heap, levels - 1, vs, ws, room)
}

#[cycle(walk)]
fn same_items(
    heap: &Heap,
    levels: u32,
    vs: &[Value],
    ws: &[Value],
    room: u32,
) -> Result<Option<u32>, RunFault>
    requires size { length vs.now ≡ length ws.now }
    requires left { KnowsAll heap.now.state.cells vs.now }
    requires right { KnowsAll heap.now.state.cells ws.now }
    ensures { result ≡ same_items (λ a b n. same_at heap.now.state.cells levels a b n) vs.now ws.now room }
{
    let mut left = room;
    for i in 0..vs.len() {
        if left == 0 {
            return Err(RunFault::TooDeep);
        }
        let walked = same_at(heap, levels, &vs[i], &ws[i], left - 1);
        let Some(rest) = left_of(&walked) else {
            return walked;
        };
        left = rest;
    }
    Ok(Some(left))
}

#[cycle(walk)]
fn same_dicts(
    heap: &Heap,
    levels: u32,
    a: Serial,
    b: Serial,
    room: u32,
) -> Result<Option<u32>, RunFault>
    requires left { is_dict (cell_at heap.now.state.cells a.0) ≡ true }
    requires right { is_dict (cell_at heap.now.state.cells b.0) ≡ true }
    ensures { result ≡ same_by heap.now.state.cells (arrays_at heap.now.state.cells levels) (dicts_at heap.now.state.cells levels) (Value.Dict a) (Value.Dict b) room }
{
    if a.0 == b.0 {
        return Ok(Some(room));
    }
    let (es, fs) = (entries(heap, a), entries(heap, b));
    if es.len() != fs.len() {
        return Ok(None);
    }
    open_dicts(heap, levels, es, fs, room)
}

#[cycle(walk)]
fn open_dicts(
    heap: &Heap,
    levels: u32,
    es: &Entries,
    fs: &Entries,
    room: u32,
) -> Result<Option<u32>, RunFault>
    requires left { KnowsEntries heap.now.state.cells es.now }
    requires right { KnowsEntries heap.now.state.cells fs.now }
    ensures { result ≡ dicts_at heap.now.state.cells levels es.now fs.now room }
{
    if levels == 0 {
        return Err(RunFault::TooDeep);
    }
    same_entries(heap, levels - 1, es, fs, room)
}

#[cycle(walk)]
fn same_entries(
    heap: &Heap,
    levels: u32,
    es: &Entries,
    fs: &Entries,
    room: u32,
) -> Result<Option<u32>, RunFault>
    requires left { KnowsEntries heap.now.state.cells es.now }
    requires right { KnowsEntries heap.now.state.cells fs.now }
    ensures { result ≡ same_entries (λ a b n. same_at heap.now.state.cells levels a b n) es.now fs.now room }
{
    let mut left = room;
    for i in 0..es.len() {
        if left == 0 {
            return Err(RunFault::TooDeep);
        }
        let (key, a) = es.entry_at(i);
        let Some(b) = fs.get(key) else {
            return Ok(None);
        };
        let walked = same_at(heap, levels, a, b, left - 1);
        let Some(rest) = left_of(&walked) else {
            return walked;
        };
        left = rest;
    }
    Ok(Some(left))
}

fn verdict(walked: Result<Option<u32>, RunFault>) -> Result<bool, RunFault>
    ensures { result ≡ verdict walked }
{
    match walked {
        Ok(Some(_)) => Ok(true),
        Ok(None) => Ok(false),
        Err(fault) => Err(fault),
    }
}

/// Whether two values are of one kind and equal, by a walk of its own.
pub fn same_value(heap: &Heap, a: &Value, b: &Value) -> Result<bool, RunFault>
    requires left { knows heap.now.state.cells a.now ≡ true }
    requires right { knows heap.now.state.cells b.now ≡ true }
    ensures { result ≡ same_value heap.now.state.cells a.now b.now }
{
    verdict(same_at(heap, MOST_LEVELS, a, b, ITEMS))
}

fn or_refused(answer: Option<bool>) -> Result<bool, RunFault>
    ensures { result ≡ or_refused answer }
{
    match answer {
        Some(b) => Ok(b),
        None => Err(RunFault::BadOperands),
    }
}

/// Whether `a == b`: both are of one kind, or one is null.
pub fn equality(heap: &Heap, a: &Value, b: &Value) -> Result<bool, RunFault>
    requires left { knows heap.now.state.cells a.now ≡ true }
    requires right { knows heap.now.state.cells b.now ≡ true }
    ensures { result ≡ equality heap.now.state.cells a.now b.now }
{
    match (a, b) {
        (Value::Array(_), Value::Array(_)) => same_value(heap, a, b),
        (Value::Dict(_), Value::Dict(_)) => same_value(heap, a, b),
        _ => or_refused(equal(a, b)),
    }
}

/// The place of the first item that is equal to a value, which is the left operand of each comparison.
pub fn first_equal(heap: &Heap, v: &Value, items: &[Value]) -> Result<Option<usize>, RunFault>
    requires value { knows heap.now.state.cells v.now ≡ true }
    requires items { KnowsAll heap.now.state.cells items.now }
    ensures found { result ≡ first_equal (λ w. same_value heap.now.state.cells v.now w) 0 items.now }
    ensures within { IfOk result (λ found. IfSome found (λ at. at < length items.now)) }
{
    for i in 0..items.len() {
        let same = same_value(heap, v, &items[i]);
        if !is_no(&same) {
            return same_place(same, i);
        }
    }
    Ok(None)
}

fn is_no(same: &Result<bool, RunFault>) -> bool
    ensures { result ≡ is_no same.now }
{
    match same {
        Ok(b) => !*b,
        Err(_) => false,
    }
}

fn same_place(same: Result<bool, RunFault>, i: usize) -> Result<Option<usize>, RunFault>
    requires { is_no same ≡ false }
    ensures found { result ≡ by_test same (Ok (Some i)) (Ok None) }
    ensures within { IfOk result (λ found. IfSome found (λ at. at ≡ i)) }
{
    match same {
        Ok(true) => Ok(Some(i)),
        Ok(false) => Ok(None),
        Err(fault) => Err(fault),
    }
}

/// How many items are equal to a value.
pub fn count_equal(heap: &Heap, v: &Value, items: &[Value]) -> Result<usize, RunFault>
    requires value { knows heap.now.state.cells v.now ≡ true }
    requires items { KnowsAll heap.now.state.cells items.now }
    ensures count { result ≡ count_equal (λ w. same_value heap.now.state.cells v.now w) 0 items.now }
    ensures few { IfOk result (λ count. count ≤ length items.now) }
{
    let mut count = 0;
    for i in 0..items.len() {
        match same_value(heap, v, &items[i]) {
            Ok(b) => count += usize::from(b),
            Err(fault) => return Err(fault),
        }
    }
    Ok(count)
}
