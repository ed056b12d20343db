// Tests at run time of what the calls of values require.
ghost use Rattle.std.specs.Prelude.{◌≡◌, true, false};
ghost use Rattle.variant_values.specs.Heaps.{cell_at, is_array, is_dict, is_given, knows, knows_object, KnowsAll};
ghost use Rattle.variant_values.specs.Operations.{is_value_op};
ghost use Rattle.variant_values.specs.Operators.{is_text};
ghost use Rattle.variant_values.specs.Places.{is_counted};
ghost use Rattle.variant_values.specs.declared.operators.BinaryOp.TheVariants.{Rem};

use ref_objects::heap::Heap;
use variant_values::cells::Cell;
use variant_values::operators::BinaryOp;
use variant_values::values::{Serial, Value};
use variant_values::weights::is_counted;

/// Whether a serial was given.
pub fn is_given(heap: &Heap, s: Serial) -> bool
    ensures { result ≡ true → is_given heap.now.state.cells s ≡ true }
{
    s.0 != 0 && s.0.checked_add(heap.serials_left()).is_some()
}

pub fn is_array(heap: &Heap, s: Serial) -> bool
    ensures { result ≡ true → is_array (cell_at heap.now.state.cells s.0) ≡ true }
{
    is_given(heap, s) && matches!(heap.cell(s), Some(Cell::Array(_, _)))
}

pub fn is_dict(heap: &Heap, s: Serial) -> bool
    ensures { result ≡ true → is_dict (cell_at heap.now.state.cells s.0) ≡ true }
{
    is_given(heap, s) && matches!(heap.cell(s), Some(Cell::Dict(_)))
}

/// Whether a serial is that of an object that lives or has gone.
pub fn knows_object(heap: &Heap, s: Serial) -> bool
    ensures { result ≡ true → knows_object heap.now.state.cells s ≡ true }
{
    is_given(heap, s) && !matches!(heap.cell(s), Some(Cell::Array(_, _)) | Some(Cell::Dict(_)))
}

/// Whether an object may be freed by a call.
pub fn is_uncounted(heap: &Heap, s: Serial) -> bool
    ensures { result ≡ true → is_counted (cell_at heap.now.state.cells s.0) ≡ false }
{
    if !is_given(heap, s) {
        return false;
    }
    match heap.cell(s) {
        Some(cell) => !is_counted(cell),
        None => true,
    }
}

/// Whether the arrays and dictionaries that a value names live, and the objects live or have gone.
pub fn knows(heap: &Heap, v: &Value) -> bool
    ensures { result ≡ true → knows heap.now.state.cells v.now ≡ true }
{
    match v {
        Value::Null => true,
        Value::Bool(_) => true,
        Value::Int(_) => true,
        Value::Str(_) => true,
        Value::Array(s) => is_array(heap, *s),
        Value::Dict(s) => is_dict(heap, *s),
        Value::Object(s) => knows_object(heap, *s),
        Value::Callable(s, _) => knows_object(heap, *s),
        Value::Signal(s, _) => knows_object(heap, *s),
        Value::Class(_) => true,
        Value::Scene(_, _) => true,
        Value::Weak(s) => knows_object(heap, *s),
    }
}

/// Whether that is so of all.
pub fn knows_all(heap: &Heap, values: &[Value]) -> bool
    ensures { result ≡ true → KnowsAll heap.now.state.cells values.now }
{
    for v in values {
        if !knows(heap, v) {
            return false;
        }
    }
    true
}

fn is_text(v: &Value) -> bool
    ensures { result ≡ is_text v.now }
{
    matches!(v, Value::Str(_))
}

/// Whether an operator computes a value of two, and makes no format.
pub fn is_operation(op: BinaryOp, left: &Value) -> bool
    ensures value { result ≡ true → is_value_op op ≡ true }
    ensures format { result ≡ true → op ≡ Rem → is_text left.now ≡ false }
{
    match op {
        BinaryOp::And | BinaryOp::Or => false,
        BinaryOp::Rem => !is_text(left),
        _ => true,
    }
}
