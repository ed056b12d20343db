ghost use Rattle.std.specs.Prelude.{◌≡◌, true};
ghost use Rattle.variant_values.specs.Heaps.{knows};
ghost use Rattle.variant_values.specs.Comparisons.{is_true};

use call_support::views::{entries, items, lives};
use ref_objects::heap::Heap;
use variant_values::values::Value;

/// The truth of a value. False are null, false, 0, the empty text, an empty container, and an object that has gone.
pub fn truth(heap: &Heap, v: &Value) -> bool
    requires { knows heap.now.state.cells v.now ≡ true }
    ensures { result ≡ is_true heap.now.state.cells v.now }
{
    match v {
        Value::Null => false,
        Value::Bool(b) => *b,
        Value::Int(n) => *n != 0,
        Value::Str(text) => text.len() != 0,
        Value::Array(s) => items(heap, *s).len() != 0,
        Value::Dict(s) => entries(heap, *s).len() != 0,
        Value::Object(s) => lives(heap, *s),
        Value::Callable(_, _) => true,
        Value::Signal(_, _) => true,
        Value::Class(_) => true,
        Value::Scene(_, _) => true,
        Value::Weak(_) => true,
    }
}
