// Element types of arrays.
ghost use Rattle.std.specs.Prelude.{◌≡◌, true};
ghost use Rattle.std.specs.List.{list_any};
ghost use Rattle.variant_values.specs.Classes.{same_class};
ghost use Rattle.variant_values.specs.Heaps.{cell_at, knows, knows_object, KnowsAll};
ghost use Rattle.variant_values.specs.ElementTypes.{all_taken, common, is_instance, is_of, is_taken, lineage_of, same_tag};

use ref_objects::heap::Heap;
use variant_values::cells::Cell;
use variant_values::classes::{ClassTag, ElementTag, is_same_class};
use variant_values::values::{Serial, Value};

fn is_among(tags: &[ClassTag], class: &ClassTag) -> bool
    ensures { result ≡ list_any (same_class class.now) tags.now }
{
    for tag in tags {
        if is_same_class(class, tag) {
            return true;
        }
    }
    false
}

fn has_class(heap: &Heap, of: Serial, class: &ClassTag) -> bool
    requires { knows_object heap.now.state.cells of ≡ true }
    ensures { result ≡ list_any (same_class class.now) (lineage_of (cell_at heap.now.state.cells of.0)) }
{
    match heap.cell(of) {
        Some(Cell::Object(object)) => is_among(object.lineage.as_slice(), class),
        _ => false,
    }
}

/// Whether a value is null, or a living object of the class.
fn is_instance(heap: &Heap, class: &ClassTag, v: &Value) -> bool
    requires { knows heap.now.state.cells v.now ≡ true }
    ensures { result ≡ is_instance heap.now.state.cells class.now v.now }
{
    match v {
        Value::Null => true,
        Value::Object(s) => has_class(heap, *s, class),
        _ => false,
    }
}

fn is_of(heap: &Heap, tag: ElementTag, v: &Value) -> bool
    requires { knows heap.now.state.cells v.now ≡ true }
    ensures { result ≡ is_of heap.now.state.cells tag v.now }
{
    match (tag, v) {
        (ElementTag::Bool, Value::Bool(_)) => true,
        (ElementTag::Int, Value::Int(_)) => true,
        (ElementTag::Str, Value::Str(_)) => true,
        (ElementTag::Array, Value::Array(_)) => true,
        (ElementTag::Dict, Value::Dict(_)) => true,
        (ElementTag::Callable, Value::Callable(_, _)) => true,
        (ElementTag::Signal, Value::Signal(_, _)) => true,
        (ElementTag::Scene, Value::Scene(_, _)) => true,
        (ElementTag::Weak, Value::Weak(_)) => true,
        (ElementTag::Class(class), _) => is_instance(heap, &class, v),
        _ => false,
    }
}

/// Whether an array of the element type takes a value.
pub fn is_taken(heap: &Heap, element: Option<ElementTag>, v: &Value) -> bool
    requires { knows heap.now.state.cells v.now ≡ true }
    ensures { result ≡ is_taken heap.now.state.cells element v.now }
{
    match element {
        Some(tag) => is_of(heap, tag, v),
        None => true,
    }
}

/// Whether it takes all of them.
pub fn all_taken(heap: &Heap, element: Option<ElementTag>, values: &[Value]) -> bool
    requires { KnowsAll heap.now.state.cells values.now }
    ensures { result ≡ all_taken heap.now.state.cells element values.now }
{
    for v in values {
        if !is_taken(heap, element, v) {
            return false;
        }
    }
    true
}

fn same_tag(a: ElementTag, b: ElementTag) -> bool
    ensures { result ≡ same_tag a b }
{
    match (a, b) {
        (ElementTag::Bool, ElementTag::Bool) => true,
        (ElementTag::Int, ElementTag::Int) => true,
        (ElementTag::Str, ElementTag::Str) => true,
        (ElementTag::Array, ElementTag::Array) => true,
        (ElementTag::Dict, ElementTag::Dict) => true,
        (ElementTag::Callable, ElementTag::Callable) => true,
        (ElementTag::Signal, ElementTag::Signal) => true,
        (ElementTag::Scene, ElementTag::Scene) => true,
        (ElementTag::Weak, ElementTag::Weak) => true,
        (ElementTag::Class(c), ElementTag::Class(d)) => is_same_class(&c, &d),
        _ => false,
    }
}

/// The element type that both have, where it is one.
pub fn common(a: Option<ElementTag>, b: Option<ElementTag>) -> Option<ElementTag>
    ensures { result ≡ common a b }
{
    match (a, b) {
        (Some(a), Some(b)) => if same_tag(a, b) { Some(a) } else { None },
        _ => None,
    }
}
