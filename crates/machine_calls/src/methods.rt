// Calls of methods by a receiver and a name.
ghost use Rattle.std.specs.Prelude.{◌≡◌, true, false, IfOk, List, Option, Some, codes, bytes_eq};
ghost use Rattle.variant_values.specs.Changes.{Given, HasGiven, Keeps};
ghost use Rattle.variant_values.specs.Heaps.{Heap as HeapState, cell_at, is_array, is_dict, knows, knows_object, KnowsAll};
ghost use Rattle.variant_values.specs.declared.cells.Cell.{Cell};
ghost use Rattle.variant_values.specs.declared.values.Value.{Value};
ghost use Rattle.variant_values.specs.declared.values.Value.TheVariants as value;
ghost use Rattle.native_calls.specs.Natives.{method_native, from_given, HasFunction};
ghost use Rattle.machine_calls.specs.Answers.{is_made, HasAnswered, KnowsAnswer};

use crate::answers::NativeAnswer;
use crate::names::{array_method, dict_method, string_method};
use call_support::views::lives;
use container_calls::{array_call, dict_call};
use ref_objects::heap::Heap;
use std::alloc::Global;
use string_calls::string_call;
use variant_values::faults::{RunFault, Trouble};
use variant_values::texts::Str;
use variant_values::values::{Serial, Value};

const NO_METHOD: Trouble = Trouble::Fault(RunFault::NoMethod);

fn valued(given: Result<Value, Trouble>) -> Result<NativeAnswer, Trouble>
    ensures given { (args : List Value) (old new : HeapState) (told : Given) → HasGiven given old new told → HasAnswered result args old new (Some (from_given told)) }
    ensures known { (cells : List (Option Cell)) → IfOk given (λ v. knows cells v ≡ true) → IfOk result (KnowsAnswer cells) }
{
    match given {
        Ok(v) => Ok(NativeAnswer::Value(v)),
        Err(trouble) => Err(trouble),
    }
}

fn of_string(
    alloc: Global,
    heap: &mut Heap,
    of: &Str,
    name: &str,
    args: &[Value],
) -> Result<NativeAnswer, Trouble>
    requires { KnowsAll heap.old.state.cells args.now }
    ensures given { (has : HasFunction) → HasAnswered result args.now heap.old.state heap.new.state (method_native has heap.old.state (value.Str of.now) name.now args.now) }
    ensures keeps { Keeps heap.old.state.cells heap.new.state.cells }
    ensures known { IfOk result (KnowsAnswer heap.new.state.cells) }
{
    match string_method(name) {
        Some(method) => valued(string_call(alloc, heap, method, of, args)),
        None => Err(NO_METHOD),
    }
}

fn of_array(
    alloc: Global,
    heap: &mut Heap,
    of: Serial,
    name: &str,
    args: &[Value],
) -> Result<NativeAnswer, Trouble>
    requires array { is_array (cell_at heap.old.state.cells of.0) ≡ true }
    requires args { KnowsAll heap.old.state.cells args.now }
    ensures given { (has : HasFunction) → HasAnswered result args.now heap.old.state heap.new.state (method_native has heap.old.state (value.Array of) name.now args.now) }
    ensures keeps { Keeps heap.old.state.cells heap.new.state.cells }
    ensures known { IfOk result (KnowsAnswer heap.new.state.cells) }
{
    match array_method(name) {
        Some(method) => valued(array_call(alloc, heap, method, of, args)),
        None => Err(NO_METHOD),
    }
}

fn of_dict(
    alloc: Global,
    heap: &mut Heap,
    of: Serial,
    name: &str,
    args: &[Value],
) -> Result<NativeAnswer, Trouble>
    requires dict { is_dict (cell_at heap.old.state.cells of.0) ≡ true }
    requires args { KnowsAll heap.old.state.cells args.now }
    ensures given { (has : HasFunction) → HasAnswered result args.now heap.old.state heap.new.state (method_native has heap.old.state (value.Dict of) name.now args.now) }
    ensures keeps { Keeps heap.old.state.cells heap.new.state.cells }
    ensures known { IfOk result (KnowsAnswer heap.new.state.cells) }
{
    match dict_method(name) {
        Some(method) => valued(dict_call(alloc, heap, method, of, args)),
        None => Err(NO_METHOD),
    }
}

fn of_callable(
    heap: &Heap,
    of: Serial,
    method: &Str,
    name: &str,
    args: &[Value],
) -> Result<NativeAnswer, Trouble>
    requires object { knows_object heap.now.state.cells of ≡ true }
    requires made { bytes_eq (codes "is_valid") name.now ≡ false }
    ensures given { (has : HasFunction) → HasAnswered result args.now heap.now.state heap.now.state (method_native has heap.now.state (value.Callable of method.now) name.now args.now) }
    ensures known { IfOk result (KnowsAnswer heap.now.state.cells) }
{
    match name {
        "call" => {
            if !lives(heap, of) {
                return Err(Trouble::Fault(RunFault::FreedAccess));
            }
            Ok(NativeAnswer::Call(Value::Callable(of, method.clone()?)))
        }
        _ => Err(NO_METHOD),
    }
}

/// Calls a method of a value by its name, where the call is made here: all methods of strings, arrays and dictionaries, `call`
/// of a callable, and every name of null, a bool, an int, and an object or a signal whose object has gone. The fault is the
/// first of these that applies: `NullAccess`; `FreedAccess` where the object of the receiver has gone; `NoMethod`; `BadArgs`;
/// and then those of the call. `call` of a callable whose object has gone is `FreedAccess`. What is new is held by no caller
/// yet.
pub fn method_call(
    alloc: Global,
    heap: &mut Heap,
    of: &Value,
    name: &str,
    args: &[Value],
) -> Result<NativeAnswer, Trouble>
    requires made { is_made heap.old.state.cells of.now name.now ≡ true }
    requires of { knows heap.old.state.cells of.now ≡ true }
    requires args { KnowsAll heap.old.state.cells args.now }
    ensures given { (has : HasFunction) → HasAnswered result args.now heap.old.state heap.new.state (method_native has heap.old.state of.now name.now args.now) }
    ensures keeps { Keeps heap.old.state.cells heap.new.state.cells }
    ensures known { IfOk result (KnowsAnswer heap.new.state.cells) }
{
    match of {
        Value::Null => Err(Trouble::Fault(RunFault::NullAccess)),
        Value::Bool(_) | Value::Int(_) => Err(NO_METHOD),
        Value::Str(text) => of_string(alloc, heap, text, name, args),
        Value::Array(s) => of_array(alloc, heap, *s, name, args),
        Value::Dict(s) => of_dict(alloc, heap, *s, name, args),
        Value::Object(_) | Value::Signal(_, _) => Err(Trouble::Fault(RunFault::FreedAccess)),
        Value::Callable(s, method) => of_callable(heap, *s, method, name, args),
        Value::Class(_) | Value::Scene(_, _) | Value::Weak(_) => unreachable!(),
    }
}
