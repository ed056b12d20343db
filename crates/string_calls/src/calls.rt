// Calls of the methods of strings.
ghost use Rattle.std.specs.Prelude.{◌≡◌, true, IfOk};
ghost use Rattle.variant_values.specs.Heaps.{knows, KnowsAll};
ghost use Rattle.variant_values.specs.Changes.{HasGiven, Keeps};
ghost use Rattle.variant_values.specs.StringMethods.{split_call, string_call_of};
ghost use Rattle.call_support.specs.Retaining.{RetainsAsMuch};

use crate::joins::{join, parts, replace};
use crate::methods;
use crate::methods::BAD_ARGS;
use call_support::arguments::one_string;
use call_support::changes::new_array;
use ref_objects::heap::Heap;
use std::alloc::Global;
use variant_values::faults::Trouble;
use variant_values::string_methods::StrMethod;
use variant_values::texts::Str;
use variant_values::values::Value;

fn split(alloc: Global, heap: &mut Heap, of: &Str, args: &[Value]) -> Result<Value, Trouble>
    ensures given { HasGiven result heap.old.state heap.new.state (split_call heap.old.state of.now args.now) }
    ensures keeps { Keeps heap.old.state.cells heap.new.state.cells }
    ensures kept { RetainsAsMuch heap.old.state heap.new.state }
{
    let Some(by) = one_string(args) else {
        return Err(BAD_ARGS);
    };
    if by.len() == 0 {
        return Err(BAD_ARGS);
    }
    let items = parts(alloc, of.as_str(), by.as_str())?;
    new_array(heap, items.items, None)
}

fn answer(
    alloc: Global,
    heap: &mut Heap,
    method: StrMethod,
    of: &Str,
    args: &[Value],
) -> Result<Value, Trouble>
    requires { KnowsAll heap.old.state.cells args.now }
    ensures given { HasGiven result heap.old.state heap.new.state (string_call_of heap.old.state method of.now args.now) }
    ensures keeps { Keeps heap.old.state.cells heap.new.state.cells }
    ensures kept { RetainsAsMuch heap.old.state heap.new.state }
{
    match method {
        StrMethod::Length => methods::length(of, args),
        StrMethod::IsEmpty => methods::is_empty(of, args),
        StrMethod::Substr => methods::substr(alloc, of, args),
        StrMethod::Left => methods::left(alloc, of, args),
        StrMethod::Right => methods::right(alloc, of, args),
        StrMethod::Find => methods::find(of, args),
        StrMethod::Contains => methods::contains(of, args),
        StrMethod::BeginsWith => methods::begins(of, args),
        StrMethod::EndsWith => methods::ends(of, args),
        StrMethod::Replace => replace(alloc, of, args),
        StrMethod::Split => split(alloc, heap, of, args),
        StrMethod::Join => join(alloc, heap, of, args),
        StrMethod::Repeat => methods::repeat(alloc, of, args),
        StrMethod::ToUpper => methods::to_upper(alloc, of, args),
        StrMethod::ToLower => methods::to_lower(alloc, of, args),
        StrMethod::StripEdges => methods::strip_edges(alloc, of, args),
        StrMethod::IsValidInt => methods::is_valid_int(of, args),
        StrMethod::ToInt => methods::to_int(of, args),
        StrMethod::UnicodeAt => methods::unicode_at(of, args),
    }
}

/// Calls a method of a string. Places and lengths count characters. `BadArgs` where the number or a kind of the arguments is
/// wrong, a number is negative (but a length of -1, which means the rest), `what` of `replace` or `by` of `split` is empty, a
/// joined item is no string, or `to_int` is of no whole number of 64 bits; `BadIndex` where `unicode_at` has no such
/// character; `TooLong` where a string would have more than 1,048,576 bytes, or an array more items than that; `HeapFull`
/// where `split` finds no room for its array, which no caller holds yet.
pub fn string_call(
    alloc: Global,
    heap: &mut Heap,
    method: StrMethod,
    of: &Str,
    args: &[Value],
) -> Result<Value, Trouble>
    requires { KnowsAll heap.old.state.cells args.now }
    ensures given { HasGiven result heap.old.state heap.new.state (string_call_of heap.old.state method of.now args.now) }
    ensures keeps { Keeps heap.old.state.cells heap.new.state.cells }
    ensures kept { RetainsAsMuch heap.old.state heap.new.state }
    ensures known { IfOk result (λ v. knows heap.new.state.cells v ≡ true) }
{
    answer(alloc, heap, method, of, args)
}
