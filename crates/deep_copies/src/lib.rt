//! Deep copies of arrays and dictionaries.
#![tactic(auto)]

ghost use Rattle.std.specs.Prelude.{◌≡◌, true, IfOk};
ghost use Rattle.variant_values.specs.Heaps.{knows};
ghost use Rattle.variant_values.specs.Changes.{Keeps, HasGiven};
ghost use Rattle.variant_values.specs.Copies.{deep_copy_of};
ghost use Rattle.deep_copies.specs.DeepCopies.{IsDeepCopy};
ghost use Rattle.call_support.specs.Retaining.{RetainsAsMuch};

mod copies;
mod rooms;
#[cfg(test)]
mod tests;

use crate::copies::copy_value;
use crate::rooms::takes_copy;
use call_support::walks::{MOST_LEVELS, is_within};
use ref_objects::heap::Heap;
use std::alloc::Global;
use variant_values::faults::{RunFault, Trouble};
use variant_values::values::Value;

/// Copies a value with all containers inside. What is no container stays shared.
pub fn deep_copy(alloc: Global, heap: &mut Heap, of: &Value) -> Result<Value, Trouble>
    requires { knows heap.old.state.cells of.now ≡ true }
    ensures given { HasGiven result heap.old.state heap.new.state (deep_copy_of heap.old.state of.now) }
    ensures apart { IfOk result (λ v. IsDeepCopy heap.old.state.cells heap.new.state.cells of.now v) }
    ensures keeps { Keeps heap.old.state.cells heap.new.state.cells }
    ensures kept { RetainsAsMuch heap.old.state heap.new.state }
    ensures known { IfOk result (λ v. knows heap.new.state.cells v ≡ true) }
{
    heap.is_sound();
    if !is_within(heap, of) {
        return Err(Trouble::Fault(RunFault::TooDeep));
    }
    if !takes_copy(heap, of) {
        return Err(Trouble::Fault(RunFault::HeapFull));
    }
    Ok(copy_value(alloc, heap, of, MOST_LEVELS)?)
}
