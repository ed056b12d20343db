//! A copy. Cases stand in the crate `value_rows`.

use crate::deep_copy;
use call_support::changes::new_array;
use ref_objects::heap::Heap;
use std::test::Fail;
use variant_values::values::Value;

#[test]
fn an_array_is_copied(rt: HostRuntime) -> Result<(), Fail> {
    let mut heap = Heap::new(rt.alloc())?;
    let a = new_array(&mut heap, Vec::new(rt.alloc()), None)?;
    let copy = deep_copy(rt.alloc(), &mut heap, &a)?;
    assert!(rt; matches!(copy, Value::Array(s) if s.0 == 2));
    Ok(())
}
