//! A size and a merge. Cases stand in the crate `value_rows`.

use crate::merges::merge;
use crate::resizes::resize;
use call_support::changes::{new_array, new_dict};
use ref_objects::heap::Heap;
use std::test::Fail;
use variant_values::entries::Entries;
use variant_values::values::Value;

#[test]
fn an_array_of_three(rt: HostRuntime) -> Result<(), Fail> {
    let mut heap = Heap::new(rt.alloc())?;
    let Value::Array(s) = new_array(&mut heap, Vec::new(rt.alloc()), None)? else {
        return Err(Fail::from("no array"));
    };
    let size = resize(rt.alloc(), &mut heap, s, 3)?;
    assert!(rt; matches!(size, Value::Int(0)));
    Ok(())
}

#[test]
fn a_dictionary_and_itself(rt: HostRuntime) -> Result<(), Fail> {
    let mut heap = Heap::new(rt.alloc())?;
    let Value::Dict(s) = new_dict(&mut heap, Entries::new(rt.alloc()))? else {
        return Err(Fail::from("no dictionary"));
    };
    let merged = merge(&mut heap, s, s, true)?;
    assert!(rt; matches!(merged, Value::Null));
    Ok(())
}
