//! Each public call that allocates once. Cases stand in the crate `value_rows`.

use crate::array_calls::array_call;
use crate::dict_calls::dict_call;
use crate::indexing::{get_index, set_index};
use crate::operations::operate;
use call_support::changes::{new_array, new_dict};
use ref_objects::heap::Heap;
use std::test::Fail;
use variant_values::container_methods::{ArrayMethod, DictMethod};
use variant_values::entries::Entries;
use variant_values::operators::BinaryOp;
use variant_values::texts::Str;
use variant_values::values::Value;

#[test]
fn calls_of_arrays(rt: HostRuntime) -> Result<(), Fail> {
    let mut heap = Heap::new(rt.alloc())?;
    let a = new_array(&mut heap, Vec::new(rt.alloc()), None)?;
    let sum = operate(rt.alloc(), &mut heap, BinaryOp::Add, &a, &a)?;
    let Value::Array(s) = sum else {
        return Err(Fail::from("no array"));
    };
    let copy = array_call(rt.alloc(), &mut heap, ArrayMethod::Duplicate, s, &[])?;
    assert!(rt; matches!(copy, Value::Array(_)));
    Ok(())
}

#[test]
fn an_entry_is_written(rt: HostRuntime) -> Result<(), Fail> {
    let mut heap = Heap::new(rt.alloc())?;
    let d = new_dict(&mut heap, Entries::new(rt.alloc()))?;
    set_index(rt.alloc(), &mut heap, &d, &Value::Int(1), Value::Int(10))?;
    Ok(())
}

#[test]
fn a_character_is_read(rt: HostRuntime) -> Result<(), Fail> {
    let heap = Heap::new(rt.alloc())?;
    let of = Value::Str(Str::new(rt.alloc(), "ab")?);
    let found = get_index(rt.alloc(), &heap, &of, &Value::Int(1))?;
    assert!(rt; matches!(found, Value::Str(_)));
    Ok(())
}

#[test]
fn a_dictionary_is_copied(rt: HostRuntime) -> Result<(), Fail> {
    let mut heap = Heap::new(rt.alloc())?;
    let Value::Dict(s) = new_dict(&mut heap, Entries::new(rt.alloc()))? else {
        return Err(Fail::from("no dictionary"));
    };
    let copy = dict_call(rt.alloc(), &mut heap, DictMethod::Duplicate, s, &[])?;
    assert!(rt; matches!(copy, Value::Dict(_)));
    Ok(())
}
