//! Each kind of receiver that a call allocates for once.

use crate::answers::NativeAnswer;
use crate::methods::method_call;
use call_support::changes::{new_array, new_dict};
use ref_objects::heap::Heap;
use std::test::Fail;
use variant_values::entries::Entries;
use variant_values::texts::Str;
use variant_values::values::Value;

#[test]
fn a_string_is_raised(rt: HostRuntime) -> Result<(), Fail> {
    let mut heap = Heap::new(rt.alloc())?;
    let of = Value::Str(Str::new(rt.alloc(), "az")?);
    let answer = method_call(rt.alloc(), &mut heap, &of, "to_upper", &[])?;
    let NativeAnswer::Value(Value::Str(text)) = answer else {
        return Err(Fail::from("no string"));
    };
    assert_eq!(rt; text.as_str(), "AZ");
    Ok(())
}

#[test]
fn an_array_takes_a_value(rt: HostRuntime) -> Result<(), Fail> {
    let mut heap = Heap::new(rt.alloc())?;
    let of = new_array(&mut heap, Vec::new(rt.alloc()), None)?;
    method_call(rt.alloc(), &mut heap, &of, "append", &[Value::Int(7)])?;
    let answer = method_call(rt.alloc(), &mut heap, &of, "back", &[])?;
    assert!(rt; matches!(answer, NativeAnswer::Value(Value::Int(7))));
    Ok(())
}

#[test]
fn a_dictionary_gives_its_default(rt: HostRuntime) -> Result<(), Fail> {
    let mut heap = Heap::new(rt.alloc())?;
    let of = new_dict(&mut heap, Entries::new(rt.alloc()))?;
    let key_and_default = [Value::Int(1), Value::Int(2)];
    let answer = method_call(rt.alloc(), &mut heap, &of, "get", &key_and_default)?;
    assert!(rt; matches!(answer, NativeAnswer::Value(Value::Int(2))));
    Ok(())
}
