//! Each public call once. Cases stand in the crate `value_rows`.

use crate::calls::string_call;
use crate::formats::format_text;
use crate::texts::text_of;
use ref_objects::heap::Heap;
use std::test::Fail;
use variant_values::classes::ClassNames;
use variant_values::string_methods::StrMethod;
use variant_values::texts::Str;
use variant_values::values::Value;

#[test]
fn each_call(rt: HostRuntime) -> Result<(), Fail> {
    let mut heap = Heap::new(rt.alloc())?;
    let names = ClassNames::new(Vec::new(rt.alloc()));
    let of = Str::new(rt.alloc(), "az")?;
    let upper = string_call(rt.alloc(), &mut heap, StrMethod::ToUpper, &of, &[])?;
    let text = text_of(rt.alloc(), &heap, &upper, &names)?;
    assert_eq!(rt; text.as_str(), "AZ");
    let pattern = Str::new(rt.alloc(), "%03d")?;
    let text = format_text(rt.alloc(), &heap, &pattern, &Value::Int(7), &names)?;
    assert_eq!(rt; text.as_str(), "007");
    Ok(())
}
