//! Sums of strings, keys, and the order of faults. Cases of operators stand in the crate `value_rows`.

use crate::faults::RunFault;
use crate::operators::{BinaryOp, binary};
use crate::texts::Str;
use crate::values::{Key, Value};
use std::process::Abort;
use std::test::Fail;

#[test]
fn a_sum_of_strings(rt: HostRuntime) -> Result<(), Fail> {
    let left = Value::Str(Str::new(rt.alloc(), "ab")?);
    let right = Value::Str(Str::new(rt.alloc(), "c")?);
    let Value::Str(text) = binary(rt.alloc(), BinaryOp::Add, &left, &right)? else {
        return Err(Fail::from("no string"));
    };
    assert_eq!(rt; text.as_str(), "abc");
    Ok(())
}

#[test]
fn a_string_is_a_key(rt: HostRuntime) -> Result<(), Fail> {
    let text = Str::new(rt.alloc(), "k")?;
    assert!(rt; Key::of(&Value::Str(text.clone()?))? == Key::Str(text));
    Ok(())
}

#[test]
fn the_order_of_faults(rt: HostRuntime) -> Result<(), Fail> {
    let row = [
        RunFault::NullAccess,
        RunFault::FreedAccess,
        RunFault::NotCallable,
        RunFault::NoMember,
        RunFault::NoMethod,
        RunFault::NoSignal,
        RunFault::BadArgs,
        RunFault::BadOperands,
        RunFault::BadKey,
        RunFault::BadIndex,
        RunFault::ElementType,
        RunFault::NoKey,
        RunFault::BadFormat,
        RunFault::BadType,
        RunFault::NodeBusy,
        RunFault::NoNode,
        RunFault::AlreadyConnected,
        RunFault::NotConnected,
        RunFault::DivisionByZero,
        RunFault::BadShift,
        RunFault::TooDeep,
        RunFault::TooLong,
        RunFault::HeapFull,
        RunFault::OutputFull,
        RunFault::CallTooDeep,
        RunFault::AssertFailed,
    ];
    for (i, fault) in row.iter().enumerate() {
        for (j, other) in row.iter().enumerate() {
            assert_eq!(rt; fault.comes_before(*other), i < j);
        }
    }
    Ok(())
}
