use super::*;
use std::test::Fail;

#[test]
fn lists_of_numbers(rt: HostRuntime) -> Result<(), Fail> {
    let mut items: Items<u32> = Items::new(rt.alloc());
    assert!(rt; items.is_empty());
    items.push(1)?;
    items.push(2)?;
    let copy = items.clone()?;
    assert!(rt; copy == items);
    let same = Items::from_vec(vec![in rt.alloc(); 1_u32, 2]?);
    assert!(rt; same == items);
    items.push(3)?;
    assert_eq!(rt; items.len(), 3);
    assert_eq!(rt; items.get(1), Some(&2));
    assert_eq!(rt; items.as_slice(), &[1, 2, 3][..]);
    assert_eq!(rt; copy.len(), 2);
    assert!(rt; !(copy == items));
    Ok(())
}

#[test]
fn boxes_of_numbers(rt: HostRuntime) -> Result<(), Fail> {
    let one: Boxed<u32> = Boxed::new(rt.alloc(), 1)?;
    let copy = one.clone()?;
    let two: Boxed<u32> = Boxed::new(rt.alloc(), 2)?;
    assert!(rt; copy == one);
    assert!(rt; !(two == one));
    assert_eq!(rt; *two.get(), 2);
    assert_eq!(rt; copy.into_inner(), 1);
    Ok(())
}
