use plain_lists::{Bytes, Copied, Items, Same, Text, Vector};
use std::test::Fail;

#[test]
fn copies_are_equal_and_further_changes_show(rt: HostRuntime) -> Result<(), Fail> {
    let mut numbers: Vector = Items::new(rt.alloc());
    numbers.push(7)?;
    let mut copy = numbers.copy()?;
    assert!(rt; copy.is_same(&numbers));
    copy.push(8)?;
    assert!(rt; !copy.is_same(&numbers));
    assert_eq!(rt; copy.as_slice(), [7, 8].as_slice());
    assert_eq!(rt; numbers.as_slice(), [7].as_slice());
    Ok(())
}

#[test]
fn bytes_and_texts_copy(rt: HostRuntime) -> Result<(), Fail> {
    let bytes = Bytes::from_slice(rt.alloc(), &[1, 2, 3])?;
    let again = bytes.copy()?;
    assert!(rt; again.is_same(&bytes));
    assert_eq!(rt; again.len(), 3);
    let name = Text::from_str(rt.alloc(), "feeder_amps")?;
    assert!(rt; name.copy()?.is_same(&name));
    assert_eq!(rt; name.as_str(), "feeder_amps");
    Ok(())
}
