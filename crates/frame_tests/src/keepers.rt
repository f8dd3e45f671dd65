use outside::{KeepAnswer, Keeper, MemoryKeeper};
use std::test::Fail;

#[test]
fn keepers_in_memory_fail_as_listed(rt: HostRuntime) -> Result<(), Fail> {
    let alloc = rt.alloc();
    let mut keeper = MemoryKeeper::make(alloc, vec![in alloc; 2, 4]?);
    keeper.append(&[1, 2])?;
    assert_eq!(rt; keeper.append(&[3]), Err(KeepAnswer::Failed));
    assert_eq!(rt; keeper.entries()?.len(), 1);
    assert_eq!(rt; keeper.entries().err(), Some(KeepAnswer::Failed));
    keeper.append(&[])?;
    let entries = keeper.entries()?;
    assert!(rt;
        matches!(entries.as_slice(), [first, last] if first.as_slice() == [1, 2].as_slice() && last.is_empty())
    );
    assert_eq!(rt; keeper.calls(), 6);
    Ok(())
}
