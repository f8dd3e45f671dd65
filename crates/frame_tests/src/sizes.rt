use quorum_sets::laws::meet;
use quorum_sets::{BadSizes, Sizes, VoterSet};
use std::test::Fail;

#[test]
fn sizes_of_some_groups(rt: HostRuntime) -> Result<(), Fail> {
    for (f, k, n, q) in [(1, 0, 4, 3), (1, 1, 6, 4), (3, 0, 10, 7), (3, 2, 14, 9)] {
        let sizes = Sizes::new(f, k)?;
        assert_eq!(rt; sizes.n, n);
        assert_eq!(rt; sizes.q, q);
    }
    assert_eq!(rt; Sizes::new(0, 0).err(), Some(BadSizes));
    assert_eq!(rt; Sizes::new(1, 3).err(), Some(BadSizes));
    Ok(())
}

#[test]
fn two_quorums_meet(rt: HostRuntime) -> Result<(), Fail> {
    let sizes = Sizes::new(1, 0)?;
    let mut a = VoterSet::empty();
    assert!(rt; a.add(0));
    assert!(rt; a.add(3));
    assert!(rt; !a.add(3));
    assert!(rt; !a.is_quorum(&sizes));
    assert!(rt; a.add(2));
    let mut b = a.copied();
    assert_eq!(rt; b.len(), 3);
    assert!(rt; b.add(1));
    assert_eq!(rt; a.len(), 3);
    assert!(rt; a.is_quorum(&sizes));
    assert!(rt; b.is_quorum(&sizes));
    assert_eq!(rt; meet(&a, &b, &sizes), 3);
    Ok(())
}
