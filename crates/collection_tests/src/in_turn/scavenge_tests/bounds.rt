//! How many blocks a collection may want.
use scavenge::space_bound;
use std::test::Fail;

#[test]
fn bound_values(rt: HostRuntime) -> Result<(), Fail> {
    assert_eq!(rt; space_bound(80, 64, 1, 1), 2);
    assert_eq!(rt; space_bound(20000, 512, 16, 2), 83);
    assert_eq!(rt; space_bound(0, 16, 1, 1), 1);
    Ok(())
}
