//! What a cache has after a load that somebody joined: here memory is ample.
use crate::pair::gets_beside_a_joiner;
use std::test::Fail;

#[test]
fn joined_load_is_kept(rt: HostRuntime) -> Result<(), Fail> {
    let played = gets_beside_a_joiner(&rt, rt.alloc())?;
    assert!(rt; played.met, "the load is not met");
    assert!(rt; played.loads == 1, "{} loads", played.loads);
    Ok(())
}
