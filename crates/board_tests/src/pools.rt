//! A pool of two blocks, as one link uses it.

use io_areas::Pool;
use std::test::Fail;

#[test]
fn what_was_recycled_comes_last(rt: HostRuntime) -> Result<(), Fail> {
    let mut pool = Pool::new(rt.alloc(), 2)?;
    assert!(rt; pool.next() == 0);
    pool.recycle(0);
    assert!(rt; pool.next() == 1);
    assert!(rt; pool.next() == 0);
    Ok(())
}
