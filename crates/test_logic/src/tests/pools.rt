// Each call once, in a pool of two rows. The rows at the end are worked out by hand.
use std::test::Fail;
use xan_pool::{Full, Mark, Memory, RowPool};

#[test]
fn rows_come_and_go(rt: HostRuntime) -> Result<(), Fail> {
    let mut pool = RowPool::new(rt.alloc(), 2, 3)?;
    let first = pool.push(&[1, 2, 3])?;
    let mark = pool.mark();
    let second = pool.push(&[-4, -5, -6])?;
    assert_eq!(rt; pool.push(&[7, 8, 9]), Err(Full));
    pool.set(first, &[10, 20, 30]);
    assert_eq!(rt; pool.row(second), [-4, -5, -6].as_slice());
    pool.release(mark);
    let again = pool.push(&[7, 8, 9])?;
    assert_eq!(rt; pool.row(first), [10, 20, 30].as_slice());
    pool.slide(Mark(0), mark);
    assert_eq!(rt; pool.mark(), mark);
    assert_eq!(rt; pool.row(first), [7, 8, 9].as_slice());
    assert_eq!(rt; again, second);
    Ok(())
}

#[test]
fn no_room_for_all(rt: HostRuntime) -> Result<(), Fail> {
    assert!(rt; matches!(RowPool::new(rt.alloc(), usize::MAX, 128), Err(Memory)));
    Ok(())
}
