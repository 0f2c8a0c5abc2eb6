// Sums of few cycles, added up by hand: each cycle adds the serial of the worker that was named and how many calls it took.
use crate::{cycles_by_count, cycles_by_time};
use std::test::Fail;

// the one worker has the serial 1, and takes its first call and its second
#[test]
fn one_worker(rt: HostRuntime) -> Result<(), Fail> {
    assert_eq!(rt;
        cycles_by_count(rt.alloc(), 1, 0, 0, 2, 0),
        (1 + 1) + (1 + 2)
    );
    assert_eq!(rt;
        cycles_by_time(rt.alloc(), 1, 0, 0, 2, 0),
        (1 + 1) + (1 + 2)
    );
    Ok(())
}

// of the keys 0 and 1 the first is divided by 2, and its worker is never ready; two requests stay out
#[test]
fn every_other_unready(rt: HostRuntime) -> Result<(), Fail> {
    assert_eq!(rt;
        cycles_by_count(rt.alloc(), 2, 2, 0, 3, 2),
        (2 + 1) + (2 + 2) + (2 + 3)
    );
    assert_eq!(rt;
        cycles_by_time(rt.alloc(), 2, 2, 0, 3, 2),
        (2 + 1) + (2 + 2) + (2 + 3)
    );
    Ok(())
}

// the worker leaves in the second and in the fourth cycle, and comes back with another serial; the end of the round takes the third
#[test]
fn leaves_and_comes_back(rt: HostRuntime) -> Result<(), Fail> {
    let sum = (1 + 1) + (2 + 1) + (2 + 2) + (3 + 1);
    assert_eq!(rt; cycles_by_count(rt.alloc(), 1, 0, 1, 4, 0), sum);
    assert_eq!(rt; cycles_by_time(rt.alloc(), 1, 0, 1, 4, 0), sum);
    Ok(())
}
