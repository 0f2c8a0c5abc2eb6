// Memory of no entry, of one, of uneven lengths, and of more than a cache may hold.
use cache_model::{CallRefusal, Entry, PushRefusal};
use load::PendingRequests;
use ready_cache::ReadyCache;
use service::{Endpoint, Poll};
use std::alloc::Global;
use std::process::Abort;
use std::test::Fail;
use workers::{Answer, Patterned};

// A worker that is always ready.
fn worker() -> Result<PendingRequests<Patterned>, Fail> {
    Ok(PendingRequests::new(Patterned::new(&[Answer::Ready])?))
}

// Pushes so many workers, each under a key of its own; answers how many were taken, and the last refusal.
fn push_all(
    cache: &mut ReadyCache<'_, u32, PendingRequests<Patterned>>,
    pushes: u32,
) -> Result<(u32, Option<PushRefusal>), Fail> {
    let worker = worker()?;
    let outcome = (0..pushes)
        .map(|key| cache.push(key, worker))
        .fold((0u32, None), |(count, refusal), answer| match answer {
            Ok(_) => (count.saturating_add(1), refusal),
            Err(error) => (count, Some(error.refusal)),
        });
    Ok(outcome)
}

// In memory of these lengths a cache takes `capacity` workers and refuses the next as full, while they are pending and
// when they are ready; once one is withdrawn there is a place again.
fn holds(
    rt: &impl Abort,
    heap: Global,
    ready: usize,
    pending: usize,
    capacity: u32,
) -> Result<(), Fail> {
    let blank = Entry::new(0, worker()?, 0);
    // not a `Memory`, whose two lists are of one length
    let mut ready = vec![in heap; blank; ready]?;
    let mut pending = vec![in heap; blank; pending]?;
    let mut cache = ReadyCache::new(ready.as_mut_slice(), pending.as_mut_slice(), 1);
    assert_eq!(rt; push_all(&mut cache, capacity)?, (capacity, None));
    assert_eq!(rt; push_all(&mut cache, 1)?, (0, Some(PushRefusal::Full)));
    assert_eq!(rt; cache.poll_pending(0), Ok(Poll::Ready(())));
    assert_eq!(rt; cache.ready_len(), capacity as usize);
    assert_eq!(rt; push_all(&mut cache, 1)?, (0, Some(PushRefusal::Full)));
    assert_eq!(rt; cache.evict(&0), capacity > 0);
    let again = if capacity > 0 {
        (1, None)
    } else {
        (0, Some(PushRefusal::Full))
    };
    assert_eq!(rt; push_all(&mut cache, 1)?, again);
    Ok(())
}

#[test]
fn no_memory_at_all(rt: HostRuntime) -> Result<(), Fail> {
    holds(&rt, rt.alloc(), 0, 0, 0)?;
    holds(&rt, rt.alloc(), 0, 5, 0)?;
    holds(&rt, rt.alloc(), 5, 0, 0)
}

#[test]
fn nothing_in_an_empty_cache(rt: HostRuntime) {
    let mut cache: ReadyCache<'_, u32, PendingRequests<Patterned>> = ReadyCache::new(
        &mut [],
        &mut [],
        1,
    );
    assert_eq!(rt; cache.check_ready_index(0, 0), Ok(false));
    assert_eq!(rt; cache.check_ready(&0, 0), Ok(false));
    assert!(rt; cache.load_ready_index(0, 0).is_none());
    assert!(rt; !cache.finish(1, 0, 0));
    assert!(rt; cache.is_empty());
    assert_eq!(rt; cache.call_ready_index(0, 0, 0), Err(CallRefusal::NotReady));
}

#[test]
fn memory_of_one(rt: HostRuntime) -> Result<(), Fail> {
    holds(&rt, rt.alloc(), 1, 1, 1)?;
    holds(&rt, rt.alloc(), 1, 9, 1)?;
    holds(&rt, rt.alloc(), 9, 1, 1)
}

#[test]
fn uneven_lengths(rt: HostRuntime) -> Result<(), Fail> {
    holds(&rt, rt.alloc(), 3, 8, 3)?;
    holds(&rt, rt.alloc(), 8, 3, 3)
}

#[test]
fn more_than_a_cache_may_hold(rt: HostRuntime) -> Result<(), Fail> {
    holds(&rt, rt.alloc(), 4095, 5000, 4095)?;
    holds(&rt, rt.alloc(), 4096, 4096, 4096)?;
    holds(&rt, rt.alloc(), 5000, 4097, 4096)
}
