// A walk through a cache, over any kind of key and worker.
use cache_model::Entry;
use ready_cache::ReadyCache;
use router::Memory;
use service::{Endpoint, Key};
use std::alloc::Global;
use std::process::Abort;
use std::test::Fail;

// Two keys, the first in two spellings.
#[derive(Clone, Copy)]
pub(crate) struct Keys<K> {
    pub(crate) one: K,
    pub(crate) again: K,
    pub(crate) two: K,
}

// The cache of a walk, its keys, and the worker that is pushed.
#[derive(Drop)]
struct CacheWalk<'a, K, S> {
    cache: ReadyCache<'a, K, S>,
    keys: Keys<K>,
    worker: S,
}

impl<'a, K: Key, S: Endpoint> CacheWalk<'a, K, S> {
    // The serial and the count of the ready worker of a key.
    fn ready_worker(&self, key: &K) -> Option<(u64, u32)> {
        self.cache
            .get_ready(key)
            .map(|entry| (entry.serial, entry.endpoint.count()))
    }

    // Whether the ready worker of a key still is ready.
    fn is_ready(&mut self, key: &K, at: u64) -> bool {
        self.cache.check_ready(key, at).unwrap_or(false)
    }

    // A worker is pushed, asked, sent a request and asked again, before and after it is ready again.
    fn send_and_finish(&mut self, rt: &impl Abort, request: S::Request) {
        let key = self.keys.one;
        assert!(rt; self.cache.push(key, self.worker).is_ok());
        assert!(rt; !self.is_ready(&key, 0));
        assert!(rt; self.cache.poll_pending(0).is_ok());
        assert_eq!(rt; self.ready_worker(&key), Some((7, 0)));
        assert!(rt; self.is_ready(&key, 1));
        assert!(rt; self.cache.call_ready(&key, request, 1).is_ok());
        assert_eq!(rt; self.cache.ready_len(), 0);
        assert!(rt; self.cache.pending_contains(&key));
        assert!(rt; self.cache.poll_pending(2).is_ok());
        assert_eq!(rt; self.cache.pending_len(), 1);
        assert!(rt; self.cache.poll_pending(10).is_ok());
        assert_eq!(rt; self.ready_worker(&key), Some((7, 1)));
        assert!(rt; self.cache.finish(7, 1, 10));
        assert!(rt; !self.cache.finish(8, 1, 10));
        assert_eq!(rt; self.ready_worker(&key), Some((7, 0)));
    }

    // Another worker takes the place of a ready one of the same key, and of a pending one of another key.
    fn supersede(&mut self, rt: &impl Abort) {
        let Keys { one, again, two } = self.keys;
        assert!(rt; self.cache.push(again, self.worker).is_ok());
        assert!(rt; self.cache.poll_pending(20).is_ok());
        assert_eq!(rt; self.ready_worker(&one), Some((8, 0)));
        assert_eq!(rt; self.cache.len(), 1);
        assert!(rt; self.cache.push(two, self.worker).is_ok());
        assert!(rt; self.cache.push(two, self.worker).is_ok());
        assert_eq!(rt; self.cache.pending_len(), 2);
        assert!(rt; self.cache.poll_pending(30).is_ok());
        assert_eq!(rt; self.ready_worker(&two), Some((10, 0)));
        assert_eq!(rt; self.cache.next_serial(), 11);
    }

    // Workers are withdrawn, ready and pending ones.
    fn withdraw(&mut self, rt: &impl Abort) {
        let Keys { one, again, two } = self.keys;
        assert!(rt; self.cache.evict(&again));
        assert!(rt; !self.cache.evict(&one));
        assert_eq!(rt; self.cache.ready_index(&two), Some(0));
        assert!(rt; self.cache.push(one, self.worker).is_ok());
        assert!(rt; self.cache.evict(&again));
        assert!(rt; !self.cache.pending_contains(&one));
        assert_eq!(rt; self.cache.pending_len(), 1);
        assert!(rt; self.cache.poll_pending(40).is_ok());
        assert_eq!(rt; self.cache.pending_len(), 0);
        assert_eq!(rt; self.cache.ready_len(), 1);
    }
}

// The walk. The worker has to answer Ready at 0 and 1, and after a request at 1 Pending at 2 and Ready at 10.
pub(crate) fn walk<K: Key, S: Endpoint>(
    rt: &impl Abort,
    heap: Global,
    keys: Keys<K>,
    worker: S,
    request: S::Request,
) -> Result<(), Fail> {
    let mut memory = Memory::new(heap, Entry::new(keys.two, worker, 0), 4, 0)?;
    let cache = ReadyCache::new(
        memory.ready.as_mut_slice(),
        memory.pending.as_mut_slice(),
        7,
    );
    let mut walk = CacheWalk {
        cache,
        keys,
        worker,
    };
    walk.send_and_finish(rt, request);
    walk.supersede(rt);
    walk.withdraw(rt);
    Ok(())
}
