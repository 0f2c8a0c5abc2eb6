ghost use Rattle.std.specs.Net.Reader.{map_or};
ghost use Rattle.std.specs.Prelude.{◌≡◌, ℕ, ◌+◌, ◌≤◌, length, None, ◌==◌, slice_get};
ghost use Rattle.std.specs.Slice.Iter.{iter_rest};
ghost use Rattle.cache_model.specs.Entries.{any_live, ready_place};
ghost use Rattle.cache_model.specs.Cache.{capacity_of, new_cache, worker_count};
ghost use Rattle.cache_model.specs.Laws.{AlwaysLawful};
ghost use Rattle.ready_cache.specs.declared.ready_cache.TheConstants.{MOST};

use crate::entries;
use cache_model::Entry;
use service::{Endpoint, Key};
use std::marker::Model;
use std::slice::Iter;

/// A cache never holds more workers, however much memory it has.
pub const MOST: usize = 4096;

/// Workers of keys K and kind S, some of them ready for a request and the others pending.
///
/// The ready ones have one worker for each key at most, in the order in which they became ready, but for those that
/// moved into a gap. The pending ones stand in the order in which they are asked; cancelled ones count among them until
/// a pass comes to them.
// each list is the front of a slice, and its length stands beside it
#[derive(Drop)]
pub struct ReadyCache<'a, K, S> {
    pub(crate) ready: &'a mut [Entry<K, S>],
    pub(crate) pending: &'a mut [Entry<K, S>],
    pub(crate) ready_count: usize,
    pub(crate) pending_count: usize,
    pub(crate) next_serial: u64,
    pub(crate) resume: usize,
}

// Contracts see the two lists and the numbers; memory past the end of a list is in none of them.
impl<'a, K, S> Model for ReadyCache<'a, K, S> {
    ghost use Rattle.std.specs.Prelude.{◌+◌, ◌≤◌, length, take};
    ghost use Rattle.cache_model.specs.Cache.{Cache, capacity_of};

    ghost Value = { Cache K S };

    ghost view = { λ c. record {
      ready = take c.ready_count c.ready.now;
      pending = take c.pending_count c.pending.now;
      next = c.next_serial;
      resume = c.resume;
      capacity = capacity_of (length c.ready.now) (length c.pending.now);
    } };

    ghost invariant = { λ c. c.ready_count + c.pending_count
        ≤ capacity_of (length c.ready.now) (length c.pending.now) };
}

impl<'a, K: Key, S: Endpoint> ReadyCache<'a, K, S> {
    /// An empty cache in this memory, whose first worker gets this serial.
    ///
    /// It has room for as many workers as the shorter slice has places, and for [`MOST`] at most. Whatever is called
    /// then, no key has two ready workers, or two that are pending and not cancelled, and no two workers have one serial.
    pub fn new(
        ready: &'a mut [Entry<K, S>],
        pending: &'a mut [Entry<K, S>],
        first_serial: u64,
    ) -> Self
        ensures made { result ≡ new_cache
            (capacity_of (length ready.old) (length pending.old)) first_serial }
        ensures lawful { AlwaysLawful K.sameness S.means result }
    {
        ReadyCache {
            ready,
            pending,
            ready_count: 0,
            pending_count: 0,
            next_serial: first_serial,
            resume: 0,
        }
    }
}

impl<'a, K: Copy, S: Copy> ReadyCache<'a, K, S> {
    // How many workers there is room for, the ready and the pending together.
    pub(crate) fn capacity(&self) -> usize
        ensures { result ≡ self.now.capacity }
    {
        self.ready.len().min(self.pending.len()).min(MOST)
    }

    // The ready entries.
    fn ready(&self) -> &[Entry<K, S>]
        ensures { result.now ≡ self.now.ready }
    {
        &self.ready[..self.ready_count]
    }

    // The pending entries.
    fn pending(&self) -> &[Entry<K, S>]
        ensures { result.now ≡ self.now.pending }
    {
        &self.pending[..self.pending_count]
    }

    /// How many workers there are, the cancelled ones too.
    pub fn len(&self) -> usize
        ensures count { result ≡ worker_count self.now }
        ensures most { result ≤ MOST }
    {
        self.ready_count + self.pending_count
    }

    /// Whether there is no worker.
    pub fn is_empty(&self) -> bool
        ensures { result ≡ (worker_count self.now == 0) }
    {
        self.len() == 0
    }

    /// How many workers are ready.
    pub fn ready_len(&self) -> usize
        ensures { result ≡ length self.now.ready }
    {
        self.ready().len()
    }

    /// How many workers are pending, the cancelled ones too.
    pub fn pending_len(&self) -> usize
        ensures { result ≡ length self.now.pending }
    {
        self.pending().len()
    }

    /// The serial that the next worker gets.
    pub fn next_serial(&self) -> u64
        ensures { result ≡ self.now.next }
    {
        self.next_serial
    }

    /// The place among the pending where the next pass starts: 0, or where a fault ended the last one.
    pub fn resume(&self) -> usize
        ensures { result ≡ self.now.resume }
    {
        self.resume
    }

    /// The ready worker at a place, with its key and its serial.
    pub fn get_ready_index(&self, i: usize) -> Option<Entry<K, S>>
        ensures { result ≡ slice_get self.now.ready i }
    {
        self.ready().get(i).copied()
    }

    /// The ready workers, by their places.
    pub fn iter_ready(&self) -> Iter<'_, Entry<K, S>>
        ensures { iter_rest result ≡ self.now.ready }
    {
        self.ready().iter()
    }

    /// The pending workers, the cancelled ones too, in the order in which they are asked.
    pub fn iter_pending(&self) -> Iter<'_, Entry<K, S>>
        ensures { iter_rest result ≡ self.now.pending }
    {
        self.pending().iter()
    }
}

impl<'a, K: Key, S: Copy> ReadyCache<'a, K, S> {
    /// Whether a worker of the key is pending and not cancelled.
    pub fn pending_contains(&self, key: &K) -> bool
        ensures { result ≡ any_live K.sameness key.now self.now.pending }
    {
        entries::live_position(self.pending(), key).is_some()
    }

    /// The place of the key's worker among the ready.
    pub fn ready_index(&self, key: &K) -> Option<usize>
        ensures { result ≡ ready_place K.sameness key.now self.now.ready }
    {
        entries::key_position(self.ready(), key)
    }

    /// The ready worker of the key, with its serial.
    pub fn get_ready(&self, key: &K) -> Option<Entry<K, S>>
        ensures { result ≡ map_or (ready_place K.sameness key.now self.now.ready) None
            (slice_get self.now.ready) }
    {
        self.get_ready_index(self.ready_index(key)?)
    }
}
