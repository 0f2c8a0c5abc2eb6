// Taking workers in, and letting them go.
ghost use Rattle.std.specs.Prelude.{◌≡◌, OnErr};
ghost use Rattle.cache_model.specs.Cache.{push, evict};

use crate::{ReadyCache, entries};
use cache_model::{Entry, PushError, PushRefusal};
use service::Key;

impl<'a, K: Key, S: Copy> ReadyCache<'a, K, S> {
    /// Takes a worker in under its key, to the end of the pending ones; answers its serial, by which the ends of its
    /// requests name it.
    ///
    /// A pending worker of the key is cancelled. A ready one stays, and can be called, until the new one is ready and
    /// takes its place. Refused where the cache is full, and where no serial is left.
    pub fn push(&mut self, key: K, endpoint: S) -> Result<u64, PushError<K>>
        ensures answer { result ≡ (push K.sameness self.old key endpoint).answer }
        ensures after { self.new ≡ (push K.sameness self.old key endpoint).after }
        ensures refused { OnErr result (self.new ≡ self.old) }
    {
        if self.len() >= self.capacity() {
            return Err(PushError {
                key,
                refusal: PushRefusal::Full,
            });
        }
        let serial = self.next_serial;
        if serial == u64::MAX {
            return Err(PushError {
                key,
                refusal: PushRefusal::SerialsSpent,
            });
        }
        entries::cancel(&mut self.pending[..self.pending_count], &key);
        self.pending[self.pending_count] = Entry::new(key, endpoint, serial);
        self.pending_count += 1;
        self.next_serial += 1;
        Ok(serial)
    }

    /// Lets the workers of a key go; answers whether there was one. The ready one is taken away, and the pending one is
    /// cancelled: it counts among the pending until the next pass comes to it.
    pub fn evict(&mut self, key: &K) -> bool
        ensures answer { result ≡ (evict K.sameness self.old key.now).answer }
        ensures after { self.new ≡ (evict K.sameness self.old key.now).after }
    {
        let cancelled = entries::cancel(&mut self.pending[..self.pending_count], key);
        let Some(i) = self.ready_index(key) else {
            return cancelled;
        };
        self.remove(i);
        true
    }
}
