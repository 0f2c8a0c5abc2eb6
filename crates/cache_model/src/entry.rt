ghost use Rattle.std.specs.Prelude.{◌≡◌};
ghost use Rattle.cache_model.specs.Entries.{new_entry};

/// A worker in a cache: an endpoint under its key, with the serial that it was given at its push.
///
/// An entry that is cancelled is no longer wanted: it stays among the pending until a pass comes to it, and is then
/// let go without being asked. Until then it is told of the ends of its requests.
// what searches read stands first
#[derive(Clone, Copy)]
pub struct Entry<K, S> {
    /// The number of the push that brought the worker: no two pushes of a cache have the same.
    pub serial: u64,
    /// The key under which the worker is known.
    pub key: K,
    /// Whether the worker was evicted, or another was pushed under its key, while it was pending.
    pub cancelled: bool,
    /// The worker.
    pub endpoint: S,
}

impl<K: Copy, S: Copy> Entry<K, S> {
    /// The entry of a new worker.
    pub fn new(key: K, endpoint: S, serial: u64) -> Self
        ensures { result ≡ new_entry key endpoint serial }
    {
        Entry {
            serial,
            key,
            cancelled: false,
            endpoint,
        }
    }
}
