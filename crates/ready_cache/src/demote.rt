// Ready workers that are ready no more: they leave the ready list, or go back to the pending ones.
ghost use Rattle.std.specs.Prelude.{◌≡◌, ◌<◌, OnSome, slice_get};
ghost use Rattle.cache_model.specs.Entries.{set_aside};
ghost use Rattle.cache_model.specs.Cache.{with_lists, remove, demote, worker_count};

use crate::ReadyCache;
use cache_model::Entry;
use service::Key;

impl<'a, K: Copy, S: Copy> ReadyCache<'a, K, S> {
    // Takes the ready entry at a place away: the last one moves into the gap.
    pub(crate) fn remove(&mut self, i: usize) -> Option<Entry<K, S>>
        ensures answer { result ≡ slice_get self.old.ready i }
        ensures after { self.new ≡ remove self.old i }
        ensures room { OnSome result (worker_count self.new < self.new.capacity) }
    {
        let entry = lists::swap_remove(&mut self.ready[..self.ready_count], i)?;
        self.ready_count -= 1;
        Some(entry)
    }
}

impl<'a, K: Key, S: Copy> ReadyCache<'a, K, S> {
    // Appends an entry that is no longer ready to pending, unless an uncancelled one there has its key.
    fn set_aside(&mut self, entry: Entry<K, S>)
        requires { worker_count self.old < self.old.capacity }
        ensures { self.new ≡ with_lists self.old self.old.ready
            (set_aside K.sameness entry self.old.pending) }
    {
        if self.pending_contains(&entry.key) {
            return;
        }
        self.pending[self.pending_count] = Entry {
            cancelled: false,
            ..entry
        };
        self.pending_count += 1;
    }

    // Moves the ready entry at a place to pending, unless an uncancelled one there has its key.
    pub(crate) fn demote(&mut self, i: usize)
        ensures { self.new ≡ demote K.sameness self.old i }
    {
        if let Some(entry) = self.remove(i) {
            self.set_aside(entry);
        }
    }
}
