// Reading the feed: workers come and go.
ghost use Rattle.std.specs.Net.Reader.{map_or};
ghost use Rattle.std.specs.Prelude.{◌≡◌, length, Ok, Err};
ghost use Rattle.cache_model.specs.Entries.{ready_place};
ghost use Rattle.cache_model.specs.Cache.{evict};
ghost use Rattle.balance_model.specs.Balance.{FeedAnswer, read_one, read_feed, still_selected};
ghost use Rattle.balance.specs.Steps.{with_selected, with_feed_answer, ReadsFeedAs};

use crate::Balance;
use balance_model::{Kinds, PollError};
use discover::{Discover, Discovered};
use ready_cache::ReadyCache;
use rng::Rng;
use service::Endpoint;

// The selected place after the ready entry at `gone` left, of `len`, and the last one moved into the gap.
fn still_selected(selected: Option<usize>, len: usize, gone: Option<usize>) -> Option<usize>
    ensures { result ≡ still_selected selected len gone }
{
    match (selected, gone) {
        (Some(i), Some(place)) => {
            if i == place || (len > 0 && i == len - 1) {
                None
            } else {
                Some(i)
            }
        }
        _ => selected,
    }
}

impl<D: Discover, R: Rng> Balance<D, R>
where
    D::Service: Endpoint,
{
    // Evicts the key, and clears the selection if the selected worker left or moved.
    fn evict(&mut self, cache: &mut ReadyCache<'_, D::Key, D::Service>, key: &D::Key)
        ensures cache { cache.new ≡ (evict D.Key.sameness cache.old key.now).after }
        ensures after { let gone = ready_place D.Key.sameness key.now cache.old.ready in
            let still = still_selected self.old.selected (length cache.old.ready) gone in
            self.new ≡ with_selected self.old still }
    {
        let gone = cache.ready_index(key);
        let len = cache.ready_len();
        let _ = cache.evict(key);
        self.selected = still_selected(self.selected, len, gone);
    }

    // Reads one answer of the feed; answers whether to go on.
    fn read_one(
        &mut self,
        cache: &mut ReadyCache<'_, D::Key, D::Service>,
        at: u64,
    ) -> Result<bool, PollError<D::Key, D::Error>>
        ensures answer { let b = self.old in
            result ≡ (read_one D.Key.sameness D.feeds at b.feed b.selected cache.old).answer }
        ensures after { let b = self.old in
            let one = read_one D.Key.sameness D.feeds at b.feed b.selected cache.old in
            self.new ≡ with_feed_answer b one }
        ensures cache { let b = self.old in
            cache.new ≡ (read_one D.Key.sameness D.feeds at b.feed b.selected cache.old).cache }
    {
        match self.discover.poll_discover(at) {
            Discovered::Pending | Discovered::End => Ok(false),
            Discovered::Fault(error) => Err(PollError::Discover(error)),
            Discovered::Insert(key, service) => {
                cache.push(key, service)?;
                Ok(true)
            }
            Discovered::Remove(key) => {
                self.evict(cache, &key);
                Ok(true)
            }
        }
    }

    // Reads at most `budget` answers of the feed, up to a Pending or an End; a fault or a refused push ends it.
    pub(crate) fn read_feed(
        &mut self,
        cache: &mut ReadyCache<'_, D::Key, D::Service>,
        at: u64,
    ) -> Result<(), PollError<D::Key, D::Error>>
        ensures { let b = self.old in
            let feed = read_feed ⟦<D as Kinds<R>>⟧.kinds at b.budget b.feed b.selected cache.old in
            ReadsFeedAs feed result b self.new cache.new }
    {
        for _turn in 0..self.budget {
            if !self.read_one(cache, at)? {
                return Ok(());
            }
        }
        Ok(())
    }
}
