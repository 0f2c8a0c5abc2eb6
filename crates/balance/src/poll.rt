// A poll of the balancer.
ghost use Rattle.std.specs.Prelude.{◌≡◌};
ghost use Rattle.cache_model.specs.Answers.{by_check};
ghost use Rattle.cache_model.specs.Cache.{poll_pending};
ghost use Rattle.balance_model.specs.Balance.{poll, settle_all, serial_at};
ghost use Rattle.balance.specs.Steps.{loses_one, PassesAs};
ghost use Rattle.balance_model.specs.Polls.{PollLawful};

use crate::Balance;
use balance_model::{Kinds, PollError, Polled};
use cache_model::{Failed, PendingError};
use discover::Discover;
use ready_cache::{MOST, ReadyCache};
use rng::Rng;
use service::{Endpoint, Key, Poll};

// Passes over pending once; answers whether a worker failed and left.
fn loses_one<K: Key, S: Endpoint, F: Copy>(
    cache: &mut ReadyCache<'_, K, S>,
    at: u64,
) -> Result<bool, PollError<K, F>>
    ensures answer { result ≡ loses_one (poll_pending K.sameness S.means at cache.old).answer }
    ensures after { cache.new ≡ (poll_pending K.sameness S.means at cache.old).after }
{
    match cache.poll_pending(at) {
        Ok(_) => Ok(false),
        Err(PendingError::Failed(_)) => Ok(true),
        Err(PendingError::NoPlace(no_place)) => Err(PollError::from(no_place)),
    }
}

// Passes over pending until none fails; answers how many did.
fn settle<K: Key, S: Endpoint, F: Copy>(
    cache: &mut ReadyCache<'_, K, S>,
    at: u64,
) -> Result<u32, PollError<K, F>>
    ensures { PassesAs (settle_all K.sameness S.means at cache.old) result cache.new }
{
    // each pass that loses a worker leaves fewer, so the count fits
    prove!(cache.len() <= MOST);
    let mut lost = 0;
    while loses_one(cache, at)? {
        lost += 1;
    }
    Ok(lost)
}

// How many workers a check lost: the one asked, if it failed.
fn lost_by<K: Copy, E: Copy>(checked: Result<bool, Failed<K, E>>) -> u32
    ensures { result ≡ by_check checked 0 0 1 }
{
    match checked {
        Ok(_) => 0,
        Err(_) => 1,
    }
}

// The serial of the ready worker at a place; there is one after a check that answered Ready.
fn worker_at<K: Key, S: Endpoint>(cache: &ReadyCache<'_, K, S>, place: usize) -> Poll<u64>
    ensures { result ≡ serial_at cache.now (Some place) }
{
    match cache.get_ready_index(place) {
        Some(entry) => Poll::Ready(entry.serial),
        None => Poll::Pending,
    }
}

impl<D: Discover, R: Rng> Balance<D, R>
where
    D::Service: Endpoint,
{
    /// Reads the feed, asks the pending workers, and names a ready one if there is any: the last that it asked, which
    /// is then the selected one. `at` is the instant of the poll, in nanoseconds.
    ///
    /// Answers its serial, or Pending where nobody is ready, and how many workers failed in this poll. A fault of the
    /// feed, a worker of the feed that the cache refuses, and a missing place among the ready end the poll with an
    /// error; what was done before stands, and a call then is refused.
    pub fn poll_ready(
        &mut self,
        cache: &mut ReadyCache<'_, D::Key, D::Service>,
        at: u64,
    ) -> Result<Polled, PollError<D::Key, D::Error>>
        ensures answer { result ≡ (poll ⟦<D as Kinds<R>>⟧.kinds at self.old cache.old).answer }
        ensures after { self.new ≡ (poll ⟦<D as Kinds<R>>⟧.kinds at self.old cache.old).balancer }
        ensures cache { cache.new ≡ (poll ⟦<D as Kinds<R>>⟧.kinds at self.old cache.old).cache }
        ensures lawful { let m = ⟦<D as Kinds<R>>⟧.kinds in
            PollLawful m at self.old cache.old (poll m at self.old cache.old) }
    {
        self.fresh = false;
        self.read_feed(cache, at)?;
        let mut lost = settle(cache, at)?;
        // each worker that is held is lost at most once, so the count fits
        prove!(cache.len() <= MOST);
        self.selected = self.candidate(cache, at);
        loop {
            let Some(place) = self.selected else {
                let worker = Poll::Pending;
                return Ok(Polled { worker, lost });
            };
            let checked = cache.check_ready_index(place, at);
            if checked.unwrap_or(false) {
                self.fresh = true;
                let worker = worker_at(cache, place);
                return Ok(Polled { worker, lost });
            }
            lost += lost_by(checked);
            self.selected = self.p2c_ready_index(cache, at);
        }
    }
}
