// The search for a ready worker.
ghost use Rattle.std.specs.Prelude.{◌≡◌};
ghost use Rattle.balance_model.specs.Draw.{weigh, draw};
ghost use Rattle.balance.specs.Steps.{candidate, drawn_place, with_words};

use crate::Balance;
use balance_model::Kinds;
use discover::Discover;
use ready_cache::ReadyCache;
use rng::{Rng, sample_floyd2};
use service::{Endpoint, Key, Weight};

// The lighter of two ready workers by their places: the first, unless it is heavier. Its load is read first.
fn lighter<K: Key, S: Endpoint>(
    cache: &mut ReadyCache<'_, K, S>,
    a: usize,
    b: usize,
    at: u64,
) -> usize
    ensures answer { result ≡ (weigh S.means S.Metric.order at cache.old a b).place }
    ensures after { cache.new ≡ (weigh S.means S.Metric.order at cache.old a b).cache }
{
    let first = cache.load_ready_index(a, at);
    let second = cache.load_ready_index(b, at);
    if let (Some(v), Some(w)) = (first, second)
        && !v.not_heavier(&w)
    {
        b
    } else {
        a
    }
}

impl<D: Discover, R: Rng> Balance<D, R>
where
    D::Service: Endpoint,
{
    // Draws a ready worker: a single one without a word, and of two or more the lighter of two sampled ones.
    pub(crate) fn p2c_ready_index(
        &mut self,
        cache: &mut ReadyCache<'_, D::Key, D::Service>,
        at: u64,
    ) -> Option<usize>
        ensures answer { let order = D.Service.Metric.order in
            let d = draw D.Service.means order at R.source cache.old self.old.words in
            result ≡ drawn_place cache.old d }
        ensures after { let order = D.Service.Metric.order in
            let d = draw D.Service.means order at R.source cache.old self.old.words in
            self.new ≡ with_words self.old d.words }
        ensures cache { let order = D.Service.Metric.order in
            let d = draw D.Service.means order at R.source cache.old self.old.words in
            cache.new ≡ d.cache }
    {
        match cache.ready_len() {
            0 => None,
            1 => Some(0),
            len => {
                let [a, b] = sample_floyd2(&mut self.rng, len as u64);
                Some(lighter(cache, a as usize, b as usize, at))
            }
        }
    }

    // The place to check first: the selected one if it is among the ready, otherwise one that is drawn.
    pub(crate) fn candidate(
        &mut self,
        cache: &mut ReadyCache<'_, D::Key, D::Service>,
        at: u64,
    ) -> Option<usize>
        ensures answer { let b = self.old in
            result ≡ (candidate ⟦<D as Kinds<R>>⟧.kinds at b.selected cache.old b.words).place }
        ensures after { let b = self.old in
            let found = candidate ⟦<D as Kinds<R>>⟧.kinds at b.selected cache.old b.words in
            self.new ≡ with_words b found.words }
        ensures cache { let b = self.old in
            cache.new ≡ (candidate ⟦<D as Kinds<R>>⟧.kinds at b.selected cache.old b.words).cache }
    {
        match self.selected {
            Some(i) if i < cache.ready_len() => Some(i),
            _ => self.p2c_ready_index(cache, at),
        }
    }
}
