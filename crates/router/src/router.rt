ghost use Rattle.std.specs.Prelude.{◌≡◌, length, min, take, drop, IfOk};
ghost use Rattle.balance_model.specs.Balance.{newly_made};
ghost use Rattle.balance_model.specs.History.{event, after, answer_of, answers_of, apply_all};
ghost use Rattle.router.specs.Runs.{state_of, making_of, from_state, AlwaysPromised, OwnedAs};

use crate::{Opening, OwnedRun, Slices};
use balance::{Balance, complete};
use balance_model::{Answer, Kinds, Pick};
use discover::Discover;
use docket::Docket;
use ready_cache::ReadyCache;
use rng::Rng;
use service::Endpoint;
use std::alloc::{AllocError, Global};

/// A balancer with its cache and its docket, to which picks are applied.
///
/// The three can be looked at between picks: `router.cache.iter_ready()`, `router.docket.len()`. A caller who also
/// changes the cache or the docket by itself is outside what is promised.
#[derive(Drop)]
pub struct Router<'a, K, S, D, R> {
    /// The two-choice balancer, which reads the feed and names a worker.
    pub balance: Balance<D, R>,
    /// The workers, ready and pending.
    pub cache: ReadyCache<'a, K, S>,
    /// The requests that are out.
    pub docket: Docket<'a>,
}

impl<'a, D: Discover, R: Rng> Router<'a, D::Key, D::Service, D, R>
where
    D::Service: Endpoint,
{
    /// A new balancer, cache and docket that work in these slices, where nothing was picked yet.
    ///
    /// - `made`: the three stand as the model has them when they are new
    /// - `promise`: whatever is picked then, step by step, all that is promised of a run holds
    #[tactic(auto, using(crate::proofs::Applying::always_promised))]
    pub fn new(slices: Slices<'a, D::Key, D::Service>, opening: Opening<D, R>) -> Self
        ensures made { state_of result ≡ newly_made (making_of slices.entry opening) }
        ensures promise { AlwaysPromised
            ⟦<D as Kinds<R>>⟧.kinds
            (making_of slices.entry opening) (state_of result) }
    {
        Router {
            balance: Balance::from_rng(opening.feed, opening.words, opening.budget),
            cache: ReadyCache::new(slices.ready, slices.pending, opening.first_serial),
            docket: Docket::new(slices.records, opening.first_ticket),
        }
    }

    /// Applies one pick, and answers what the poll, the call or the completion answers.
    ///
    /// For picks that come one at a time; [`Router::apply_all`] applies those of a slice.
    pub fn step(
        &mut self,
        pick: Pick<<D::Service as Endpoint>::Request>,
    ) -> Answer<D::Key, <D::Service as Endpoint>::Response, D::Error>
        ensures answer { result ≡ answer_of (event
            ⟦<D as Kinds<R>>⟧.kinds
            (state_of self.old) pick) }
        ensures after { state_of self.new ≡ after
            ⟦<D as Kinds<R>>⟧.kinds
            (state_of self.old) pick }
    {
        let Router {
            balance,
            cache,
            docket,
        } = self;
        match pick {
            Pick::Poll { at } => Answer::Polled(balance.poll_ready(cache, at)),
            Pick::Call { request, at } => Answer::Called(balance.call(cache, docket, request, at)),
            Pick::Complete { ticket, at } => Answer::Completed(complete(cache, docket, ticket, at)),
        }
    }

    /// Applies the picks in order, as many as `answers` has places for, and answers how many: each answer stands at
    /// the place of its pick, and the other places are as they were.
    ///
    /// Where memory for answers is short, the picks from that number on can be applied next, over the same memory.
    pub fn apply_all(
        &mut self,
        picks: &[Pick<<D::Service as Endpoint>::Request>],
        answers: &mut [Answer<D::Key, <D::Service as Endpoint>::Response, D::Error>],
    ) -> usize
        ensures count { result ≡ min (length picks.now) (length answers.old) }
        ensures answers { let m = ⟦<D as Kinds<R>>⟧.kinds in
            let run = apply_all m (from_state (state_of self.old)) (take result picks.now) in
            take result answers.new ≡ answers_of run.history }
        ensures rest { drop result answers.new ≡ drop result answers.old }
        ensures state { let m = ⟦<D as Kinds<R>>⟧.kinds in
            let run = apply_all m (from_state (state_of self.old)) (take result picks.now) in
            state_of self.new ≡ run.state }
    {
        let count = picks.len().min(answers.len());
        // by place: of what is written through `iter_mut` a contract knows nothing
        for i in 0..count {
            answers[i] = self.step(picks[i]);
        }
        count
    }

    // These answers, with copies of both lists and of the docket.
    pub(crate) fn into_owned(
        self,
        heap: Global,
        answers: Vec<Answer<D::Key, <D::Service as Endpoint>::Response, D::Error>>,
    ) -> Result<
        OwnedRun<D::Key, D::Service, <D::Service as Endpoint>::Response, D, D::Error, R>,
        AllocError,
    >
    where
        D: Drop,
        R: Drop,
        ensures { IfOk result (λ owned. OwnedAs owned answers.items (state_of self.entry)) }
    {
        let Router {
            balance,
            cache,
            docket,
        } = self;
        let ready = Vec::from_slice(heap, cache.iter_ready().as_slice())?;
        let pending = Vec::from_slice(heap, cache.iter_pending().as_slice())?;
        let records = Vec::from_slice(heap, docket.iter().as_slice())?;
        Ok(OwnedRun {
            answers,
            balance,
            ready,
            pending,
            resume: cache.resume(),
            next_serial: cache.next_serial(),
            records,
            next_ticket: docket.next_ticket(),
        })
    }
}
