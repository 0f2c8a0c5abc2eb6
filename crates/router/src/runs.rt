ghost use Rattle.std.specs.Prelude.{◌≡◌, length, min, take, drop, IfOk};
ghost use Rattle.balance_model.specs.History.{answers_of};
ghost use Rattle.balance_model.specs.Promise.{Promise};
ghost use Rattle.router.specs.Runs.{making_of, state_of, whole_run, OwnedAs};

use crate::{Closing, Opening, OwnedRun, Router, Slices, memory};
use balance_model::{Answer, Kinds, Pick};
use discover::Discover;
use rng::Rng;
use service::Endpoint;
use std::alloc::{AllocError, Global};

/// Makes a new balancer, cache and docket in these slices, and applies the picks in order, as many as `answers` has
/// places for. Gives the three back with the number of picks applied.
///
/// The clauses hold of every run, whatever the kinds of key, worker, weight, feed and words, and whatever is picked;
/// `answers`, `state` and `promise` speak of one and the same run of the model, that of the picks applied:
///
/// - `count`: as many picks are applied as there are, or as there are places for answers if these are fewer
/// - `answers`: the answer of each pick applied stands at its place
/// - `rest`: the places after them are as they were
/// - `state`: balancer, both lists, serials, resume place, docket and tickets are those of the model's steps
/// - `promise`: its parts are
///   - `sent`: a request that was sent went to the worker that the last poll before it named, and in that poll this
///     worker gave its grant
///   - `six`: refusal 6 comes if and only if there was no poll before, or the last one named nobody, or its worker was
///     sent a request already
///   - `never`: no call finds its worker missing or without a grant (3, 4)
///   - `keys`: under one key stand at most one ready worker and at most one uncancelled pending one
///   - `serials`: two workers in the cache never have one serial
///   - `counts`: a worker's count is the one with which it was pushed, one higher for each request that it was sent, and
///     one lower for each of these that was completed
///   - `words`: the draws took exactly the words that the source gave
///   - `shares`: among two or more, a draw takes two words, and each worker wins by its share of the pairs of their
///     remainders; a single one is drawn without a word
///   - `searched`: a poll asks a ready worker only right after it was drawn among all that are ready, or first of all
///     where a worker was selected
pub fn run<'a, D: Discover, R: Rng>(
    slices: Slices<'a, D::Key, D::Service>,
    opening: Opening<D, R>,
    picks: &[Pick<<D::Service as Endpoint>::Request>],
    answers: &mut [Answer<D::Key, <D::Service as Endpoint>::Response, D::Error>],
) -> Closing<'a, D::Key, D::Service, D, R>
where
    D::Service: Endpoint,
    ensures count { result.count ≡ min (length picks.now) (length answers.old) }
    ensures answers { let m = ⟦<D as Kinds<R>>⟧.kinds in
        let run = whole_run m (making_of slices.entry opening) (take result.count picks.now) in
        take result.count answers.new ≡ answers_of run.history }
    ensures rest { drop result.count answers.new ≡ drop result.count answers.old }
    ensures state { let m = ⟦<D as Kinds<R>>⟧.kinds in
        let run = whole_run m (making_of slices.entry opening) (take result.count picks.now) in
        state_of result.router ≡ run.state }
    ensures promise { let m = ⟦<D as Kinds<R>>⟧.kinds in
        let run = whole_run m (making_of slices.entry opening) (take result.count picks.now) in
        Promise m (making_of slices.entry opening) run }
{
    let mut router = Router::new(slices, opening);
    let count = router.apply_all(picks, answers);
    Closing { router, count }
}

/// A [`run`] of all the picks that owns what it gives back: every answer, and copies of both lists and of the docket.
///
/// It wants memory for these; where there is none it answers so, and what was run is lost.
///
/// - `owned`: what is owned are the answers, lists and numbers of the model's steps over all the picks
/// - `promise`: of these steps holds what [`run`] promises, part by part, also where memory is wanted
#[tactic(auto, using(balance_model::proofs::Promised::promised))]
pub fn run_owned<D: Discover, R: Rng>(
    heap: Global,
    slices: Slices<'_, D::Key, D::Service>,
    opening: Opening<D, R>,
    picks: &[Pick<<D::Service as Endpoint>::Request>],
) -> Result<
    OwnedRun<D::Key, D::Service, <D::Service as Endpoint>::Response, D, D::Error, R>,
    AllocError,
>
where
    D: Drop,
    R: Drop,
    D::Service: Endpoint,
    ensures owned { let m = ⟦<D as Kinds<R>>⟧.kinds in
        let run = whole_run m (making_of slices.entry opening) picks.now in
        IfOk result (λ owned. OwnedAs owned (answers_of run.history) run.state) }
    ensures promise { let m = ⟦<D as Kinds<R>>⟧.kinds in
        let run = whole_run m (making_of slices.entry opening) picks.now in
        Promise m (making_of slices.entry opening) run }
{
    let mut answers = memory::answers(heap, picks.len())?;
    let closing = run(slices, opening, picks, answers.as_mut_slice());
    closing.router.into_owned(heap, answers)
}
