// All cycles of a shape, with workers weighed by requests out or by response time.
ghost use Rattle.std.specs.Prelude.{◌≡◌, IfSome};
ghost use Rattle.rng.specs.Sources.{hasher_words};
ghost use Rattle.load.specs.Pending.{new_pending_requests};
ghost use Rattle.discover.specs.Feeds.{discovered_map};
ghost use Rattle.balance_model.specs.Balance.{newly_made};
ghost use Rattle.cycles.specs.Cycles.{cycles, making_of};
ghost use Rattle.cycles.specs.Sums.{answers_by_count, IsSumByCount, IsSumByTime, OfShape};

use crate::cycle::cycles;
use crate::repeated::Repeated;
use crate::shape::{Answers, Shape};
use balance::Balance;
use balance_model::Kinds;
use cache_model::Entry;
use discover::{Discover, Discovered};
use docket::Docket;
use load::{PeakEwma, PeakEwmaDiscover, PendingRequests, Settings, Squaring};
use ready_cache::ReadyCache;
use rng::HasherRng;
use router::Memory;
use service::{Endpoint, Service};
use std::alloc::Global;
use workers::Patterned;

// A poll reads at most so many answers of the feed.
const BUDGET: u32 = 4096;

// How response time is estimated.
const SETTINGS: Settings<Squaring> = Settings {
    decay: Squaring,
    default_rtt: 1_000_000_000,
    decay_period: 10_000_000_000,
};

// All cycles of a shape, over a feed, in memory that is blank at first; answers their sum, or none for want of memory.
#[tactic(auto, using(crate::proofs::Cycles::blank_places, crate::proofs::Cycles::sum_of_new))]
fn run<D>(heap: Global, feed: D, blank: D::Service, shape: Shape) -> Option<u64>
where
    D: Discover<Key = u32, Error = u32> + Drop,
    D::Service: Endpoint<Request = u32, Response = u64>,
    ensures { IfSome result (λ sum. sum ≡
        (cycles ⟦<D as Kinds<HasherRng>>⟧.kinds shape.out shape.cycles
        (newly_made (making_of shape.workers shape.out feed))).answer) }
{
    let workers = shape.workers.saturating_mul(2).saturating_add(2) as usize;
    let requests = shape.out.saturating_add(1) as usize;
    let Ok(mut memory) = Memory::new(heap, Entry::new(0, blank, 0), workers, requests) else {
        return None;
    };
    let mut cache = ReadyCache::new(
        memory.ready.as_mut_slice(),
        memory.pending.as_mut_slice(),
        1,
    );
    let mut docket = Docket::new(memory.records.as_mut_slice(), 1);
    let mut balance = Balance::from_rng(feed, HasherRng::new(), BUDGET);
    Some(cycles(
        &mut balance,
        &mut cache,
        &mut docket,
        shape.out,
        shape.cycles,
    ))
}

// An answer of the feed, with a worker weighed by requests out.
fn answer_by_count(
    answer: Discovered<u32, Patterned, u32>,
) -> Discovered<u32, PendingRequests<Patterned>, u32>
    ensures { result ≡ discovered_map new_pending_requests answer }
{
    answer.map(PendingRequests::new)
}

// Answers of the feed, with workers weighed by requests out.
fn answers_by_count(
    heap: Global,
    answers: Answers<Patterned>,
) -> Option<Answers<PendingRequests<Patterned>>>
    ensures { IfSome result (λ all. all.items ≡ answers_by_count answers.items) }
{
    answers.into_iter().map(answer_by_count).collect(heap).ok()
}

// The sum with workers weighed by requests out.
pub(crate) fn run_by_count(heap: Global, shape: Shape) -> Option<u64>
    ensures { IfSome result (OfShape IsSumByCount shape) }
{
    let first = answers_by_count(heap, shape.arrivals(heap)?)?;
    let round = answers_by_count(heap, shape.turnover(heap)?)?;
    let feed = Repeated::new(first.as_slice(), round.as_slice());
    let blank = PendingRequests::new(Patterned::new(&[]).ok()?);
    run(heap, feed, blank, shape)
}

// The sum with workers weighed by response time.
pub(crate) fn run_by_time(heap: Global, shape: Shape) -> Option<u64>
    ensures { IfSome result (OfShape IsSumByTime shape) }
{
    let first = shape.arrivals(heap)?;
    let round = shape.turnover(heap)?;
    let feed = Repeated::new(first.as_slice(), round.as_slice());
    let feed = PeakEwmaDiscover::new(feed, SETTINGS).ok()?;
    let blank = PeakEwma::new(Patterned::new(&[]).ok()?, SETTINGS, 0).ok()?;
    run(heap, feed, blank, shape)
}
