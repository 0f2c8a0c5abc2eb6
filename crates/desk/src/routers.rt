// Two routers over the same week: one weighs workers by requests out, the other by response time.
use crate::ticket::{Ticket, tickets};
use crate::week;
use anyhow::Context;
use balance_model::Pick;
use cache_model::Entry;
use discover::{Discover, Discovered, ListFeed};
use keys::Name;
use load::{Halving, PeakEwma, PeakEwmaDiscover, PendingRequests, Settings};
use rng::HasherRng;
use router::{Memory, Opening, run};
use service::Endpoint;
use std::alloc::Global;
use std::convert::Infallible;
use std::iter::repeat_n;
use workers::Paced;

// The name of this text, as a key.
fn name(text: &str) -> anyhow::Result<Name> {
    Name::new(text.as_bytes()).ok().context("not a name")
}

// What a router is told of its workers: all of Monday's at first, and on Thursday some go and others come. A poll reads
// up to the next Pending, so one stands for each of the polls until then.
fn feed<S: Copy>(heap: Global, worker: S) -> anyhow::Result<Vec<Discovered<Name, S, Infallible>>> {
    let mut answers = Vec::new(heap);
    for text in week::WORKERS {
        answers.push(Discovered::Insert(name(text)?, worker))?;
    }
    answers.extend(repeat_n(Discovered::Pending, 3 * week::PER_DAY))?;
    for text in week::WITHDRAWN {
        answers.push(Discovered::Remove(name(text)?))?;
    }
    for text in week::ADDED {
        answers.push(Discovered::Insert(name(text)?, worker))?;
    }
    Ok(answers)
}

/// The week's picks, one list for both routers; or want of memory for them.
///
/// For each request there is a poll, a call, and the completion of the ticket three before, all at the request's
/// instant. The last three tickets stay out.
pub fn picks(heap: Global) -> anyhow::Result<Vec<Pick<u64>>> {
    let mut picks = Vec::new(heap);
    let requests = (0..week::DAYS).flat_map(|day| week::requests(day * week::DAY_LENGTH));
    for (ticket, request) in (1u64..).zip(requests) {
        let at = request.at;
        picks.push(Pick::Poll { at })?;
        picks.push(Pick::Call {
            request: request.takes,
            at,
        })?;
        if ticket > 3 {
            picks.push(Pick::Complete {
                ticket: ticket - 3,
                at,
            })?;
        }
    }
    Ok(picks)
}

// For how many workers a router has memory.
const WORKERS: usize = 16;

// For how many requests out it has memory.
const REQUESTS: usize = 64;

// Runs the picks over a feed, and answers the tickets. `filler` fills the memory for workers before the run.
fn tickets_of<D: Discover<Key = Name, Error = Infallible> + Drop>(
    heap: Global,
    feed: D,
    filler: D::Service,
    picks: &[Pick<u64>],
) -> anyhow::Result<Vec<Ticket>>
where
    D::Service: Endpoint<Request = u64, Response = u64>,
{
    let blank = Entry::new(name("none")?, filler, 0);
    let mut memory = Memory::new(heap, blank, WORKERS, REQUESTS)?;
    let mut answers = router::answers(heap, picks.len())?;
    let opening = Opening {
        feed,
        words: HasherRng::new(),
        budget: 16,
        first_serial: 1,
        first_ticket: 1,
    };
    run(
        memory.as_mut_slices(),
        opening,
        picks,
        answers.as_mut_slice(),
    );
    Ok(tickets(heap, picks, answers.as_slice())?)
}

/// The tickets for quotes: workers are weighed by requests out.
pub fn quotes(heap: Global, picks: &[Pick<u64>]) -> anyhow::Result<Vec<Ticket>> {
    let worker = PendingRequests::new(Paced::new());
    let answers = feed(heap, worker)?;
    tickets_of(heap, ListFeed::new(answers.as_slice()), worker, picks)
}

// How the response times of revaluation are estimated: a minute at first, halved with each whole minute that passes.
const SETTINGS: Settings<Halving> = Settings {
    decay: Halving,
    default_rtt: week::MINUTE,
    decay_period: week::MINUTE,
};

/// The tickets for revaluation: workers are weighed by response time.
pub fn revaluation(heap: Global, picks: &[Pick<u64>]) -> anyhow::Result<Vec<Ticket>> {
    let answers = feed(heap, Paced::new())?;
    let discover = PeakEwmaDiscover::new(ListFeed::new(answers.as_slice()), SETTINGS)
        .ok()
        .context("a duration is zero")?;
    let filler = PeakEwma::new(Paced::new(), SETTINGS, 0)
        .ok()
        .context("a duration is zero")?;
    tickets_of(heap, discover, filler, picks)
}
