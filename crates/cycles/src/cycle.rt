// One cycle of poll, call and completion, and many.
ghost use Rattle.std.specs.Prelude.{◌≡◌};
ghost use Rattle.balance_model.specs.Answers.{named_serial};
ghost use Rattle.balance_model.specs.Balance.{poll};
ghost use Rattle.balance.specs.Steps.{state};
ghost use Rattle.cycles.specs.Cycles.{Leaves, request, cycle, cycles};

use balance::{Balance, complete};
use balance_model::Kinds;
use discover::Discover;
use docket::Docket;
use ready_cache::ReadyCache;
use rng::Rng;
use service::{Endpoint, Poll};

// The nanoseconds from one cycle to the next.
const STEP: u64 = 1_000;

// A request to the worker that the latest poll named, and the completion of the ticket that was given `late` calls
// before. Answers that worker's serial and the response, added up, or none where the call is refused.
#[tactic(auto, unfolding(crate::specs::Cycles::request))]
fn request<D, R>(
    balance: &mut Balance<D, R>,
    cache: &mut ReadyCache<'_, u32, D::Service>,
    docket: &mut Docket<'_>,
    late: u32,
    serial: u64,
    at: u64,
) -> Option<u64>
where
    D: Discover<Key = u32, Error = u32>,
    R: Rng,
    D::Service: Endpoint<Request = u32, Response = u64>,
    ensures { Leaves
        (request ⟦<D as Kinds<R>>⟧.kinds late at serial (state balance.old cache.old docket.old))
        result (state balance.new cache.new docket.new) }
{
    let Ok((ticket, response)) = balance.call(cache, docket, 0, at) else {
        return None;
    };
    let _ = complete(cache, docket, ticket.saturating_sub(u64::from(late)), at);
    Some(serial.wrapping_add(response))
}

// Polls, and answers the serial of the worker that the poll names; none where it names nobody or a fault ends it.
fn poll_serial<D, R>(
    balance: &mut Balance<D, R>,
    cache: &mut ReadyCache<'_, u32, D::Service>,
    at: u64,
) -> Option<u64>
where
    D: Discover<Key = u32, Error = u32>,
    R: Rng,
    D::Service: Endpoint<Request = u32, Response = u64>,
    ensures answer { result ≡
        named_serial (poll ⟦<D as Kinds<R>>⟧.kinds at balance.old cache.old).answer }
    ensures balancer { balance.new ≡
        (poll ⟦<D as Kinds<R>>⟧.kinds at balance.old cache.old).balancer }
    ensures cache { cache.new ≡ (poll ⟦<D as Kinds<R>>⟧.kinds at balance.old cache.old).cache }
{
    match balance.poll_ready(cache, at).ok()?.worker {
        Poll::Ready(serial) => Some(serial),
        Poll::Pending => None,
    }
}

// One cycle: a poll, and a request to the worker that it names; none where it names nobody. Without a `Router`, so that
// the three calls alone are timed.
#[tactic(auto, unfolding(crate::specs::Cycles::cycle))]
fn cycle<D, R>(
    balance: &mut Balance<D, R>,
    cache: &mut ReadyCache<'_, u32, D::Service>,
    docket: &mut Docket<'_>,
    late: u32,
    at: u64,
) -> Option<u64>
where
    D: Discover<Key = u32, Error = u32>,
    R: Rng,
    D::Service: Endpoint<Request = u32, Response = u64>,
    ensures { Leaves
        (cycle ⟦<D as Kinds<R>>⟧.kinds late at (state balance.old cache.old docket.old))
        result (state balance.new cache.new docket.new) }
{
    let serial = poll_serial(balance, cache, at)?;
    request(balance, cache, docket, late, serial, at)
}

// So many cycles, a step from one to the next, the first at 0; answers the sum of what they answer, modulo 2^64.
#[tactic(auto, using(crate::proofs::Cycles::none_yet, crate::proofs::Cycles::one_more))]
pub(crate) fn cycles<D, R>(
    balance: &mut Balance<D, R>,
    cache: &mut ReadyCache<'_, u32, D::Service>,
    docket: &mut Docket<'_>,
    late: u32,
    count: u32,
) -> u64
where
    D: Discover<Key = u32, Error = u32>,
    R: Rng,
    D::Service: Endpoint<Request = u32, Response = u64>,
    ensures { Leaves
        (cycles ⟦<D as Kinds<R>>⟧.kinds late count (state balance.old cache.old docket.old))
        result (state balance.new cache.new docket.new) }
{
    let mut sum: u64 = 0;
    for i in 0..count {
        let at = u64::from(i) * STEP;
        sum = sum.wrapping_add(cycle(balance, cache, docket, late, at).unwrap_or(0));
    }
    sum
}
