ghost use Rattle.std.specs.Prelude.{◌≡◌};
ghost use Rattle.cache_model.specs.Cache.{new_cache};
ghost use Rattle.worked_cases.specs.TwoPolls.{balancer, poll_at_0, serial_at, two_polls};

use balance::Balance;
use balance_model::{PollError, Polled};
use cache_model::Entry;
use discover::{Discovered, ListFeed};
use load::PendingRequests;
use ready_cache::ReadyCache;
use rng::ListRng;
use workers::Paced;

/// What two polls answer and leave.
#[derive(Drop)]
pub struct TwoPolls {
    /// What the first poll answers.
    pub first: Result<Polled, PollError<u32, u32>>,
    /// The place that is selected then.
    pub first_place: Option<usize>,
    /// What the second poll answers.
    pub second: Result<Polled, PollError<u32, u32>>,
    /// The place that is selected then.
    pub second_place: Option<usize>,
    /// The serials at the first three places among the ready, afterwards.
    pub ready: [Option<u64>; 3],
}

// The serial at a place among the ready.
#[tactic(auto, unfolding(crate::specs::TwoPolls::serial_at))]
fn serial_at(cache: &ReadyCache<'_, u32, PendingRequests<Paced>>, place: usize) -> Option<u64>
    ensures { result ≡ serial_at cache.now place }
{
    let entry = cache.get_ready_index(place)?;
    Some(entry.serial)
}

// A poll at the instant 0.
#[tactic(auto, unfolding(crate::specs::TwoPolls::poll_at_0))]
fn poll_at_0(
    balance: &mut Balance<ListFeed<'_, u32, PendingRequests<Paced>, u32>, ListRng<'_>>,
    cache: &mut ReadyCache<'_, u32, PendingRequests<Paced>>,
) -> Result<Polled, PollError<u32, u32>>
    ensures answer { result ≡ (poll_at_0 balance.old cache.old).answer }
    ensures balancer { balance.new ≡ (poll_at_0 balance.old cache.old).balancer }
    ensures cache { cache.new ≡ (poll_at_0 balance.old cache.old).cache }
{
    balance.poll_ready(cache, 0)
}

impl TwoPolls {
    // Two polls, and what they leave.
    #[tactic(auto, unfolding(crate::specs::TwoPolls::two_polls))]
    fn new(
        balance: &mut Balance<ListFeed<'_, u32, PendingRequests<Paced>, u32>, ListRng<'_>>,
        cache: &mut ReadyCache<'_, u32, PendingRequests<Paced>>,
    ) -> Self
        ensures { result ≡ two_polls balance.old cache.old }
    {
        let first = poll_at_0(balance, cache);
        let first_place = balance.selected();
        let second = poll_at_0(balance, cache);
        let second_place = balance.selected();
        let ready = [
            serial_at(cache, 0),
            serial_at(cache, 1),
            serial_at(cache, 2),
        ];
        TwoPolls {
            first,
            first_place,
            second,
            second_place,
            ready,
        }
    }

    // A cache of three places and a balancer over these answers and words, polled twice.
    #[tactic(auto, unfolding(crate::specs::TwoPolls::balancer))]
    pub(crate) fn over(
        answers: &[Discovered<u32, PendingRequests<Paced>, u32>],
        words: &[u64],
    ) -> Self
        ensures { result ≡ two_polls (balancer answers.entry words.entry) (new_cache 3 1) }
    {
        let blank = Entry::new(0, PendingRequests::new(Paced::new()), 0);
        let mut ready = [blank; 3];
        let mut pending = ready;
        let mut cache = ReadyCache::new(&mut ready, &mut pending, 1);
        let mut balance = Balance::from_rng(ListFeed::new(answers), ListRng::new(words), 4);
        TwoPolls::new(&mut balance, &mut cache)
    }
}
