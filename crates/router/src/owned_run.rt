use balance::Balance;
use balance_model::Answer;
use cache_model::Entry;
use docket::DocketRecord;

/// A whole run that owns what it gives back: every answer, and how balancer, cache and docket stand at its close.
#[derive(Drop)]
pub struct OwnedRun<K, S, A, D, F, R> {
    /// The answer of each pick, in order.
    pub answers: Vec<Answer<K, A, F>>,
    /// The balancer, with what is left of its feed and its words.
    pub balance: Balance<D, R>,
    /// The ready workers, in the cache's order.
    pub ready: Vec<Entry<K, S>>,
    /// The pending workers, in the cache's order.
    pub pending: Vec<Entry<K, S>>,
    /// The place among the pending where the cache's next pass starts.
    pub resume: usize,
    /// The serial of the next worker.
    pub next_serial: u64,
    /// The requests that are still out, in the docket's order.
    pub records: Vec<DocketRecord>,
    /// The ticket of the next request.
    pub next_ticket: u64,
}
