/// How a run opens.
#[derive(Drop)]
pub struct Opening<D, R> {
    /// Where the balancer learns which workers come and go.
    pub feed: D,
    /// The words that draws among ready workers take.
    pub words: R,
    /// How many answers of the feed a poll reads at most; above 4096 it is 4096.
    pub budget: u32,
    /// The serial of the first worker.
    pub first_serial: u64,
    /// The ticket of the first request that is sent.
    pub first_ticket: u64,
}
