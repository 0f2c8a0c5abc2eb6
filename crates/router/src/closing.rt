use crate::Router;

/// How a run closes.
#[derive(Drop)]
pub struct Closing<'a, K, S, D, R> {
    /// Balancer, cache and docket, which can be looked at, and stepped further.
    pub router: Router<'a, K, S, D, R>,
    /// How many picks were applied; so many places of the memory for answers are written.
    pub count: usize,
}
