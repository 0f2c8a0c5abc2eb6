ghost use Rattle.balance_model.specs.Picks.{ForCalled, CallsMade};

/// One step of a caller: a poll, a call with its request, or a completion of a ticket, each at an instant in
/// nanoseconds.
#[derive(Clone, Copy)]
pub enum Pick<Q> {
    /// The balancer is polled.
    Poll { at: u64 },
    /// A request is sent to the worker that the latest poll named.
    Call { request: Q, at: u64 },
    /// The request under a ticket is over.
    Complete { ticket: u64, at: u64 },
}

impl<Q> Pick<Q> {
    /// The same, with what `make` makes of the request in a Call.
    pub fn map<T, G: FnOnce(Q) -> T>(self, make: G) -> Pick<T>
        requires { ForCalled self (G.pre make) }
        ensures { CallsMade (G.post make) self result }
    {
        match self {
            Pick::Poll { at } => Pick::Poll { at },
            Pick::Call { request, at } => Pick::Call {
                request: make(request),
                at,
            },
            Pick::Complete { ticket, at } => Pick::Complete { ticket, at },
        }
    }
}
