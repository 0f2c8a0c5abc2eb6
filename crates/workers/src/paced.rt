ghost use Rattle.std.specs.Prelude.{◌≡◌, None};
ghost use Rattle.workers.specs.Paces.{paced_serves, new_paced};

use service::{Readiness, Service, ServiceRefusal};
use std::convert::Infallible;

/// A service that is busy for as long as each request says, and never fails.
#[derive(Clone, Copy)]
pub struct Paced {
    // the instant from which it is ready
    free: u64,
    grant: Option<u64>,
}

impl Paced {
    /// A service that is free from the instant 0 on.
    pub fn new() -> Self
        ensures made { result ≡ new_paced }
        ensures grant { paced_serves.grant result ≡ None }
    {
        Paced {
            free: 0,
            grant: None,
        }
    }
}

/// A request is a number of nanoseconds, and the response the instant from which it is free again.
impl Service for Paced {
    type Request = u64;

    type Response = u64;

    type Error = Infallible;

    ghost serves = { paced_serves };

    fn is_granted(&self) -> bool {
        self.grant.is_some()
    }

    fn poll_ready(&mut self, at: u64) -> Readiness<Infallible> {
        if self.free <= at {
            self.grant = Some(at);
            Readiness::Ready
        } else {
            self.grant = None;
            Readiness::Pending
        }
    }

    fn call(&mut self, request: u64, at: u64) -> Result<u64, ServiceRefusal> {
        self.grant.take().ok_or(ServiceRefusal::NoGrant)?;
        self.free = at.saturating_add(request);
        Ok(self.free)
    }
}
