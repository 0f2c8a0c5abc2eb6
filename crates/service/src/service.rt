ghost use Rattle.std.specs.Prelude.{◌≡◌, is_some};
ghost use Rattle.service.specs.Meaning.{Services, service_call};

use crate::readiness::Readiness;
use crate::refusal::ServiceRefusal;

/// A bare service: it says whether it is ready, and takes one request after it said so.
pub trait Service: Copy {
    /// What it is sent.
    type Request: Copy;

    /// What it answers to a request.
    type Response: Copy;

    /// What it fails with.
    type Error: Copy;

    ghost serves: { Services Self (Self.Request) (Self.Response) (Self.Error) };

    /// Whether it said that it is ready, and was not asked or called since.
    fn is_granted(&self) -> bool
        ensures { result ≡ is_some (serves.grant self.now) };

    /// Asks whether it can take a request at the instant `at`. `Ready` grants one call; any other
    /// answer takes a grant away that an earlier one gave.
    fn poll_ready(&mut self, at: u64) -> Readiness<Self::Error>
        ensures answer { result ≡ (serves.poll_ready self.old at).answer }
        ensures after { self.new ≡ (serves.poll_ready self.old at).after };

    /// Sends a request at the instant `at`, which uses the grant up. Without one the call is
    /// refused, and nothing changes.
    fn call(&mut self, request: Self::Request, at: u64) -> Result<Self::Response, ServiceRefusal>
        ensures answer { result ≡ (service_call serves self.old request at).answer }
        ensures after { self.new ≡ (service_call serves self.old request at).after };
}
