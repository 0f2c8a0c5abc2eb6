ghost use Rattle.std.specs.Prelude.{◌≡◌};
ghost use Rattle.service.specs.Meaning.{Endpoints, endpoint_call};

use crate::readiness::Readiness;
use crate::refusal::EndpointRefusal;
use crate::weight::Weight;

/// A service that also counts its requests out and has a weight: what a cache holds, and a
/// balancer chooses among.
pub trait Endpoint: Copy {
    /// What it is sent.
    type Request: Copy;

    /// What it answers to a request.
    type Response: Copy;

    /// What it fails with.
    type Error: Copy;

    /// What it weighs by.
    type Metric: Weight;

    ghost means: { Endpoints Self (Self.Request) (Self.Response) (Self.Error) (Self.Metric) };

    /// How many requests are out: sent, and not finished.
    fn count(&self) -> u32
        ensures { result ≡ means.count self.now };

    /// Asks whether it can take a request at the instant `at`, as a bare service.
    fn poll_ready(&mut self, at: u64) -> Readiness<Self::Error>
        ensures answer { result ≡ (means.poll_ready self.old at).answer }
        ensures after { self.new ≡ (means.poll_ready self.old at).after };

    /// Sends a request at the instant `at`, which uses the grant up and counts as out until
    /// `finish`. A refused call changes nothing.
    fn call(&mut self, request: Self::Request, at: u64) -> Result<Self::Response, EndpointRefusal>
        ensures answer { result ≡ (endpoint_call means self.old request at).answer }
        ensures after { self.new ≡ (endpoint_call means self.old request at).after };

    /// A request that was sent at the instant `sent` is over at `at`.
    fn finish(&mut self, sent: u64, at: u64)
        ensures { self.new ≡ means.finish self.old sent at };

    /// The weight at the instant `at`.
    fn load(&mut self, at: u64) -> Self::Metric
        ensures answer { result ≡ means.weight self.old at }
        ensures after { self.new ≡ means.load self.old at };
}
