// How the workers of a run are made, called and looked at.
use anyhow::Context;
use load::{Decay, PeakEwma, PendingRequests, RttEstimate, Settings};
use service::{Endpoint, Invalid, Service};
use std::fmt::Display;
use workers::{Paced, Patterned};

/// A bare service of a run: its responses are numbers, and its failures are printed.
pub trait Bare: Service<Response = u64, Error: Display> {
    /// The service that comes with this pattern; a paced one does not look at it.
    fn with(&self, pattern: Patterned) -> Self;

    /// The request that a pick's number says.
    fn request(number: u64) -> Self::Request;
}

impl Bare for Patterned {
    fn with(&self, pattern: Patterned) -> Patterned {
        pattern
    }

    // the low 32 bits of the number
    fn request(number: u64) -> u32 {
        (number % 4_294_967_296) as u32
    }
}

impl Bare for Paced {
    fn with(&self, _pattern: Patterned) -> Paced {
        *self
    }

    fn request(number: u64) -> u64 {
        number
    }
}

/// A worker of a run, which takes the requests of its bare service.
pub trait Worker: Endpoint<Response = u64, Error: Display> {
    /// The request that a pick's number says.
    fn request(number: u64) -> Self::Request;

    /// The estimate of response time, if it is weighed by that.
    fn rtt_estimate(&self) -> Option<RttEstimate>;
}

impl<B: Bare> Worker for PendingRequests<B> {
    fn request(number: u64) -> B::Request {
        B::request(number)
    }

    fn rtt_estimate(&self) -> Option<RttEstimate> {
        None
    }
}

impl<B: Bare, D: Decay> Worker for PeakEwma<B, D> {
    fn request(number: u64) -> B::Request {
        B::request(number)
    }

    fn rtt_estimate(&self) -> Option<RttEstimate> {
        Some(self.estimate())
    }
}

/// The value, or an error where it is not allowed.
pub fn valid<T>(value: Result<T, Invalid>) -> anyhow::Result<T> {
    value.ok().context("a value is not made")
}

/// How the workers are made that a run pushes into its cache.
pub trait MakeWorker: Copy {
    /// The worker, a bare service with its load measure.
    type Worker: Worker;

    /// A worker with a pattern, made at an instant in nanoseconds.
    fn make_worker(&self, pattern: Patterned, at: u64) -> anyhow::Result<Self::Worker>;
}

/// Makes workers that are weighed by requests out.
#[derive(Clone, Copy)]
pub struct PendingRequestsMaker<B> {
    pub bare: B,
}

impl<B: Bare> MakeWorker for PendingRequestsMaker<B> {
    type Worker = PendingRequests<B>;

    fn make_worker(&self, pattern: Patterned, _at: u64) -> anyhow::Result<PendingRequests<B>> {
        Ok(PendingRequests::new(self.bare.with(pattern)))
    }
}

/// Makes workers that are weighed by response time.
#[derive(Clone, Copy)]
pub struct PeakEwmaMaker<B, D> {
    pub bare: B,
    pub settings: Settings<D>,
}

impl<B: Bare, D: Decay> MakeWorker for PeakEwmaMaker<B, D> {
    type Worker = PeakEwma<B, D>;

    fn make_worker(&self, pattern: Patterned, at: u64) -> anyhow::Result<PeakEwma<B, D>> {
        valid(PeakEwma::new(self.bare.with(pattern), self.settings, at))
    }
}
