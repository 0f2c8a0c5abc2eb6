// Response time as weight: an endpoint over any bare service (tower: load/peak_ewma).
ghost use Rattle.std.specs.Prelude.{◌≡◌, IfErr};
ghost use Rattle.service.specs.Answers.{invalid_number};
ghost use Rattle.load.specs.PeakEwma.{from_settings, new_peak_ewma, estimate_of, update_estimate, NoReadingWeighsMore, peak_ewma};

use crate::cost::Cost;
use crate::decay::Decay;
use crate::pending_requests::PendingRequests;
use crate::rtt_estimate::{RttEstimate, nanos};
use crate::settings::Settings;
use service::{Endpoint, EndpointRefusal, Invalid, Readiness, Service};
use std::num::{f64_to_bits_with_nan, nearest_u64_to_f64};

/// A bare service weighed by response time.
///
/// Polls and calls are the service's, and its requests out are counted. `finish` updates the estimate
/// by the response time; `load` answers the weight at an instant, and lets the estimate decay to it.
#[derive(Clone, Copy)]
pub struct PeakEwma<S, D> {
    pub(crate) pending: PendingRequests<S>,
    pub(crate) decay: D,
    pub(crate) decay_period: u64,
    // The estimate by its bits, since any bits stand for a finite one.
    pub(crate) rtt_bits: u64,
    pub(crate) update_at: u64,
}

impl<S: Copy, D: Decay> PeakEwma<S, D> {
    /// An endpoint with no requests out whose estimate is the default, updated at `at`; a duration
    /// of zero is refused.
    #[tactic(auto, using(crate::proofs::Laws::weighs_no_more))]
    pub fn new(service: S, settings: Settings<D>, at: u64) -> Result<Self, Invalid>
        ensures answer { result ≡ new_peak_ewma service settings at }
        ensures number { IfErr result (λ e. invalid_number e ≡ 13) }
        ensures readings { NoReadingWeighsMore S D.decays }
    {
        settings.check()?;
        Ok(PeakEwma::from_settings(service, settings, at))
    }

    // The same with durations that were looked at.
    pub(crate) fn from_settings(service: S, settings: Settings<D>, at: u64) -> Self
        ensures { result ≡ from_settings service settings at }
    {
        PeakEwma {
            pending: PendingRequests { service, count: 0 },
            decay: settings.decay,
            decay_period: settings.decay_period,
            rtt_bits: f64_to_bits_with_nan(nanos(settings.default_rtt)),
            update_at: at,
        }
    }

    /// The estimate of the last update.
    pub fn estimate(&self) -> RttEstimate
        ensures { result ≡ estimate_of self.now }
    {
        RttEstimate::from_bits(self.rtt_bits, self.update_at)
    }

    // Updates the estimate by a response at `at` to what was sent at `sent`, and answers it.
    fn update_estimate(&mut self, sent: u64, at: u64) -> f64
        ensures answer { result ≡ (update_estimate D.decays self.old sent at).answer }
        ensures after { self.new ≡ (update_estimate D.decays self.old sent at).after }
    {
        let mut estimate = self.estimate();
        let decay = self.decay;
        estimate.update(&decay, self.decay_period, sent, at);
        self.rtt_bits = estimate.to_bits();
        self.update_at = estimate.update_at;
        estimate.rtt_ns
    }
}

impl<S: Service, D: Decay> Endpoint for PeakEwma<S, D> {
    type Request = S::Request;

    type Response = S::Response;

    type Error = S::Error;

    type Metric = Cost;

    ghost means = { peak_ewma D.Decay.decays S.Service.serves };

    fn count(&self) -> u32 {
        self.pending.count()
    }

    fn poll_ready(&mut self, at: u64) -> Readiness<S::Error> {
        self.pending.poll_ready(at)
    }

    fn call(&mut self, request: S::Request, at: u64) -> Result<S::Response, EndpointRefusal> {
        self.pending.call(request, at)
    }

    fn finish(&mut self, sent: u64, at: u64) {
        let _ = self.update_estimate(sent, at);
        self.pending.finish(sent, at);
    }

    fn load(&mut self, at: u64) -> Cost {
        let estimate = self.update_estimate(at, at);
        Cost {
            nanos: estimate * nearest_u64_to_f64(u64::from(self.count()) + 1),
        }
    }
}
