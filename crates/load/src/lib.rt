//! Load measures: how heavy a worker is, by requests out or by response time (tower: `load`).
//!
//! A balancer prefers the lighter of two workers. It takes each as a `service::Endpoint`, and this
//! crate makes an endpoint of any bare `service::Service`, in one of two ways:
//!
//! - [`PendingRequests`]: the weight is the number of requests out.
//! - [`PeakEwma`]: the weight is a [`Cost`], the estimated response time, once for each request out
//!   and once more. [`PeakEwmaDiscover`] makes such an endpoint of each service that a feed inserts.
//!
//! The estimate of a `PeakEwma` is an [`RttEstimate`], a moving average that jumps up to a peak at
//! once and comes down over time. A [`Decay`] says how fast: [`Halving`] or [`Squaring`].
//!
//! Instants and durations are whole nanoseconds. Each instant comes from the caller, and a clock that
//! goes back shows no time.
//!
//! ```text
//! const SECOND: u64 = 1_000_000_000;
//! let settings = Settings { decay: Halving, default_rtt: SECOND, decay_period: 10 * SECOND };
//! let mut endpoint = PeakEwma::new(service, settings, now)?;
//! let _ = endpoint.poll_ready(now);            // Ready: a call is allowed
//! let response = endpoint.call(request, now)?; // one more request is out
//! endpoint.finish(now, later);                 // it took later - now: updates the estimate
//! let cost = endpoint.load(later);             // the weight; the estimate decays to this instant
//! ```
#![tactic(auto)]

mod cost;
mod decay;
mod peak_ewma;
mod peak_ewma_discover;
mod pending_requests;
mod rtt_estimate;
mod settings;
#[cfg(test)]
mod tests;

pub use cost::Cost;
pub use decay::{Decay, Halving, Squaring};
pub use peak_ewma::PeakEwma;
pub use peak_ewma_discover::PeakEwmaDiscover;
pub use pending_requests::{CEILING, PendingRequests};
pub use rtt_estimate::{RttEstimate, estimates_stay_finite, nanos, no_reading_raises};
pub use settings::Settings;
