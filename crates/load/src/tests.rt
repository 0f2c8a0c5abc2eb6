// Limits: the first and the last instant, a clock that goes back, the largest estimate, a decay to
// the negative zero, the largest counts, and none.
ghost use Rattle.std.specs.Prelude.{if◌then◌else◌, Some, None, true, false, pos, refl};
ghost use Rattle.std.proofs.Common.{ap};
ghost use Rattle.std.specs.Float.{fin};
ghost use Rattle.std.specs.Float.Ieee.{lt};
ghost use Rattle.rounding.specs.Floats.{zero, one};
ghost use Rattle.rounding.proofs.Shares.{either_share};
ghost use Rattle.service.specs.declared.readiness.Readiness.TheVariants.{Ready};

use crate::decay::{Decay, Halving};
use crate::peak_ewma::PeakEwma;
use crate::pending_requests::{CEILING, PendingRequests};
use crate::rtt_estimate::{RttEstimate, nanos};
use service::{Endpoint, EndpointRefusal, Readiness, Service, ServiceRefusal};
use std::num::f64_to_bits_with_nan;

const SECOND: u64 = 1_000_000_000;

const LARGEST_BITS: u64 = 0x7fef_ffff_ffff_ffff;

// Nothing is kept once time has passed, and the zero that says so is the negative one.
#[derive(Clone, Copy)]
struct MinusZero;

#[tactic(auto, using(rounding::proofs::Shares::zero_bits, rounding::proofs::Shares::one_bits, rounding::proofs::Shares::less_zero_bits))]
impl Decay for MinusZero {
    ghost decays = { record {
      share = λ _ x. if lt x zero then fin true 0 (pos 0) else one;
      share_whole = λ _ x whole. ap (λ b. if b then fin true 0 (pos 0) else one) whole;
      share_within = λ _ x. either_share (lt x zero) (fin true 0 (pos 0)) one refl refl;
    } };

    fn decay(&self, x: f64) -> f64 {
        if x < 0.0 { -0.0 } else { 1.0 }
    }
}

#[test]
fn first_and_last_instant(rt: HostRuntime) {
    assert!(rt; nanos(0) == 0.0);
    assert!(rt; nanos(u64::MAX) == 18446744073709551616.0);
    let mut estimate = RttEstimate {
        rtt_ns: nanos(SECOND),
        update_at: 0,
    };
    estimate.update(&Halving, SECOND, u64::MAX, u64::MAX);
    assert!(rt; estimate.rtt_ns == 0.0);
    assert!(rt; estimate.update_at == u64::MAX);
}

#[test]
fn clock_back(rt: HostRuntime) {
    let mut estimate = RttEstimate {
        rtt_ns: nanos(SECOND),
        update_at: u64::MAX,
    };
    estimate.update(&Halving, SECOND, u64::MAX, 0);
    assert!(rt; estimate.rtt_ns == nanos(SECOND));
    assert!(rt; estimate.update_at == 0);
}

#[test]
fn largest_estimate(rt: HostRuntime) {
    let mut estimate = RttEstimate::from_bits(LARGEST_BITS, u64::MAX);
    estimate.update(&Halving, SECOND, 0, u64::MAX);
    assert!(rt; estimate.to_bits() == LARGEST_BITS);
    // the next bits are the infinity's, and those of 2^63 the negative zero's
    assert!(rt; RttEstimate::from_bits(LARGEST_BITS + 1, 0).to_bits() == 0);
    assert!(rt; RttEstimate::from_bits(1 << 63, 0).to_bits() == 0);
}

#[test]
fn minus_zero_kept(rt: HostRuntime) {
    // the decay's answer has the sign, and no estimate after it has
    assert!(rt; f64_to_bits_with_nan(MinusZero.decay(-1.0)) == 1 << 63);
    let mut read = RttEstimate {
        rtt_ns: nanos(SECOND),
        update_at: 0,
    };
    read.update(&MinusZero, SECOND, SECOND, SECOND);
    assert!(rt; read.to_bits() == 0);
    let mut measured = RttEstimate {
        rtt_ns: nanos(SECOND),
        update_at: 0,
    };
    measured.update(&MinusZero, SECOND, SECOND / 2, SECOND);
    assert!(rt; measured.rtt_ns == nanos(SECOND / 2));
}

// A service that is always ready and answers the request.
#[derive(Clone, Copy)]
struct Echo {
    granted: Option<u64>,
}

impl Service for Echo {
    type Request = u64;

    type Response = u64;

    type Error = u64;

    ghost serves = { record {
      grant = λ s. s.granted;
      poll_ready = λ s at. record { answer = Ready; after = record { granted = Some at } };
      accept = λ s q at. record { answer = q; after = record { granted = None } };
      grant-poll_ready = λ s at. refl;
      grant-accept = λ s q at g. refl;
    } };

    fn is_granted(&self) -> bool {
        self.granted.is_some()
    }

    fn poll_ready(&mut self, at: u64) -> Readiness<u64> {
        self.granted = Some(at);
        Readiness::Ready
    }

    fn call(&mut self, request: u64, _at: u64) -> Result<u64, ServiceRefusal> {
        self.granted.take().ok_or(ServiceRefusal::NoGrant)?;
        Ok(request)
    }
}

// An endpoint made at 0 with a second for both durations, a grant and so many requests out.
fn with_count(count: u32) -> PeakEwma<Echo, Halving> {
    let service = Echo { granted: Some(0) };
    let rtt_bits = f64_to_bits_with_nan(nanos(SECOND));
    PeakEwma {
        pending: PendingRequests { service, count },
        decay: Halving,
        decay_period: SECOND,
        rtt_bits,
        update_at: 0,
    }
}

#[test]
fn largest_counts(rt: HostRuntime) {
    let mut full = with_count(CEILING);
    assert_eq!(rt; full.call(7, 1), Err(EndpointRefusal::AtCeiling));
    assert_eq!(rt; full.pending.service.granted, Some(0));
    let mut last = with_count(CEILING - 1);
    assert_eq!(rt; last.call(7, 1), Ok(7));
    assert_eq!(rt; last.pending.count, CEILING);
    assert_eq!(rt; last.call(7, 1), Err(EndpointRefusal::NoGrant));
    // one second for each of 2^32
    assert!(rt; with_count(u32::MAX).load(0).nanos == 4294967296000000000.0);
}

#[test]
fn no_requests_out(rt: HostRuntime) {
    let mut idle = with_count(0);
    idle.finish(0, 3 * SECOND);
    assert_eq!(rt; idle.pending.count, 0);
    assert!(rt; idle.estimate().rtt_ns == nanos(3 * SECOND));
    assert!(rt; idle.load(3 * SECOND).nanos == nanos(3 * SECOND));
}
