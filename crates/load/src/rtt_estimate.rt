// Estimates of a response time by Peak-EWMA (tower: load/peak_ewma).
ghost use Rattle.std.specs.Prelude.{◌≡◌, from_bits, to_bits};
ghost use Rattle.std.specs.Float.{binary64};
ghost use Rattle.load.specs.Estimates.{nanos, finite_or_zero, average, estimate_from, update, EstimatesStay, NoReadingRaises};

use crate::decay::Decay;
use std::num::{f64_to_bits_with_nan, nearest_u64_to_f64};

const NANOS_PER_SECOND: u64 = 1_000_000_000;

const INFINITY_BITS: u64 = 0x7ff0_0000_0000_0000;

/// An estimate of a response time, and the instant of its last update, both in nanoseconds.
///
/// It decays when it is updated, and at no other time: `update` takes in a response, or none, where
/// `sent` and `at` are one instant.
#[derive(Clone, Copy)]
pub struct RttEstimate {
    /// The estimated response time in nanoseconds.
    pub rtt_ns: f64,
    /// The instant of the last update.
    pub update_at: u64,
}

/// Nanoseconds as a float: those below a second plus the whole seconds.
pub fn nanos(duration: u64) -> f64
    ensures { result ≡ nanos duration }
{
    let below_second = duration % NANOS_PER_SECOND;
    nearest_u64_to_f64(below_second) + nearest_u64_to_f64(duration - below_second)
}

// The finite number from 0 up that the bits stand for, and 0 for any other bits.
#[tactic(auto, using(crate::proofs::Estimates::from_bits_steps))]
fn finite_from_bits(bits: u64) -> f64
    ensures { result ≡ finite_or_zero (from_bits binary64 bits) }
{
    if bits < INFINITY_BITS {
        f64::from_bits(bits)
    } else {
        0.0
    }
}

// The estimate after a response time, at which the share of it is kept; a peak replaces it.
fn average(estimate: f64, rtt: f64, share: f64) -> f64
    ensures { result ≡ average estimate rtt share }
{
    if estimate < rtt {
        rtt
    } else {
        estimate * share + rtt * (1.0 - share)
    }
}

impl RttEstimate {
    /// The estimate that the bits stand for: 0, unless they are those of a finite number from 0 up.
    pub fn from_bits(bits: u64, update_at: u64) -> Self
        ensures { result ≡ estimate_from bits update_at }
    {
        RttEstimate {
            rtt_ns: finite_from_bits(bits),
            update_at,
        }
    }

    /// The bits of the estimate.
    pub fn to_bits(&self) -> u64
        ensures { result ≡ to_bits binary64 self.now.rtt_ns }
    {
        f64_to_bits_with_nan(self.rtt_ns)
    }

    /// A response came at `at` to what was sent at `sent`, in nanoseconds as the period.
    ///
    /// A response time above the estimate replaces it. Any other is averaged with it: how much is
    /// kept of the estimate is the decay's, for the time since the last update.
    pub fn update<D: Decay>(&mut self, decay: &D, decay_period: u64, sent: u64, at: u64)
        ensures { self.new ≡ update D.decays decay.now decay_period self.old sent at }
    {
        let elapsed = nanos(at.saturating_sub(self.update_at));
        let share = decay.decay(-elapsed / nanos(decay_period));
        let rtt = nanos(at.saturating_sub(sent));
        self.rtt_ns = average(self.rtt_ns, rtt, share);
        self.update_at = at;
    }
}

/// A law: what is read from bits, and what any update makes of it, is finite and not below zero,
/// and its bits stand for it.
#[tactic(auto, using(crate::proofs::Laws::stay))]
pub fn estimates_stay_finite<D: Decay>(decay: &D)
    ensures { EstimatesStay D.decays decay.now }
{
    let _ = decay;
}

/// A law: reading the load never raises an estimate, whatever the clock does.
#[tactic(auto, using(crate::proofs::Laws::no_raise))]
pub fn no_reading_raises<D: Decay>(decay: &D)
    ensures { NoReadingRaises D.decays decay.now }
{
    let _ = decay;
}
