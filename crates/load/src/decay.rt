// How much of an estimate is kept as time goes by: the interface, and two kinds.
ghost use Rattle.std.specs.Prelude.{◌≡◌};
ghost use Rattle.rounding.specs.Shares.{half_power, halving, nth_square, squaring};
ghost use Rattle.load.specs.Decays.{Decays, halving_decays, squaring_decays};

use std::num::saturating_f64_to_u64;

/// A source of the share of an estimate that is kept: from 0 to 1, and 1 where no time has passed.
pub trait Decay: Copy {
    ghost decays: { Decays Self };

    /// The share at `x`, the time since the last update in decay periods, negated.
    fn decay(&self, x: f64) -> f64
        ensures { result ≡ decays.share self.now x };
}

/// A half is kept for each whole period: all until the first is over.
#[derive(Clone, Copy)]
pub struct Halving;

/// About e^x is kept: 1 + x / 1024, squared ten times, and nothing from 1024 periods on.
#[derive(Clone, Copy)]
pub struct Squaring;

// 2^-k from its bits, and 0 from k = 1075 on, which is below all numbers of 64 bits.
fn half_power(k: u64) -> f64
    ensures { result ≡ half_power k }
{
    if k < 1023 {
        f64::from_bits((1023 - k) << 52)
    } else if k < 1075 {
        f64::from_bits(1 << (1074 - k))
    } else {
        0.0
    }
}

// How often to halve: the whole part of -x below zero, and not at all elsewhere.
#[tactic(auto, using(crate::proofs::Decays::halving_steps))]
fn halvings(x: f64) -> u64
    ensures { half_power result ≡ halving x }
{
    if x < 0.0 {
        saturating_f64_to_u64(-x)
    } else {
        0
    }
}

impl Decay for Halving {
    ghost decays = { halving_decays };

    fn decay(&self, x: f64) -> f64 {
        half_power(halvings(x))
    }
}

// What to square: 1 + x / 1024 between -1024 and 0, and 0 and 1 outside.
#[tactic(auto, using(crate::proofs::Decays::squaring_steps))]
fn base(x: f64) -> f64
    ensures { nth_square 10 result ≡ squaring x }
{
    if !(x < 0.0) {
        1.0
    } else if x <= -1024.0 {
        0.0
    } else {
        1.0 + x / 1024.0
    }
}

// Ten squarings.
#[tactic(auto, using(crate::proofs::Decays::square_steps))]
fn tenfold_square(base: f64) -> f64
    ensures { result ≡ nth_square 10 base }
{
    let mut share = base;
    for _square in 0..10u32 {
        share = share * share;
    }
    share
}

impl Decay for Squaring {
    ghost decays = { squaring_decays };

    fn decay(&self, x: f64) -> f64 {
        tenfold_square(base(x))
    }
}
