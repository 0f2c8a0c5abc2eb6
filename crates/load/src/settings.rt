// How an endpoint's response time is estimated.
ghost use Rattle.std.specs.Prelude.{◌≡◌, IfErr};
ghost use Rattle.service.specs.Answers.{invalid_number};
ghost use Rattle.load.specs.Settings.{check};

use service::Invalid;

/// What a `PeakEwma` is made with. Both durations are in nanoseconds, and neither may be 0.
#[derive(Clone, Copy)]
pub struct Settings<D> {
    /// How much of an estimate is kept over time, as `Halving`.
    pub decay: D,
    /// The estimate of a new endpoint.
    pub default_rtt: u64,
    /// The period of the decay: the longer it is, the longer a peak is remembered.
    pub decay_period: u64,
}

impl<D> Settings<D> {
    /// Whether an endpoint can be made with them: a duration of zero is refused.
    ///
    /// `PeakEwma::new` and `PeakEwmaDiscover::new` ask this first.
    pub fn check(&self) -> Result<(), Invalid>
        ensures answer { result ≡ check self.now }
        ensures number { IfErr result (λ e. invalid_number e ≡ 13) }
    {
        if self.default_rtt == 0 || self.decay_period == 0 {
            return Err(Invalid::Duration);
        }
        Ok(())
    }
}
