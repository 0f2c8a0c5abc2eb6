// Costs, the weights by response time (tower: load/peak_ewma).
ghost use Rattle.load.specs.Costs.{costs};

use service::Weight;

/// A weight in nanoseconds: the estimated response time, once for each request out and once more.
///
/// A lighter worker is expected to answer one more request sooner.
#[derive(Clone, Copy)]
pub struct Cost {
    /// From 0 up, where a `PeakEwma` answers it.
    pub nanos: f64,
}

// Total, as `PartialOrd` of floats is not: what is not a number weighs heaviest.
impl Weight for Cost {
    ghost order = { costs };

    fn not_heavier(&self, other: &Cost) -> bool {
        other.nanos.is_nan() || self.nanos <= other.nanos
    }
}
