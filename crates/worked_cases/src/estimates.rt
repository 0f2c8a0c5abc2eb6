// Endpoints weighed by response time.
ghost use Rattle.std.specs.Prelude.{◌≡◌, Ok};
ghost use Rattle.load.specs.Estimates.{nanos};
ghost use Rattle.worked_cases.specs.Estimates.{new_endpoint, with_one_more_out, with_three_out, weight_at_two_seconds, estimate_at_two_seconds};

use load::{Halving, PeakEwma, Settings, nanos};
use service::{Endpoint, Invalid};
use workers::Paced;

// 2^53 + 1 nanoseconds.
pub(crate) fn rounded_nanos() -> f64
    ensures { result ≡ nanos 9007199254740993 }
{
    nanos(9_007_199_254_740_993)
}

// An endpoint made at 0, with a second for the default and for the decay period.
fn new_endpoint() -> Result<PeakEwma<Paced, Halving>, Invalid>
    ensures { result ≡ Ok new_endpoint }
{
    let settings = Settings {
        decay: Halving,
        default_rtt: 1_000_000_000,
        decay_period: 1_000_000_000,
    };
    PeakEwma::new(Paced::new(), settings, 0)
}

// The same after a request that was sent at 0 and takes no time.
fn with_one_more_out(mut endpoint: PeakEwma<Paced, Halving>) -> PeakEwma<Paced, Halving>
    ensures { result ≡ with_one_more_out endpoint }
{
    let _ = endpoint.poll_ready(0);
    let _ = endpoint.call(0, 0);
    endpoint
}

// The endpoint with three requests out.
fn with_three_out() -> Result<PeakEwma<Paced, Halving>, Invalid>
    ensures { result ≡ Ok with_three_out }
{
    let with_one = with_one_more_out(new_endpoint()?);
    Ok(with_one_more_out(with_one_more_out(with_one)))
}

// Its weight, read at two seconds.
pub(crate) fn weight_at_two_seconds() -> Result<f64, Invalid>
    ensures { result ≡ Ok weight_at_two_seconds }
{
    let mut endpoint = with_three_out()?;
    Ok(endpoint.load(2_000_000_000).nanos)
}

// The estimate after a request that was sent at 1.6 seconds and completed at two.
pub(crate) fn estimate_at_two_seconds() -> Result<f64, Invalid>
    ensures { result ≡ Ok estimate_at_two_seconds }
{
    let mut endpoint = new_endpoint()?;
    endpoint.finish(1_600_000_000, 2_000_000_000);
    Ok(endpoint.estimate().rtt_ns)
}
