// A feed of endpoints weighed by response time (tower: load/peak_ewma).
ghost use Rattle.std.specs.Prelude.{◌≡◌, IfErr};
ghost use Rattle.service.specs.Answers.{invalid_number};
ghost use Rattle.load.specs.Feed.{new_feed, ewma_feeds};

use crate::decay::Decay;
use crate::peak_ewma::PeakEwma;
use crate::settings::Settings;
use discover::{Discover, Discovered};
use service::{Invalid, Service};

/// A feed whose bare services become endpoints weighed by response time.
#[derive(Drop)]
pub struct PeakEwmaDiscover<F, D> {
    pub(crate) discover: F,
    pub(crate) settings: Settings<D>,
}

impl<F: Discover + Drop, D: Decay> PeakEwmaDiscover<F, D> {
    /// A feed that makes each new endpoint with these settings; a duration of zero is refused.
    pub fn new(discover: F, settings: Settings<D>) -> Result<Self, Invalid>
        ensures answer { result ≡ new_feed discover settings }
        ensures number { IfErr result (λ e. invalid_number e ≡ 13) }
    {
        settings.check()?;
        Ok(PeakEwmaDiscover { discover, settings })
    }
}

// What is inserted at an instant is an endpoint whose estimate was updated then.
impl<F: Discover, D: Decay> Discover for PeakEwmaDiscover<F, D>
where
    F::Service: Service,
{
    type Key = F::Key;

    type Service = PeakEwma<F::Service, D>;

    type Error = F::Error;

    ghost feeds = { ewma_feeds F.Discover.feeds };

    fn poll_discover(&mut self, at: u64) -> Discovered<F::Key, PeakEwma<F::Service, D>, F::Error> {
        let settings = self.settings;
        self.discover
            .poll_discover(at)
            .map(|service| PeakEwma::from_settings(service, settings, at))
    }
}
