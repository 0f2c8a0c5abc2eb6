ghost use Rattle.balance_model.specs.Meanings.{Meanings};

use discover::Discover;
use rng::Rng;
use service::Endpoint;

/// What a feed of workers and a source of words mean together, so that a contract names it once.
///
/// Every feed whose workers are endpoints has it, with every source: nobody writes an `impl`. A clause says
/// `⟦<D as Kinds<R>>⟧.kinds` for the meanings of the keys, the workers, their weights, the feed and the words.
pub trait Kinds<R> {
    /// The keys of the workers.
    type Key: Copy;

    /// The workers.
    type Worker: Copy;

    /// What a worker is sent.
    type Request: Copy;

    /// What a worker answers to a request.
    type Response: Copy;

    /// What a worker fails with.
    type Error: Copy;

    /// The weights of the workers.
    type Metric: Copy;

    /// What the feed tells of where it has a fault.
    type Fault: Copy;

    ghost kinds: { Meanings (Self.Key) (Self.Worker) (Self.Request) (Self.Response) (Self.Error)
        (Self.Metric) Self (Self.Fault) R };
}

impl<D: Discover, R: Rng> Kinds<R> for D
where
    D::Service: Endpoint,
{
    type Key = D::Key;

    type Worker = D::Service;

    type Request = <D::Service as Endpoint>::Request;

    type Response = <D::Service as Endpoint>::Response;

    type Error = <D::Service as Endpoint>::Error;

    type Metric = <D::Service as Endpoint>::Metric;

    type Fault = D::Error;

    ghost kinds = { record {
      keys = D.Key.sameness;
      endpoints = D.Service.means;
      weights = D.Service.Metric.order;
      feeds = D.feeds;
      words = R.source;
    } };
}
