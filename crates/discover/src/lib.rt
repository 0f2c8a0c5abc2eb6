//! Feeds of workers that come and go (tower: discover).
//!
//! A balancer asks a feed, a [`Discover`], for changes at each poll, and takes the workers into its
//! cache or out of it. [`ListFeed`] is the feed of a list of answers.
//!
//! ```text
//! let mut feed = ListFeed::new(&[Discovered::Insert(7, worker), Discovered::Pending]);
//! feed.poll_discover(at)    Insert(7, worker): add it under the key 7, in place of any there
//! feed.poll_discover(at)    Pending
//! feed.poll_discover(at)    End, from now on
//! ```
#![tactic(auto)]

ghost use Rattle.std.specs.Prelude.{◌≡◌};
ghost use Rattle.discover.specs.Feeds.{Feeds};

mod discovered;
mod list_feed;

pub use discovered::Discovered;
pub use list_feed::ListFeed;
use service::Key;

/// A feed of workers: which of them come and go, told when it is asked.
pub trait Discover {
    /// The key under which a worker comes.
    type Key: Key;

    /// The worker.
    type Service: Copy;

    /// The error of a fault.
    type Error: Copy;

    ghost feeds: { Feeds Self (Self.Key) (Self.Service) (Self.Error) };

    /// What there is at the instant `at`: one change of the workers, or why there is none.
    fn poll_discover(&mut self, at: u64) -> Discovered<Self::Key, Self::Service, Self::Error>
        ensures answer { result ≡ (feeds.poll_discover self.old at).answer }
        ensures after { self.new ≡ (feeds.poll_discover self.old at).after };
}
