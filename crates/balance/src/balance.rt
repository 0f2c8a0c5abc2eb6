ghost use Rattle.std.specs.Prelude.{◌≡◌};
ghost use Rattle.rng.specs.Sources.{hasher_start};
ghost use Rattle.balance_model.specs.Balance.{new_balancer};

use rng::{HasherRng, Rng};
use std::marker::Model;

// A poll never reads more answers of the feed.
const MOST_ANSWERS: u32 = 4096;

/// A two-choice balancer over a feed of workers and a source of words.
#[derive(Drop)]
pub struct Balance<D, R> {
    pub(crate) discover: D,
    pub(crate) rng: R,
    pub(crate) budget: u32,
    pub(crate) selected: Option<usize>,
    // beside the selection, since a poll that a fault ends keeps that and clears this
    pub(crate) fresh: bool,
}

// Contracts see the balancer of the model.
impl<D, R> Model for Balance<D, R> {
    ghost use Rattle.balance_model.specs.Balance.{Balancer};

    ghost Value = { Balancer D R };

    ghost view = { λ b. record {
      feed = b.discover;
      words = b.rng;
      budget = b.budget;
      selected = b.selected;
      fresh = b.fresh;
    } };
}

impl<D> Balance<D, HasherRng> {
    /// A balancer over the feed, with words by hashing a counter.
    pub fn new(discover: D, budget: u32) -> Self
        ensures { result ≡ new_balancer discover hasher_start budget }
    {
        Balance::from_rng(discover, HasherRng::new(), budget)
    }
}

impl<D, R> Balance<D, R> {
    /// A balancer over the feed and the source of words.
    ///
    /// A poll reads at most `budget` answers of the feed, and 4096 where `budget` is more.
    pub fn from_rng(discover: D, rng: R, budget: u32) -> Self
        ensures { result ≡ new_balancer discover rng budget }
    {
        Balance {
            discover,
            rng,
            budget: budget.min(MOST_ANSWERS),
            selected: None,
            fresh: false,
        }
    }

    /// The place of the selected worker among the ready: the one that the latest poll that came to its end named, until
    /// a request is sent to it or it leaves its place.
    pub fn selected(&self) -> Option<usize>
        ensures { result ≡ self.now.selected }
    {
        self.selected
    }

    /// Whether the latest poll named a worker and no request was sent since: a call is not refused with 6.
    pub fn is_fresh(&self) -> bool
        ensures { result ≡ self.now.fresh }
    {
        self.fresh
    }
}
