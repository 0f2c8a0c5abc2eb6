// A feed that repeats.
ghost use Rattle.cycles.specs.Repeated.{GivesRounds, repeated_feeds};

use discover::{Discover, Discovered, ListFeed};

/// A feed that goes on with the same round, over and over: what is left of this one, and the round from its start.
#[derive(Clone, Copy)]
pub struct Repeated<D> {
    round: D,
    rest: D,
}

impl<'a, S: Copy> Repeated<ListFeed<'a, u32, S, u32>> {
    // A feed of the first answers, and then of the round's, over and over.
    pub(crate) fn new(
        first: &'a [Discovered<u32, S, u32>],
        round: &'a [Discovered<u32, S, u32>],
    ) -> Self
        ensures { GivesRounds result first.now round.now }
    {
        Repeated {
            round: ListFeed::new(round),
            rest: ListFeed::new(first),
        }
    }
}

impl<D: Discover + Copy> Discover for Repeated<D> {
    type Key = D::Key;

    type Service = D::Service;

    type Error = D::Error;

    ghost feeds = { repeated_feeds D.Discover.feeds };

    fn poll_discover(&mut self, at: u64) -> Discovered<D::Key, D::Service, D::Error> {
        match self.rest.poll_discover(at) {
            Discovered::End => {
                self.rest = self.round;
                Discovered::Pending
            }
            answer => answer,
        }
    }
}
