ghost use Rattle.std.specs.Prelude.{◌≡◌, ℕ};
ghost use Rattle.discover.specs.Feeds.{nth_discovered};
ghost use Rattle.discover.specs.ListFeeds.{list_feeds, list_start, in_list};

use crate::Discover;
use crate::discovered::Discovered;
use service::Key;

/// A feed that gives the answers of a list in their order, and then `End`, again and again. It
/// answers the same whatever the instant.
#[derive(Clone, Copy)]
pub struct ListFeed<'a, K, S, F> {
    answers: &'a [Discovered<K, S, F>],
    // a place, since no clause can name the address of a slice that is cut shorter
    next: usize,
}

impl<'a, K: Key, S: Copy, F: Copy> ListFeed<'a, K, S, F> {
    /// A feed whose next answer is the first of these.
    #[tactic(auto, using(crate::proofs::ListFeeds::list_nth))]
    pub fn new(answers: &'a [Discovered<K, S, F>]) -> Self
        ensures value { result ≡ list_start answers.entry }
        ensures answers { (instants : ℕ → ℕ) (k : ℕ) →
            nth_discovered list_feeds result instants k ≡ in_list answers.now k }
    {
        ListFeed { answers, next: 0 }
    }
}

impl<K: Key, S: Copy, F: Copy> Discover for ListFeed<'_, K, S, F> {
    type Key = K;

    type Service = S;

    type Error = F;

    ghost feeds = { list_feeds };

    fn poll_discover(&mut self, _at: u64) -> Discovered<K, S, F> {
        let Some(answer) = self.answers.get(self.next) else {
            return Discovered::End;
        };
        self.next += 1;
        *answer
    }
}
