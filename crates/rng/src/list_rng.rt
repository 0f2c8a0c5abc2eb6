ghost use Rattle.std.specs.Prelude.{◌≡◌, ℕ, ◌%◌, length, slice_index};
ghost use Rattle.rng.specs.Words.{nth_word};
ghost use Rattle.rng.specs.Sources.{list_words, list_start};

use crate::Rng;

/// A source that gives the words of a list in their order, and starts over after the last one: to
/// play a recording back, or to choose a draw.
#[derive(Clone, Copy)]
pub struct ListRng<'a> {
    words: &'a [u64],
    next: usize,
}

impl<'a> ListRng<'a> {
    /// A source that starts with the first of the words. With none at all, each word is 0.
    #[tactic(auto, using(crate::proofs::Nth::list_nth))]
    pub fn new(words: &'a [u64]) -> Self
        ensures value { result ≡ list_start words.entry }
        ensures words { (k : ℕ) →
            nth_word list_words result k ≡ slice_index words.now (k % length words.now) }
    {
        ListRng { words, next: 0 }
    }
}

impl Rng for ListRng<'_> {
    ghost source = { list_words };

    fn next_u64(&mut self) -> u64 {
        let Some(word) = self.words.get(self.next) else {
            // there are no words
            self.next = 0;
            return 0;
        };
        self.next += 1;
        if self.next >= self.words.len() {
            self.next = 0;
        }
        *word
    }
}
