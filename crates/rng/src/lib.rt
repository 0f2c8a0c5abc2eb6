//! Sources of random words, and a sample of two places by Floyd's combination algorithm
//! (tower: util/rng).
//!
//! A balancer draws two of its ready workers and takes the lighter one. It takes the words for
//! that from an [`Rng`]: [`HasherRng`] hashes a counter, [`ListRng`] reads a list.
//! [`sample_floyd2`] makes the two places; [`Rng::next_range`] makes one number of a range.
//!
//! ```text
//! let mut rng = ListRng::new(&[5, 4]);
//! sample_floyd2(&mut rng, 10)    [5, 4]: 5 % 9 and 4 % 10
//! sample_floyd2(&mut rng, 3)     [2, 1]: 5 % 2 and 4 % 3 are both 1, so the first becomes 2
//! ```
#![tactic(auto)]

ghost use Rattle.std.specs.Prelude.{◌≡◌, ℕ, ◌-◌, ◌%◌, ◌<◌, ◌≤◌, List, [], ◌∷◌, slice_index};
ghost use Rattle.rng.specs.Words.{Words, nth_word, in_range, remainders, sample};
ghost use Rattle.rng.specs.Pairs.{TwoBelow, OnePairEach};
ghost use Rattle.rng.specs.Floyd.{floyd, SameSet};
ghost use Rattle.rng.specs.Shares.{FairShares};

mod fnv;
mod hasher_rng;
mod list_rng;

pub use fnv::fnv1a;
pub use hasher_rng::HasherRng;
pub use list_rng::ListRng;
use std::ops::Range;

/// A source of random words.
///
/// An implementation says by `source` which word comes next, and what is left of the source. A
/// source has no end and no way to refuse.
pub trait Rng {
    ghost source: { Words Self };

    /// The next word: any number of 64 bits.
    fn next_u64(&mut self) -> u64
        ensures answer { result ≡ (source.word self.old).answer }
        ensures after { self.new ≡ (source.word self.old).after };

    /// A number of the range, by the remainder of the next word. An empty range answers its start
    /// and takes no word.
    fn next_range(&mut self, range: Range<u64>) -> u64
        ensures answer { result ≡ (in_range source self.old range.start range.end).answer }
        ensures after { self.new ≡ (in_range source self.old range.start range.end).after }
    {
        if range.start >= range.end {
            return range.start;
        }
        range.start + self.next_u64() % (range.end - range.start)
    }
}

/// Two different places below `length`, by two words: the first is drawn below `length - 1`, the
/// second below `length`, and where they are the same the first becomes the last place.
///
/// Every two places in their order come from equally many pairs of remainders. Below two places
/// the answer is `[0, 0]`, and no word is taken.
#[tactic(auto, using(crate::proofs::Samples::two_places))]
pub fn sample_floyd2<R: Rng>(rng: &mut R, length: u64) -> [u64; 2]
    ensures answer { result ≡ (sample R.source rng.old length).answer }
    ensures after { rng.new ≡ (sample R.source rng.old length).after }
    ensures floyd { 2 ≤ length →
        SameSet result (floyd length (remainders R.source rng.old length)) }
    ensures different { 2 ≤ length → TwoBelow length (slice_index result 0) (slice_index result 1) }
    ensures pairs { 2 ≤ length → OnePairEach length }
    ensures shares { 2 ≤ length → FairShares length }
{
    if length < 2 {
        return [0, 0];
    }
    let a = rng.next_range(0..length - 1);
    let b = rng.next_range(0..length);
    if a == b { [length - 1, b] } else { [a, b] }
}
