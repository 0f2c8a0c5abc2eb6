ghost use Rattle.std.specs.Prelude.{◌≡◌, ℕ, ◌%◌, ◌^◌};
ghost use Rattle.rng.specs.Words.{nth_word};
ghost use Rattle.rng.specs.Fnv.{fnv_1a};
ghost use Rattle.rng.specs.Sources.{hasher_words, hasher_start, bytes_of};

use crate::Rng;
use crate::fnv::fnv1a;

/// A source whose words are the hashes of a counter: 0, 1, 2 and so on.
///
/// Two sources that are newly made give the same words, so a run can be repeated.
#[derive(Clone, Copy)]
pub struct HasherRng {
    counter: u64,
}

impl HasherRng {
    /// A source whose counter stands at 0.
    #[tactic(auto, using(crate::proofs::Nth::hasher_nth))]
    pub fn new() -> Self
        ensures value { result ≡ hasher_start }
        ensures words { (k : ℕ) → nth_word hasher_words result k ≡ fnv_1a (bytes_of (k % 2 ^ 64)) }
    {
        HasherRng { counter: 0 }
    }
}

impl Rng for HasherRng {
    ghost source = { hasher_words };

    fn next_u64(&mut self) -> u64 {
        let counter = self.counter;
        self.counter = counter.wrapping_add(1);
        fnv1a(&counter.to_le_bytes())
    }
}
