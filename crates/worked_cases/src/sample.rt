ghost use Rattle.std.specs.Prelude.{◌≡◌, [], ◌∷◌};
ghost use Rattle.rng.specs.Pairs.{places_of_words};

use rng::{ListRng, sample_floyd2};

/// Two places, and the words that they are drawn by.
#[derive(Clone, Copy)]
pub struct Sample {
    /// The words, in the order in which they are taken.
    pub words: [u64; 2],
    /// The places, from 0.
    pub places: [u64; 2],
}

impl Sample {
    // Two of five places, by two words.
    pub(crate) fn of_five(first: u64, second: u64) -> Self
        ensures { result ≡ record {
          words = first ∷ second ∷ [];
          places = places_of_words 5 first second;
        } }
    {
        let words = [first, second];
        let places = sample_floyd2(&mut ListRng::new(&words), 5);
        Sample { words, places }
    }
}
