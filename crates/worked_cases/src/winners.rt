// Which of two places that are drawn wins.
ghost use Rattle.std.specs.Prelude.{◌≡◌, ◌%◌, [], ◌∷◌};
ghost use Rattle.worked_cases.specs.Cases.{weight, winner};

use rng::{ListRng, sample_floyd2};
use service::Weight;

// The weight of a place: of three places, two weigh 3 and the last one 5.
fn weight(place: u64) -> u32
    ensures { result ≡ weight place }
{
    if place < 2 { 3 } else { 5 }
}

// The place that wins of three, by two words.
fn winner(first: u64, second: u64) -> u64
    ensures { result ≡ winner (first % 2) (second % 3) }
{
    let [a, b] = sample_floyd2(&mut ListRng::new(&[first, second]), 3);
    if weight(a).not_heavier(&weight(b)) {
        a
    } else {
        b
    }
}

// The winner by each remainder pair: 0 and 0, 0 and 1, up to 1 and 2.
pub(crate) fn winners() -> [u64; 6]
    ensures { result ≡ 0 ∷ 0 ∷ 0 ∷ 1 ∷ 1 ∷ 1 ∷ [] }
{
    [
        winner(0, 0),
        winner(0, 1),
        winner(0, 2),
        winner(1, 0),
        winner(1, 1),
        winner(1, 2),
    ]
}
