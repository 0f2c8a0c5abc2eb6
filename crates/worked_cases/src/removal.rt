ghost use Rattle.std.specs.Prelude.{◌≡◌};
ghost use Rattle.worked_cases.specs.Removal.{answers, IsRemovalOfSelected};

use crate::two_polls::TwoPolls;
use discover::Discovered;
use load::PendingRequests;
use workers::Paced;

/// Two polls, the first of which takes in three workers and selects one, and the second reads that it is removed.
#[derive(Drop)]
pub struct Removal {
    /// What the feed answers.
    pub answers: [Discovered<u32, PendingRequests<Paced>, u32>; 5],
    /// The words of the draws, two for each.
    pub words: [u64; 4],
    /// What the polls come to.
    pub polls: TwoPolls,
}

// Three workers come, and after a poll the first of them goes.
fn answers(worker: PendingRequests<Paced>) -> [Discovered<u32, PendingRequests<Paced>, u32>; 5]
    ensures { result ≡ answers worker }
{
    [
        Discovered::Insert(1, worker),
        Discovered::Insert(2, worker),
        Discovered::Insert(3, worker),
        Discovered::Pending,
        Discovered::Remove(1),
    ]
}

impl Removal {
    // The words draw the place 0 of three ready workers, and then the place 1 of two.
    #[tactic(auto, using(crate::proofs::Polls::polls_there, crate::proofs::Polls::draws_there))]
    pub(crate) fn new() -> Self
        ensures { IsRemovalOfSelected result }
    {
        let answers = answers(PendingRequests::new(Paced::new()));
        let words = [0, 1, 0, 0];
        let polls = TwoPolls::over(&answers, &words);
        Removal {
            answers,
            words,
            polls,
        }
    }
}
