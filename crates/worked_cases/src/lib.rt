//! Worked cases in one table: what real calls come to, in numbers that can be worked out by hand.
//!
//! [`worked_cases`] makes the calls, and its contract names every value of the table: two samples of two places, which
//! of three places wins by each remainder pair, nanoseconds that are rounded, a weight and an estimate by response
//! time, a cache with room for one worker, and a selected worker that is removed.
//!
//! ```text
//! let table = worked_cases()?;
//! table.equal_remainders.places       // [4, 3]: of five places, by the words 3 and 8
//! table.estimate_at_two_seconds       // 550000000.0: a quarter of 1 s and three quarters of 0.4 s
//! table.removal.polls.second_place    // Some(1): the place of the worker that takes over
//! ```
#![tactic(auto)]

ghost use Rattle.std.specs.Prelude.{IsOkAnd};
ghost use Rattle.worked_cases.specs.Cases.{IsWorkedTable, WorkedSteps};

mod capacity;
mod estimates;
mod removal;
mod sample;
mod two_polls;
mod winners;

use cache_model::PushError;
pub use removal::Removal;
pub use sample::Sample;
use service::Invalid;
pub use two_polls::TwoPolls;

/// What the worked cases come to.
#[derive(Drop)]
pub struct WorkedCases {
    /// Two of five places, by the words 7 and 9.
    pub different_remainders: Sample,
    /// Two of five places, by the words 3 and 8.
    pub equal_remainders: Sample,
    /// The place that wins by each remainder pair (0 and 0, 0 and 1, up to 1 and 2), of places that weigh 3, 3 and 5.
    pub winners: [u64; 6],
    /// 2^53 + 1 nanoseconds.
    pub rounded_nanos: f64,
    /// The weight in nanoseconds with three requests out, read at two seconds.
    pub weight_at_two_seconds: f64,
    /// The estimate in nanoseconds after a request that was sent at 1.6 seconds and completed at two.
    pub estimate_at_two_seconds: f64,
    /// What a cache with room for one worker answers to a push.
    pub first_push: Result<u64, PushError<u32>>,
    /// What it answers to the next.
    pub second_push: Result<u64, PushError<u32>>,
    /// The number of that refusal.
    pub refusal_number: Option<u8>,
    /// The key of the worker that was refused.
    pub refusal_key: Option<u32>,
    /// What a poll leaves in which the selected worker is removed.
    pub removal: Removal,
}

/// Every worked case. There is no error, since each duration that the endpoints are made with is above 0.
///
/// - `table`: what the calls come to
/// - `steps`: the same by the model's steps; that a full cache refuses a push, that one with a place left takes it, and
///   that the last entry moves into the gap of a removed one hold of any cache and any workers
#[tactic(auto, using(crate::proofs::Computed::rounded_is, crate::proofs::Computed::weight_is, crate::proofs::Computed::estimate_is, crate::proofs::Steps::worked_steps))]
pub fn worked_cases() -> Result<WorkedCases, Invalid>
    ensures table { IsOkAnd result IsWorkedTable }
    ensures steps { WorkedSteps }
{
    let (first_push, second_push) = capacity::two_pushes();
    Ok(WorkedCases {
        different_remainders: Sample::of_five(7, 9),
        equal_remainders: Sample::of_five(3, 8),
        winners: winners::winners(),
        rounded_nanos: estimates::rounded_nanos(),
        weight_at_two_seconds: estimates::weight_at_two_seconds()?,
        estimate_at_two_seconds: estimates::estimate_at_two_seconds()?,
        first_push,
        second_push,
        refusal_number: second_push.err().map(|refusal| refusal.number()),
        refusal_key: second_push.err().map(|refusal| refusal.key()),
        removal: Removal::new(),
    })
}
