// The shape of a run, and what its feed answers.
ghost use Rattle.std.specs.Prelude.{◌≡◌, ◌++◌, Some, IfSome, OnSome};
ghost use Rattle.std.specs.Int.NonZero.{non_zero_u32_get};
ghost use Rattle.cycles.specs.Shape.{IsShape, number_of, worker_of, arrivals, turn, round};

use discover::Discovered;
use std::alloc::Global;
use std::num::NonZeroU32;
use workers::{Answer, Patterned};

// Answers of the feed.
pub(crate) type Answers<S> = Vec<Discovered<u32, S, u32>>;

/// The numbers of a run.
#[derive(Clone, Copy)]
pub struct Shape {
    /// How many workers there are.
    pub workers: u32,
    /// The workers whose keys it divides are never ready.
    pub unready: Option<NonZeroU32>,
    /// In one of so many cycles a worker leaves and comes back.
    pub turnover: Option<NonZeroU32>,
    /// How many cycles there are.
    pub cycles: u32,
    /// How many requests stay out.
    pub out: u32,
}

impl Shape {
    // The shape of the C interface's numbers, which have 0 for none.
    pub(crate) fn new(workers: u32, unready: u32, turnover: u32, cycles: u32, out: u32) -> Self
        ensures { IsShape result workers unready turnover cycles out }
    {
        Shape {
            workers,
            unready: NonZeroU32::new(unready),
            turnover: NonZeroU32::new(turnover),
            cycles,
            out,
        }
    }

    // The service of a key.
    fn service(&self, key: u32) -> Option<Patterned>
        ensures { result ≡ Some (worker_of (number_of self.now.unready) key) }
    {
        let answer = if self.unready.is_some_and(|every| key % every == 0) {
            Answer::Pending
        } else {
            Answer::Ready
        };
        Patterned::new(&[answer]).ok()
    }

    // What the feed answers first: all workers.
    #[tactic(auto, using(crate::proofs::Below::none_below, crate::proofs::Below::one_more_below))]
    pub(crate) fn arrivals(&self, heap: Global) -> Option<Answers<Patterned>>
        ensures { IfSome result (λ answers.
            answers.items ≡ arrivals self.now.workers (number_of self.now.unready)) }
    {
        let mut answers = Vec::new(heap);
        for key in 0..self.workers {
            let service = self.service(key)?;
            answers.push(Discovered::Insert(key, service)).ok()?;
        }
        Some(answers)
    }

    // What a poll reads in one cycle of the round.
    fn push_turn(
        &self,
        answers: &mut Answers<Patterned>,
        every: NonZeroU32,
        cycle: u32,
    ) -> Option<()>
        ensures { OnSome result (answers.new.items ≡ answers.old.items ++
            turn self.now.workers (number_of self.now.unready) (non_zero_u32_get every) cycle) }
    {
        if cycle % every == 0 {
            let key = cycle % self.workers.max(1);
            let service = self.service(key)?;
            answers.push(Discovered::Remove(key)).ok()?;
            answers.push(Discovered::Insert(key, service)).ok()?;
        }
        answers.push(Discovered::Pending).ok()
    }

    // What it answers then, over and over: those that leave and come back.
    #[tactic(auto, using(crate::proofs::Below::none_below, crate::proofs::Below::one_more_below))]
    pub(crate) fn turnover(&self, heap: Global) -> Option<Answers<Patterned>>
        ensures { IfSome result (λ answers. answers.items ≡
            round self.now.workers (number_of self.now.unready) (number_of self.now.turnover)) }
    {
        let mut answers = Vec::new(heap);
        let Some(every) = self.turnover else {
            return Some(answers);
        };
        for cycle in 0..every.get().saturating_mul(self.workers) {
            self.push_turn(&mut answers, every, cycle)?;
        }
        Some(answers)
    }
}
