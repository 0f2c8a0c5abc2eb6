ghost use Rattle.std.specs.Prelude.{◌≡◌, ◌≤◌, length, IfOk, None, IfErr};
ghost use Rattle.service.specs.Answers.{invalid_number};
ghost use Rattle.workers.specs.Patterns.{code_of_answers, patterned_serves, new_patterned};
ghost use Rattle.workers.specs.Turns.{AnswersInTurn, CountsCalls};

use crate::answer::Answer;
use service::{Invalid, Readiness, Service, ServiceRefusal};

/// A service that gives stored answers in turn, and counts the calls that it takes.
#[derive(Clone, Copy)]
pub struct Patterned {
    // two bits for each answer, the first in the lowest
    answers: u64,
    len: u8,
    // the place of the next answer
    next: u8,
    calls: u64,
    grant: Option<u64>,
}

// The most answers that a pattern has: 64 bits hold as many.
const LONGEST: usize = 32;

// Two bits for each answer, the first in the lowest.
fn pack(pattern: &[Answer]) -> u64
    requires { length pattern.now ≤ LONGEST }
    ensures { result ≡ code_of_answers pattern.now }
{
    pattern
        .iter()
        .rev()
        .fold(0, |answers, answer| (answers << 2) | *answer as u64)
}

impl Patterned {
    /// A service that gives these answers in turn, over and over; with none it is always pending.
    /// More than 32 are refused by `Invalid::Pattern`.
    #[tactic(auto, using(crate::proofs::Turns::in_turns, crate::proofs::Turns::counts_calls))]
    pub fn new(pattern: &[Answer]) -> Result<Self, Invalid>
        ensures answer { result ≡ new_patterned pattern.now }
        ensures grant { IfOk result (λ p. patterned_serves.grant p ≡ None) }
        ensures number { IfErr result (λ e. invalid_number e ≡ 13) }
        ensures turns { IfOk result (λ p. AnswersInTurn pattern.now p) }
        ensures calls { IfOk result (λ p. CountsCalls p) }
    {
        if pattern.len() > LONGEST {
            return Err(Invalid::Pattern);
        }
        Ok(Patterned {
            answers: pack(pattern),
            len: pattern.len() as u8,
            next: 0,
            calls: 0,
            grant: None,
        })
    }
}

/// A request is any number, the response how many calls were taken, with this one, and the error
/// the place of the answer.
impl Service for Patterned {
    type Request = u32;

    type Response = u64;

    type Error = u8;

    ghost serves = { patterned_serves };

    fn is_granted(&self) -> bool {
        self.grant.is_some()
    }

    fn poll_ready(&mut self, at: u64) -> Readiness<u8> {
        // `next` is below 32 anyway: the remainder shows it, so that the shift is safe
        let place = self.next % 32;
        let answer = match (self.answers >> (2 * place)) % 4 {
            0 => Readiness::Pending,
            1 => Readiness::Ready,
            _ => Readiness::Failed(place),
        };
        self.next = if place + 1 < self.len { place + 1 } else { 0 };
        self.grant = match answer {
            Readiness::Ready => Some(at),
            _ => None,
        };
        answer
    }

    fn call(&mut self, _request: u32, _at: u64) -> Result<u64, ServiceRefusal> {
        self.grant.take().ok_or(ServiceRefusal::NoGrant)?;
        self.calls = self.calls.saturating_add(1);
        Ok(self.calls)
    }
}
