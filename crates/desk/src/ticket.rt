// The tickets of a run, read off its picks and answers.
use crate::week;
use balance_model::{Answer, Completion, Pick};
use std::alloc::{AllocError, Global};
use std::fmt;

/// A request that was sent.
///
/// It prints as one line of 32 characters, with instants and responses in whole seconds.
#[derive(Clone, Copy)]
pub struct Ticket {
    /// The ticket's number, which a completion names.
    pub number: u64,
    /// When the request was sent, in nanoseconds from Monday's opening.
    pub at: u64,
    /// The serial of the worker that it went to.
    pub serial: u64,
    /// What the worker answered: when it is free again, in the same nanoseconds.
    pub response: u64,
    /// What the completion found; none where the request was still out at the week's end.
    pub completion: Option<Completion>,
}

impl fmt::Display for Ticket {
    fn fmt<W: fmt::Write>(&self, f: &mut fmt::Formatter<W>) -> fmt::Result {
        let number = self.number;
        let at = self.at / week::SECOND;
        let name = week::worker(self.serial);
        let response = self.response / week::SECOND;
        let end = match self.completion {
            None => "out",
            Some(Completion::Held) => "held",
            Some(Completion::Gone) => "gone",
        };
        write!(f, "{number:>3} {at:>7} {name:<6} {response:>8} {end:<4}")
    }
}

// Notes what the completion of a ticket found.
fn close(tickets: &mut [Ticket], number: u64, found: Completion) {
    if let Some(ticket) = tickets.iter_mut().find(|ticket| ticket.number == number) {
        ticket.completion = Some(found);
    }
}

/// All tickets of a run, in the order in which they were given; or want of memory for them.
///
/// `answers` are those of `picks`, in the same order. A call's answer does not say who took the request: it is the
/// worker that the latest poll before it named.
pub fn tickets<K: Copy, F: Copy>(
    heap: Global,
    picks: &[Pick<u64>],
    answers: &[Answer<K, u64, F>],
) -> Result<Vec<Ticket>, AllocError> {
    let mut tickets = Vec::new(heap);
    let mut named = None;
    for (pick, answer) in picks.iter().zip(answers) {
        match (*pick, *answer, named) {
            (_, Answer::Polled(Ok(polled)), _) => named = polled.worker.ready(),
            (Pick::Call { at, .. }, Answer::Called(Ok((number, response))), Some(serial)) => {
                tickets.push(Ticket {
                    number,
                    at,
                    serial,
                    response,
                    completion: None,
                })?;
            }
            (Pick::Complete { ticket, .. }, Answer::Completed(Ok(found)), _) => {
                close(tickets.as_mut_slice(), ticket, found)
            }
            _ => {}
        }
    }
    Ok(tickets)
}
