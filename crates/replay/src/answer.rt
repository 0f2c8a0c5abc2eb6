// What a pick answers, and how it and the lists of a cache are printed. A refusal is printed by its number.
use crate::kinds::Worker;
use balance_model::{Answer as BalancerAnswer, Completion, PollError, Polled};
use cache_model::{Entry, Failed, PendingError, PushError};
use keys::Name;
use service::Poll;
use std::fmt;

/// What a pick of the balancer or of its cache answers.
#[derive(Clone, Copy)]
pub enum Answer<E> {
    /// Of a pick of the balancer, or of a request that was sent through the cache.
    Balancer(BalancerAnswer<Name, u64, u32>),
    /// Of a push: the serial.
    Push(Result<u64, PushError<Name>>),
    /// Of an eviction: whether the key had a worker.
    Evict(bool),
    /// Of a pass: what it came to, and the place where the next one starts.
    Pass(Result<Poll<()>, PendingError<Name, E>>, usize),
    /// Of a check: whether the worker is ready.
    Check(Result<bool, Failed<Name, E>>),
}

// What ended a poll: its number, and the feed's error or the key.
fn write_fault<W: fmt::Write>(
    error: &PollError<Name, u32>,
    f: &mut fmt::Formatter<W>,
) -> fmt::Result {
    let number = error.number();
    match error {
        PollError::Discover(error) => write!(f, "fault {number} {error}"),
        PollError::Cache(error) => write!(f, "fault {number} {}", error.key()),
    }
}

// What the balancer answered.
fn write_answer<W: fmt::Write>(
    answer: &BalancerAnswer<Name, u64, u32>,
    f: &mut fmt::Formatter<W>,
) -> fmt::Result {
    match answer {
        BalancerAnswer::Polled(Ok(Polled { worker, lost })) => match worker {
            Poll::Ready(serial) => write!(f, "ready {serial} {lost}"),
            Poll::Pending => write!(f, "pending {lost}"),
        },
        BalancerAnswer::Polled(Err(error)) => write_fault(error, f),
        BalancerAnswer::Called(Ok((ticket, response))) => write!(f, "sent {ticket} {response}"),
        BalancerAnswer::Called(Err(error)) => write!(f, "no {}", error.number()),
        BalancerAnswer::Completed(Ok(Completion::Held)) => write!(f, "held"),
        BalancerAnswer::Completed(Ok(Completion::Gone)) => write!(f, "gone"),
        BalancerAnswer::Completed(Err(error)) => write!(f, "no {}", error.number()),
    }
}

// Why a pass ended early, or what a check found.
fn write_pending<E: fmt::Display + Copy, W: fmt::Write>(
    error: &PendingError<Name, E>,
    f: &mut fmt::Formatter<W>,
) -> fmt::Result {
    let number = error.number();
    match error {
        PendingError::NoPlace(no_place) => write!(f, "fault {number} {}", no_place.key),
        PendingError::Failed(failed) => write!(f, "fault {number} {} {}", failed.key, failed.error),
    }
}

impl<E: fmt::Display + Copy> fmt::Display for Answer<E> {
    fn fmt<W: fmt::Write>(&self, f: &mut fmt::Formatter<W>) -> fmt::Result {
        match self {
            Answer::Balancer(answer) => write_answer(answer, f),
            Answer::Push(Ok(serial)) => write!(f, "pushed {serial}"),
            Answer::Push(Err(error)) => write_fault(&PollError::from(*error), f),
            Answer::Evict(found) => write!(f, "{found}"),
            Answer::Pass(Ok(Poll::Ready(())), resume) => write!(f, "ready {resume}"),
            Answer::Pass(Ok(Poll::Pending), resume) => write!(f, "pending {resume}"),
            Answer::Pass(Err(error), resume) => {
                write_pending(error, f)?;
                write!(f, " {resume}")
            }
            Answer::Check(Ok(ready)) => write!(f, "{ready}"),
            Answer::Check(Err(failed)) => write_pending(&PendingError::from(*failed), f),
        }
    }
}

/// A list of a cache, to be printed: of each entry its key, serial, mark and count, and the bits of its estimate and
/// the instant of the last update where it has one.
#[derive(Clone, Copy)]
pub struct List<'a, S>(pub &'a [Entry<Name, S>]);

impl<S: Worker> fmt::Display for List<'_, S> {
    fn fmt<W: fmt::Write>(&self, f: &mut fmt::Formatter<W>) -> fmt::Result {
        for entry in self.0 {
            let key = entry.key;
            let serial = entry.serial;
            let mark = if entry.cancelled { 'x' } else { '-' };
            let count = entry.endpoint.count();
            write!(f, " {key}:{serial}:{mark}:{count}")?;
            if let Some(estimate) = entry.endpoint.rtt_estimate() {
                write!(f, ":{:016x}:{}", estimate.to_bits(), estimate.update_at)?;
            }
        }
        Ok(())
    }
}
