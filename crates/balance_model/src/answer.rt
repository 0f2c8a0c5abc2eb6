// What the balancer's calls answer.
ghost use Rattle.std.specs.Prelude.{◌≡◌};
ghost use Rattle.balance_model.specs.Answers.{poll_error_report, call_error_number, complete_number, completion_report, answer_report};
ghost use Rattle.balance_model.specs.declared.answer.CallError.TheVariants.{Docket, Cache};
ghost use Rattle.balance_model.specs.declared.answer.PollError.TheVariants as poll;
ghost use Rattle.cache_model.specs.declared.error.CacheError.TheVariants as cache;

use cache_model::{CacheError, CallRefusal, NoPlace, PushError};
use docket::DocketRefusal;
use service::Poll;

/// What a poll answers that came to its end.
#[derive(Clone, Copy, PartialEq, Eq, Debug)]
pub struct Polled {
    /// The serial of the worker that the poll names; Pending where nobody is ready.
    pub worker: Poll<u64>,
    /// How many workers failed when the poll asked them, and are gone.
    pub lost: u32,
}

/// What ended a poll early, by its layer.
#[derive(Clone, Copy, PartialEq, Eq, Debug)]
pub enum PollError<K, F> {
    /// The feed told of a fault, with its error.
    Discover(F),
    /// The cache refused a worker of the feed, or had no place among the ready for a worker that is.
    Cache(CacheError<K>),
}

impl<K: Copy, F: Copy> PollError<K, F> {
    /// The number of what ended the poll: 12 for the feed, and 1, 2 or 10 for the cache.
    pub fn number(&self) -> u8
        ensures { result ≡ (poll_error_report self.now).number }
    {
        match self {
            PollError::Discover(_) => 12,
            PollError::Cache(error) => error.number(),
        }
    }

    /// The key of the worker that the cache refused, or had no place for.
    pub fn key(&self) -> Option<K>
        ensures { result ≡ (poll_error_report self.now).key }
    {
        match self {
            PollError::Discover(_) => None,
            PollError::Cache(error) => Some(error.key()),
        }
    }

    /// The feed's error.
    pub fn error(&self) -> Option<F>
        ensures { result ≡ (poll_error_report self.now).error }
    {
        match self {
            PollError::Discover(error) => Some(*error),
            PollError::Cache(_) => None,
        }
    }
}

impl<K: Copy, F: Copy> From<PushError<K>> for PollError<K, F> {
    ghost from_gives = { λ x r. r ≡ poll.Cache (cache.Push x) };

    fn from(refused: PushError<K>) -> PollError<K, F> {
        PollError::Cache(CacheError::from(refused))
    }
}

impl<K: Copy, F: Copy> From<NoPlace<K>> for PollError<K, F> {
    ghost from_gives = { λ x r. r ≡ poll.Cache (cache.NoPlace x) };

    fn from(no_place: NoPlace<K>) -> PollError<K, F> {
        PollError::Cache(CacheError::from(no_place))
    }
}

/// Why a request is not sent, by its layer.
#[derive(Clone, Copy, PartialEq, Eq, Debug)]
pub enum CallError {
    /// There was no poll, the latest one named nobody, or its worker was sent a request already.
    NotFresh,
    /// The docket takes no record.
    Docket(DocketRefusal),
    /// The cache, or the worker, does not take the request.
    Cache(CallRefusal),
}

impl CallError {
    /// The number of the refusal, whichever layer refused: 6; 7 or 8; 3, 4 or 5.
    pub fn number(self) -> u8
        ensures { result ≡ call_error_number self }
    {
        match self {
            CallError::NotFresh => 6,
            CallError::Docket(refusal) => refusal.number(),
            CallError::Cache(refusal) => refusal.number(),
        }
    }
}

impl From<DocketRefusal> for CallError {
    ghost from_gives = { λ x r. r ≡ Docket x };

    fn from(refusal: DocketRefusal) -> CallError {
        CallError::Docket(refusal)
    }
}

impl From<CallRefusal> for CallError {
    ghost from_gives = { λ x r. r ≡ Cache x };

    fn from(refusal: CallRefusal) -> CallError {
        CallError::Cache(refusal)
    }
}

/// What a completion found.
#[derive(Clone, Copy, PartialEq, Eq, Debug)]
pub enum Completion {
    /// The worker is in the cache, ready or pending, and was told that its request is over.
    Held,
    /// The worker has left the cache.
    Gone,
}

impl Completion {
    /// Whether the worker was still held, and was told that its request is over.
    pub fn is_held(self) -> bool
        ensures { result ≡ (completion_report self).held }
    {
        match self {
            Completion::Held => true,
            Completion::Gone => false,
        }
    }
}

/// Why a ticket is not completed, with its number.
#[derive(Clone, Copy, PartialEq, Eq, Debug)]
pub enum CompleteError {
    /// No request is out under the ticket.
    UnknownTicket = 9,
}

impl CompleteError {
    /// The number of the refusal.
    pub fn number(self) -> u8
        ensures { result ≡ complete_number self }
    {
        self as u8
    }
}

/// The answer of a pick.
#[derive(Clone, Copy)]
pub enum Answer<K, A, F> {
    /// Of a poll: whom it names, or what ended it early.
    Polled(Result<Polled, PollError<K, F>>),
    /// Of a call: the ticket and the response, or why no request was sent.
    Called(Result<(u64, A), CallError>),
    /// Of a completion: whether the worker was still held, or why nothing was completed.
    Completed(Result<Completion, CompleteError>),
}

impl<K: Copy, A: Copy, F: Copy> Answer<K, A, F> {
    /// The number of a refusal or a fault; other answers have none.
    pub fn number(&self) -> Option<u8>
        ensures { result ≡ (answer_report self.now).number }
    {
        match self {
            Answer::Polled(Err(error)) => Some(error.number()),
            Answer::Called(Err(error)) => Some(error.number()),
            Answer::Completed(Err(error)) => Some(error.number()),
            _ => None,
        }
    }

    /// The serial of the worker that a poll names.
    pub fn named(&self) -> Option<u64>
        ensures { result ≡ (answer_report self.now).named }
    {
        match self {
            Answer::Polled(Ok(polled)) => polled.worker.ready(),
            _ => None,
        }
    }

    /// How many workers a poll lost that came to its end.
    pub fn lost(&self) -> Option<u32>
        ensures { result ≡ (answer_report self.now).lost }
    {
        match self {
            Answer::Polled(Ok(polled)) => Some(polled.lost),
            _ => None,
        }
    }

    /// The ticket of a request that was sent.
    pub fn ticket(&self) -> Option<u64>
        ensures { result ≡ (answer_report self.now).ticket }
    {
        match self {
            Answer::Called(Ok((ticket, _))) => Some(*ticket),
            _ => None,
        }
    }

    /// The response to a request that was sent.
    pub fn response(&self) -> Option<A>
        ensures { result ≡ (answer_report self.now).response }
    {
        match self {
            Answer::Called(Ok((_, response))) => Some(*response),
            _ => None,
        }
    }

    /// Whether the worker of a completed request was still held.
    pub fn is_held(&self) -> Option<bool>
        ensures { result ≡ (answer_report self.now).held }
    {
        match self {
            Answer::Completed(Ok(completion)) => Some(completion.is_held()),
            _ => None,
        }
    }

    /// The key of the worker that ended a poll.
    pub fn key(&self) -> Option<K>
        ensures { result ≡ (answer_report self.now).key }
    {
        match self {
            Answer::Polled(Err(error)) => error.key(),
            _ => None,
        }
    }

    /// The feed's error that ended a poll.
    pub fn error(&self) -> Option<F>
        ensures { result ≡ (answer_report self.now).error }
    {
        match self {
            Answer::Polled(Err(error)) => error.error(),
            _ => None,
        }
    }
}
