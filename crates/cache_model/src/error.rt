// What a cache refuses, and the faults that it reports (tower: `ready_cache::error`).
ghost use Rattle.std.specs.Prelude.{◌≡◌};
ghost use Rattle.cache_model.specs.Answers.{push_refusal_number, push_report, no_place_report, failed_report, pending_report, cache_error_report};
ghost use Rattle.cache_model.specs.declared.error.PendingError.TheVariants as pending;
ghost use Rattle.cache_model.specs.declared.error.CacheError.TheVariants as cache;

/// Why a worker is not taken in, with its number.
#[derive(Clone, Copy, PartialEq, Eq, Debug)]
pub enum PushRefusal {
    /// The cache holds as many workers as it has room for.
    Full = 1,
    /// Every serial was given.
    SerialsSpent = 2,
}

impl PushRefusal {
    /// The number of the refusal.
    pub fn number(self) -> u8
        ensures { result ≡ push_refusal_number self }
    {
        self as u8
    }
}

/// A worker that was not taken in, by its key.
#[derive(Clone, Copy, PartialEq, Eq, Debug)]
pub struct PushError<K> {
    /// The key of the worker.
    pub key: K,
    /// Why it was not taken in.
    pub refusal: PushRefusal,
}

impl<K: Copy> PushError<K> {
    /// The number of the refusal.
    pub fn number(&self) -> u8
        ensures { result ≡ (push_report self.now).number }
    {
        self.refusal.number()
    }

    /// The key of the worker that was not taken in.
    pub fn key(&self) -> K
        ensures { result ≡ (push_report self.now).key }
    {
        self.key
    }
}

/// A worker that is ready and for which the ready list has no place. It stays among the pending.
#[derive(Clone, Copy, PartialEq, Eq, Debug)]
pub struct NoPlace<K> {
    /// The key of the worker.
    pub key: K,
}

impl<K: Copy> NoPlace<K> {
    /// The number of this fault, 10.
    pub fn number(&self) -> u8
        ensures { result ≡ (no_place_report self.now).number }
    {
        10
    }

    /// The key of the worker that found no place.
    pub fn key(&self) -> K
        ensures { result ≡ (no_place_report self.now).key }
    {
        self.key
    }
}

/// A worker that failed when it was asked, and is gone (tower: `ready_cache::error::Failed`).
#[derive(Clone, Copy, PartialEq, Eq, Debug)]
pub struct Failed<K, E> {
    /// The key of the worker.
    pub key: K,
    /// What it failed with.
    pub error: E,
}

impl<K: Copy, E: Copy> Failed<K, E> {
    /// The number of this fault, 11.
    pub fn number(&self) -> u8
        ensures { result ≡ (failed_report self.now).number }
    {
        11
    }

    /// The key of the worker that failed.
    pub fn key(&self) -> K
        ensures { result ≡ (failed_report self.now).key }
    {
        self.key
    }

    /// What the worker failed with.
    pub fn error(&self) -> E
        ensures { result ≡ (failed_report self.now).error }
    {
        self.error
    }
}

/// Why a pass over the pending workers ended before it came to the last.
#[derive(Clone, Copy, PartialEq, Eq, Debug)]
pub enum PendingError<K, E> {
    /// A worker is ready, and the ready list has no place for it.
    NoPlace(NoPlace<K>),
    /// A worker failed and is gone.
    Failed(Failed<K, E>),
}

impl<K: Copy, E: Copy> PendingError<K, E> {
    /// The number of what ended the pass.
    pub fn number(&self) -> u8
        ensures { result ≡ (pending_report self.now).number }
    {
        match self {
            PendingError::NoPlace(no_place) => no_place.number(),
            PendingError::Failed(failed) => failed.number(),
        }
    }

    /// The key of the worker at which the pass ended.
    pub fn key(&self) -> K
        ensures { result ≡ (pending_report self.now).key }
    {
        match self {
            PendingError::NoPlace(no_place) => no_place.key,
            PendingError::Failed(failed) => failed.key,
        }
    }

    /// What the worker failed with, if it failed.
    pub fn error(&self) -> Option<E>
        ensures { result ≡ (pending_report self.now).error }
    {
        match self {
            PendingError::NoPlace(_) => None,
            PendingError::Failed(failed) => Some(failed.error),
        }
    }
}

impl<K: Copy, E: Copy> From<NoPlace<K>> for PendingError<K, E> {
    ghost from_gives = { λ x r. r ≡ pending.NoPlace x };

    fn from(no_place: NoPlace<K>) -> PendingError<K, E> {
        PendingError::NoPlace(no_place)
    }
}

impl<K: Copy, E: Copy> From<Failed<K, E>> for PendingError<K, E> {
    ghost from_gives = { λ x r. r ≡ pending.Failed x };

    fn from(failed: Failed<K, E>) -> PendingError<K, E> {
        PendingError::Failed(failed)
    }
}

/// What of the cache ends a poll of the balancer. A worker that fails ends none: the balancer goes on without it.
#[derive(Clone, Copy, PartialEq, Eq, Debug)]
pub enum CacheError<K> {
    /// A worker that the feed brought was not taken in.
    Push(PushError<K>),
    /// A worker is ready, and the ready list has no place for it.
    NoPlace(NoPlace<K>),
}

impl<K: Copy> CacheError<K> {
    /// The number of what ended the poll.
    pub fn number(&self) -> u8
        ensures { result ≡ (cache_error_report self.now).number }
    {
        match self {
            CacheError::Push(error) => error.number(),
            CacheError::NoPlace(no_place) => no_place.number(),
        }
    }

    /// The key of the worker that was refused, or found no place.
    pub fn key(&self) -> K
        ensures { result ≡ (cache_error_report self.now).key }
    {
        match self {
            CacheError::Push(error) => error.key,
            CacheError::NoPlace(no_place) => no_place.key,
        }
    }
}

impl<K: Copy> From<PushError<K>> for CacheError<K> {
    ghost from_gives = { λ x r. r ≡ cache.Push x };

    fn from(error: PushError<K>) -> CacheError<K> {
        CacheError::Push(error)
    }
}

impl<K: Copy> From<NoPlace<K>> for CacheError<K> {
    ghost from_gives = { λ x r. r ≡ cache.NoPlace x };

    fn from(no_place: NoPlace<K>) -> CacheError<K> {
        CacheError::NoPlace(no_place)
    }
}
