ghost use Rattle.std.specs.Prelude.{◌≡◌};
ghost use Rattle.discover.specs.Feeds.{discovery_report, ForInserted, MapsInserted};

/// What a feed answers.
#[derive(Clone, Copy, PartialEq, Eq, Debug)]
pub enum Discovered<K, S, F> {
    /// Nothing for now: ask again later.
    Pending,
    /// Nothing any more.
    End,
    /// The feed failed, for this error.
    Fault(F),
    /// A worker comes under this key, in the place of one that is there under it.
    Insert(K, S),
    /// The worker of this key goes.
    Remove(K),
}

impl<K: Copy, S: Copy, F: Copy> Discovered<K, S, F> {
    /// The number of a fault, 12; the other answers have none.
    pub fn number(&self) -> Option<u8>
        ensures { result ≡ (discovery_report self.now).number }
    {
        match self {
            Discovered::Fault(_) => Some(12),
            _ => None,
        }
    }

    /// The error of a fault.
    pub fn error(&self) -> Option<F>
        ensures { result ≡ (discovery_report self.now).error }
    {
        match self {
            Discovered::Fault(error) => Some(*error),
            _ => None,
        }
    }

    /// The key of a worker that comes or goes.
    pub fn key(&self) -> Option<K>
        ensures { result ≡ (discovery_report self.now).key }
    {
        match self {
            Discovered::Insert(key, _) | Discovered::Remove(key) => Some(*key),
            _ => None,
        }
    }

    /// The worker that comes.
    pub fn service(&self) -> Option<S>
        ensures { result ≡ (discovery_report self.now).worker }
    {
        match self {
            Discovered::Insert(_, service) => Some(*service),
            _ => None,
        }
    }
}

impl<K, S, F> Discovered<K, S, F> {
    /// The same answer, with what `make` makes of the worker that comes.
    pub fn map<T, G: FnOnce(S) -> T>(self, make: G) -> Discovered<K, T, F>
        requires { ForInserted self (G.pre make) }
        ensures { MapsInserted (G.post make) self result }
    {
        match self {
            Discovered::Pending => Discovered::Pending,
            Discovered::End => Discovered::End,
            Discovered::Fault(error) => Discovered::Fault(error),
            Discovered::Insert(key, service) => Discovered::Insert(key, make(service)),
            Discovered::Remove(key) => Discovered::Remove(key),
        }
    }
}
