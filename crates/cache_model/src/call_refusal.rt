ghost use Rattle.std.specs.Prelude.{◌≡◌};
ghost use Rattle.cache_model.specs.Answers.{as_call, call_number};

use service::EndpointRefusal;

/// Why a request is not handed to a worker, with its number.
#[derive(Clone, Copy, PartialEq, Eq, Debug)]
pub enum CallRefusal {
    /// No such worker is ready.
    NotReady = 3,
    /// The worker did not say that it is ready, or was asked or called since.
    NoGrant = 4,
    /// The worker has 4,294,967,294 requests out, or more.
    AtCeiling = 5,
}

impl CallRefusal {
    /// The number of the refusal.
    pub fn number(self) -> u8
        ensures { result ≡ call_number self }
    {
        self as u8
    }
}

impl From<EndpointRefusal> for CallRefusal {
    ghost from_gives = { λ x r. r ≡ as_call x };

    fn from(refusal: EndpointRefusal) -> CallRefusal {
        match refusal {
            EndpointRefusal::NoGrant => CallRefusal::NoGrant,
            EndpointRefusal::AtCeiling => CallRefusal::AtCeiling,
        }
    }
}
