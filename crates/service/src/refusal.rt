ghost use Rattle.std.specs.Prelude.{◌≡◌};
ghost use Rattle.service.specs.declared.refusal.EndpointRefusal.TheVariants.{NoGrant};
ghost use Rattle.service.specs.Answers.{service_number, endpoint_number, invalid_number};

/// Why a bare service does not take a request.
#[derive(Clone, Copy, PartialEq, Eq, Debug)]
pub enum ServiceRefusal {
    /// It did not say that it is ready, or was asked or called since.
    NoGrant,
}

impl ServiceRefusal {
    /// The number of the refusal: 4.
    pub fn number(self) -> u8
        ensures { result ≡ service_number self }
    {
        EndpointRefusal::from(self).number()
    }
}

/// Why an endpoint does not take a request.
#[derive(Clone, Copy, PartialEq, Eq, Debug)]
pub enum EndpointRefusal {
    /// It did not say that it is ready, or was asked or called since.
    NoGrant = 4,
    /// At least 4,294,967,294 requests are out.
    AtCeiling = 5,
}

impl EndpointRefusal {
    /// The number of the refusal: 4 or 5.
    pub fn number(self) -> u8
        ensures { result ≡ endpoint_number self }
    {
        self as u8
    }
}

/// What an endpoint answers where the service below it refuses.
impl From<ServiceRefusal> for EndpointRefusal {
    ghost from_gives = { λ _ refusal. refusal ≡ NoGrant };

    fn from(refusal: ServiceRefusal) -> Self {
        match refusal {
            ServiceRefusal::NoGrant => EndpointRefusal::NoGrant,
        }
    }
}

/// Why a value is not made.
#[derive(Clone, Copy, PartialEq, Eq, Debug)]
pub enum Invalid {
    /// A name has one to eight ASCII letters or digits.
    Name,
    /// A pattern has at most 32 answers.
    Pattern,
    /// A duration of a measure is not zero.
    Duration,
}

impl Invalid {
    /// The number of the refusal: 13, whichever value was not made.
    pub fn number(self) -> u8
        ensures { result ≡ invalid_number self }
    {
        13
    }
}
