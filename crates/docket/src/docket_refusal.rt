ghost use Rattle.std.specs.Prelude.{◌≡◌};
ghost use Rattle.docket.specs.Docket.{docket_number};

/// Why a docket takes no record, with its number.
#[derive(Clone, Copy, PartialEq, Eq, Debug)]
pub enum DocketRefusal {
    /// As many requests are out as the docket has room for.
    Full = 7,
    /// Every ticket was given.
    TicketsSpent = 8,
}

impl DocketRefusal {
    /// The number of the refusal.
    pub fn number(self) -> u8
        ensures { result ≡ docket_number self }
    {
        self as u8
    }
}
