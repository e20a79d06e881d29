// Why an event is refused.
ghost use Rattle.std.specs.Prelude.{◌≡◌};
ghost use Rattle.rmodel.specs.Refused.{refused_number};

use thiserror::Error;

/// Why an event is refused.
#[derive(Clone, Copy, Debug, PartialEq, Eq, Error)]
pub enum Refused {
    /// The seat has an incomplete request.
    #[error("the seat has an incomplete request")]
    SeatBusy = 1,
    /// The greatest number of requests is incomplete.
    #[error("as many requests are incomplete as may be")]
    Full = 2,
    /// The seat holds nothing, or an ask of it is pending.
    #[error("the seat holds nothing, or an ask of it is pending")]
    NotHolding = 3,
    /// The seat's request is no upgrade, or it has risen.
    #[error("the seat's request is no upgrade, or it has risen")]
    NotUpgradeable = 4,
    /// The seat's request is not nested.
    #[error("the seat's request is not nested")]
    NotNested = 5,
    /// What is asked for is empty, or not within what the request reads and writes.
    #[error("what is asked for is empty, or not within what the request reads and writes")]
    AskOutside = 6,
}

impl Refused {
    /// The number of the refusal, 1 to 6, as it is reported to users.
    pub fn number(self) -> u8
        ensures { result ≡ refused_number self }
    {
        self as u8
    }
}
