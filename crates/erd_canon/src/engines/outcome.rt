ghost use Rattle.std.specs.Prelude.{◌≡◌};
ghost use Rattle.erd_canon.specs.Words.{outcome_status, fault_status, fault_words};

use std::alloc::AllocError;
use thiserror::Error;

/// The outcome of a run that reached its end.
#[derive(Clone, Copy, Debug, PartialEq, Eq)]
pub enum Outcome {
    /// The report is accepted; or both reports are accepted and mean the same.
    Good,
    /// A report is JSON but is refused; or both reports are accepted and differ.
    Bad,
    /// The bytes of a report are not JSON.
    NotJson,
}

/// Why a run ended early.
#[derive(Clone, Copy, Debug, PartialEq, Eq, Error)]
pub enum RunFault {
    /// A reader gave more than 67,108,864 bytes.
    #[error("too long")]
    TooLong,
    /// A read failed.
    #[error("read failed")]
    Read,
    /// A write or a flush failed.
    #[error("write failed")]
    Write,
    /// Out of memory.
    #[error("no memory")]
    Memory,
}

impl Outcome {
    /// Returns the exit status of the program for this outcome: 0 for `Good`, 1 for `Bad`, 2 for `NotJson`.
    ///
    /// ```
    /// assert_eq!(rt; outcome.status(), 0);
    /// ```
    pub fn status(&self) -> u8
        ensures { result ≡ outcome_status self.now }
    {
        match self {
            Outcome::Good => 0,
            Outcome::Bad => 1,
            Outcome::NotJson => 2,
        }
    }
}

impl RunFault {
    /// Returns the exit status of the program for this fault: 4 for `Memory`, 3 for the others.
    ///
    /// ```
    /// assert_eq!(rt; RunFault::Memory.status(), 4);
    /// ```
    pub fn status(&self) -> u8
        ensures { result ≡ fault_status self.now }
    {
        match self {
            RunFault::Memory => 4,
            _ => 3,
        }
    }

    /// Returns the message of the program for this fault on standard error, without a line feed.
    ///
    /// ```
    /// assert_eq!(rt; RunFault::Memory.words(), "no memory");
    /// ```
    pub fn words(&self) -> &'static str
        ensures { result.now ≡ fault_words self.now }
    {
        match self {
            RunFault::TooLong => "too long",
            RunFault::Read => "read failed",
            RunFault::Write => "write failed",
            RunFault::Memory => "no memory",
        }
    }
}

impl From<AllocError> for RunFault {
    ghost use Rattle.erd_canon.specs.declared.engines.outcome.RunFault.TheVariants.{Memory};

    ghost from_gives = { λ _ r. r ≡ Memory };

    fn from(_: AllocError) -> RunFault {
        RunFault::Memory
    }
}
