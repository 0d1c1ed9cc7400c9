//! The error of the calls that judge a report.
use erd_tables::FaultList;
use std::alloc::AllocError;
use thiserror::Error;

/// Why a call that judges a report failed: the report has faults, or memory ran out.
#[derive(Debug, Drop, Error)]
pub enum CheckError {
    /// The report has these faults. The function that returns the error says which faults are listed. There is at least one.
    #[error("the report has faults: {}", .0.len())]
    Faults(FaultList),
    /// Out of memory.
    #[error("no memory")]
    Memory,
}

impl From<AllocError> for CheckError {
    ghost use Rattle.std.specs.Prelude.{◌≡◌};
    ghost use Rattle.erd_check.specs.declared.error.CheckError.TheVariants.{Memory};

    ghost from_gives = { λ _ r. r ≡ Memory };

    fn from(_: AllocError) -> CheckError {
        CheckError::Memory
    }
}
