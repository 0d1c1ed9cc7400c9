use erd_check::CheckError;
use erd_tables::FaultList;
use std::alloc::AllocError;
use thiserror::Error;

/// Why the bytes of a report are refused.
#[derive(Debug, Drop, Error)]
pub enum Refusal {
    /// The bytes are not JSON: `serde_json` does not read them. It reads UTF-8 in the grammar of RFC 8259, nested at most
    /// 127 levels deep.
    #[error("not JSON")]
    NotJson,
    /// The bytes are JSON but not an accepted report. The list has all faults of the first phase (docs/PROFILE.md) that has
    /// any, each once, ordered by place, then by reason. It is not empty.
    #[error("the report has faults: {}", .0.len())]
    Faults(FaultList),
    /// Out of memory.
    #[error("no memory")]
    Memory,
}

/// Why two reports cannot be compared.
#[derive(Debug, Drop, Error)]
pub enum Side {
    /// The left report is refused. The right report was not checked.
    #[error("left: {0}")]
    Left(Refusal),
    /// The left report is accepted, and the right report is refused.
    #[error("right: {0}")]
    Right(Refusal),
    /// Both reports are accepted, and memory ran out while they were compared.
    #[error("no memory")]
    Memory,
}

impl From<CheckError> for Refusal {
    ghost use Rattle.std.specs.Prelude.{◌≡◌};
    ghost use Rattle.erd_canon.specs.Refused.{refusal_for};

    ghost from_gives = { λ e r. r ≡ refusal_for e };

    fn from(error: CheckError) -> Refusal {
        match error {
            CheckError::Faults(faults) => Refusal::Faults(faults),
            CheckError::Memory => Refusal::Memory,
        }
    }
}

impl From<AllocError> for Refusal {
    ghost use Rattle.std.specs.Prelude.{◌≡◌};
    ghost use Rattle.erd_canon.specs.declared.bytes.refusal.Refusal.TheVariants.{Memory};

    ghost from_gives = { λ _ r. r ≡ Memory };

    fn from(_: AllocError) -> Refusal {
        Refusal::Memory
    }
}
