//! Why a file can't be prepared.
use std::alloc::AllocError;

/// Why a file can't be prepared.
#[derive(Clone, Copy, Debug, PartialEq, Eq)]
pub enum PrepareError {
    /// The bytes are not JSON.
    NotJson,
    /// Out of memory.
    Memory,
}

impl From<AllocError> for PrepareError {
    ghost use Rattle.std.specs.Prelude.{◌≡◌};
    ghost use Rattle.erd_prepare.specs.declared.prepare_error.PrepareError.TheVariants.{Memory};

    ghost from_gives = { λ _ r. r ≡ Memory };

    fn from(_: AllocError) -> PrepareError {
        PrepareError::Memory
    }
}
