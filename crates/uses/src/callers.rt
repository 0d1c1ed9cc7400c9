//! Functions over the library, as a caller writes them.
ghost use Rattle.std.specs.Prelude.{◌≡◌, ◌↔◌, IfOk, IsTrue, None, OnOk};
ghost use Rattle.serde_json.specs.Data.{Data};
ghost use Rattle.erd_meaning.specs.Records.{meaning};
ghost use Rattle.erd_normal.specs.SaysTheSame.{SaysTheSame};
ghost use Rattle.erd_canon.specs.Bytes.{IsTreeOf};
ghost use Rattle.erd_canon.specs.Refused.{IsSomeReport};

use erd_canon::{Refusal, Side, canonical, check_bytes, compare_bytes};
use erd_tables::FaultList;
use std::alloc::{AllocError, Global};
use thiserror::Error;

/// Whether two files mean the same, by their canonical bytes. Both are accepted reports. The answer is true if and only
/// if they mean the same, and if and only if they say the same: one is the other but for the texts of identifiers, the order of
/// the entries of sets, members that may be absent, and the envelope.
pub fn is_same(alloc: Global, left: &[u8], right: &[u8]) -> Result<bool, Refusal>
    ensures accepted { OnOk result (IsSomeReport None left.now × IsSomeReport None right.now) }
    ensures same { IfOk result (λ same. (t u : Data) → IsTreeOf left.now t → IsTreeOf right.now u
        → IsTrue same ↔ (meaning None t ≡ meaning None u)) }
    ensures says { IfOk result (λ same. (t u : Data) → IsTreeOf left.now t → IsTreeOf right.now u
        → IsTrue same ↔ SaysTheSame t u) }
{
    let left_form = canonical(alloc, left)?;
    let right_form = canonical(alloc, right)?;
    Ok(left_form.as_slice() == right_form.as_slice())
}

/// The lines of all faults of a file, each with a line feed. An accepted file has none.
pub fn fault_lines(alloc: Global, bytes: &[u8]) -> Result<String, Trouble> {
    match check_bytes(alloc, bytes) {
        Ok(()) => Ok(String::new(alloc)),
        Err(Refusal::Faults(faults)) => Ok(lines_of(alloc, &faults)?),
        Err(other) => Err(Trouble::Refused(other)),
    }
}

/// The lines of these faults.
fn lines_of(alloc: Global, faults: &FaultList) -> Result<String, AllocError> {
    let mut lines = String::new(alloc);
    for fault in faults.iter() {
        lines.push_str(&fault.line(alloc)?)?;
        lines.push('\n')?;
    }
    Ok(lines)
}

/// Why a file or two give no text.
#[derive(Debug, Drop, Error)]
pub enum Trouble {
    #[error(transparent)]
    Refused(#[from] Refusal),
    #[error(transparent)]
    Side(#[from] Side),
    #[error(transparent)]
    Memory(#[from(alloc)] AllocError),
}

/// The line of the first difference of two files, if they differ. `?` passes on what refuses either.
pub fn difference_line(
    alloc: Global,
    left: &[u8],
    right: &[u8],
) -> Result<Option<String>, Trouble> {
    match compare_bytes(alloc, left, right)? {
        Some(difference) => Ok(Some(difference.line(alloc)?)),
        None => Ok(None),
    }
}
