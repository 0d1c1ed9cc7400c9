ghost use Rattle.std.specs.Prelude.{◌≡◌, ◌++◌, string_bytes, OnOk};
ghost use Rattle.erd_canon.specs.Words.{compact_text, HasFittingNumbers, faults_data};

use crate::data::listed::push_entry;
use erd_tables::FaultList;
use std::alloc::{AllocError, Global};

/// Appends the JSON array of the faults. Only the text of the array and the JSON value of one fault are in memory at a time.
pub(crate) fn push_faults(
    alloc: Global,
    faults: &FaultList,
    text: &mut String,
) -> Result<(), AllocError>
    ensures wrote { OnOk result (string_bytes text.new ≡ string_bytes text.old ++ compact_text (faults_data faults.now)) }
    ensures fits { OnOk result (HasFittingNumbers (faults_data faults.now)) }
{
    text.push('[')?;
    let mut later = false;
    for fault in faults.iter() {
        push_entry(alloc, later, fault, text)?;
        later = true;
    }
    text.push(']')
}
