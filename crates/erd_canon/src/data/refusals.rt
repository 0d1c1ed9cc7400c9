ghost use Rattle.std.specs.Prelude.{◌≡◌, ◌++◌, string_bytes, codes, IfOk};
ghost use Rattle.erd_canon.specs.Words.{string, compact_text};
ghost use Rattle.erd_canon.specs.code.RefusalData.{AppendsData, TellsRefusalAs};

use crate::bytes::refusal::Refusal;
use crate::data::fault_texts::push_faults;
use crate::engines::outcome::Outcome;
use serde_json::Value;
use std::alloc::{AllocError, Global};

/// Appends the JSON value that says why bytes are refused, and returns the outcome.
pub(crate) fn push_refusal(
    alloc: Global,
    refusal: &Refusal,
    text: &mut String,
) -> Result<Outcome, AllocError>
    ensures { IfOk result (λ outcome. AppendsData (TellsRefusalAs outcome refusal.now) (string_bytes text.old) (string_bytes text.new)) }
{
    match refusal {
        Refusal::Faults(faults) => {
            push_faults(alloc, faults, text)?;
            Ok(Outcome::Bad)
        }
        Refusal::NotJson => {
            push_string(alloc, "not JSON", text)?;
            Ok(Outcome::NotJson)
        }
        Refusal::Memory => Err(AllocError),
    }
}

/// Appends a JSON string.
pub(crate) fn push_string(alloc: Global, words: &str, text: &mut String) -> Result<(), AllocError>
    ensures { IfOk result (λ _. string_bytes text.new ≡ string_bytes text.old ++ compact_text (string words.now)) }
{
    let value = Value::try_from_str(alloc, words)?;
    let json = value.to_string(alloc)?;
    text.push_str(json.as_str())
}
