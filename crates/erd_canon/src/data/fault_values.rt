ghost use Rattle.std.specs.Prelude.{◌≡◌, IfOk, OnOk};
ghost use Rattle.erd_canon.specs.Words.{view, HasFittingNumbers, reason_number, fault_data, place_data, step_data};

use erd_tables::{Fault, Place, Reason, Step};
use serde_json::{Value, json};
use std::alloc::{AllocError, Global};

/// Returns the JSON object of a fault. A number in it fits 64 bits.
pub(crate) fn fault_value(alloc: Global, fault: &Fault) -> Result<Value, AllocError>
    ensures value { IfOk result (λ value. view value ≡ fault_data fault.now) }
    ensures fits { OnOk result (HasFittingNumbers (fault_data fault.now)) }
{
    let place = place_value(alloc, &fault.place)?;
    let number = number_of(&fault.reason);
    match &fault.reason {
        Reason::MissingMember(name) => {
            let name = name.as_str();
            json!(in alloc; {"name": name, "place": place, "reason": number})
        }
        _ => json!(in alloc; {"place": place, "reason": number}),
    }
}

/// Returns the JSON array of the steps of a place.
fn place_value(alloc: Global, place: &Place) -> Result<Value, AllocError>
    ensures value { IfOk result (λ value. view value ≡ place_data place.now) }
    ensures fits { OnOk result (HasFittingNumbers (place_data place.now)) }
{
    let mut values = Vec::new(alloc);
    for step in place.iter() {
        values.push(step_value(alloc, step)?)?;
    }
    Ok(Value::Array(values))
}

/// Returns a step of a place as a JSON string or number.
fn step_value(alloc: Global, step: &Step) -> Result<Value, AllocError>
    ensures value { IfOk result (λ value. view value ≡ step_data step.now) }
    ensures fits { OnOk result (HasFittingNumbers (step_data step.now)) }
{
    match step {
        Step::Name(name) => Value::try_from_str(alloc, name.as_str()),
        Step::At(index) => Ok(Value::from(*index)),
    }
}

/// Returns the number of a reason, from 1 to 18.
pub(crate) fn number_of(reason: &Reason) -> u8
    ensures { result ≡ reason_number reason.now }
{
    match reason {
        Reason::WrongKind => 1,
        Reason::MissingMember(_) => 2,
        Reason::WrongClassText => 3,
        Reason::NotWhole => 4,
        Reason::OutsideProfile => 5,
        Reason::UnknownReference => 6,
        Reason::CarriedIdentity => 7,
        Reason::NotPreElection => 8,
        Reason::ElectionCount => 9,
        Reason::EmptyArray => 10,
        Reason::Repeated => 11,
        Reason::NoIdentifier => 12,
        Reason::TwinIdentifier => 13,
        Reason::DuplicateId => 14,
        Reason::Unresolved => 15,
        Reason::WrongFamily => 16,
        Reason::SelectionOfOtherContest => 17,
        Reason::TwinSelection => 18,
    }
}
