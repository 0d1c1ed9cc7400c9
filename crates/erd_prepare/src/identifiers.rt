//! Identifiers that steps make.
ghost use Rattle.std.specs.Prelude.{◌≡◌, IfOk};
ghost use Rattle.serde_json.specs.View.{view};
ghost use Rattle.erd_prepare.specs.Names.{other_identifier};

use crate::left::Planned;
use crate::plan::Edit;
use serde_json::{Value, json};
use std::alloc::{AllocError, Global};

/// Returns an identifier of the Type `other`, with this OtherType and this Value.
pub(crate) fn other_identifier(
    alloc: Global,
    other_type: &str,
    value: &str,
) -> Result<Value, AllocError>
    ensures { IfOk result (λ identifier. view identifier ≡ other_identifier other_type.now value.now) }
{
    json!(in alloc; {
        "@type": "ElectionResults.ExternalIdentifier",
        "OtherType": other_type,
        "Type": "other",
        "Value": value
    })
}

/// Plans these identifiers for the object at a place.
pub(crate) fn put_identifiers(
    alloc: Global,
    place: String,
    identifiers: Value,
    planned: &mut Planned,
) -> Result<(), AllocError> {
    let name = String::from_str(alloc, "ExternalIdentifier")?;
    planned.plan.add(place, Edit::PutIn(name, identifiers))
}
