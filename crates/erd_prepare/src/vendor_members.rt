//! Members of vendors whose names end in `Id` or `Ids`, as the names of references do.
use crate::known_objects::KnownObject;
use erd_check::want::Want;
use erd_tables::class::Role;
use erd_tables::member::MemberKind;
use erd_tables::{Place, Step, Text, pointer};
use serde_json::Value;
use std::alloc::{AllocError, Global};
use std::collections::BTreeSet;

/// Returns the `@id`s of all objects of families.
pub(crate) fn ids_of(
    alloc: Global,
    objects: &Vec<KnownObject>,
) -> Result<BTreeSet<String>, AllocError> {
    let mut ids = BTreeSet::new(alloc);
    for object in objects {
        if matches!(object.role, Role::OfFamily(_)) {
            if let Some(Value::String(id)) = object.members.get("@id") {
                ids.insert(id.clone()?)?;
            }
        }
    }
    Ok(ids)
}

/// Returns whether the member of an object has such a name, and is none of the standard's.
pub(crate) fn is_vendor_reference(object: &KnownObject, name: &str) -> bool {
    matches!(
        object.want_of(name),
        Some(Want::Member(MemberKind::StrangeReference, _))
    )
}

/// Returns the JSON Pointer of a member of the object at a place.
pub(crate) fn place_of_member(
    alloc: Global,
    object: &str,
    name: &str,
) -> Result<String, AllocError> {
    let mut steps = Vec::new(alloc);
    steps.push(Step::Name(Text::shared(alloc, name)?))?;
    let below = pointer(alloc, &Place::of(steps))?;
    format!(in alloc; "{object}{below}")
}
