//! The objects of a report that the member table knows.
use crate::path_places::place_of;
use erd_check::path::Path;
use erd_check::want::{Scope, Want, scope_of, want_in, want_of_entry};
use erd_tables::class::{Class, Role};
use erd_tables::pointer;
use serde_json::{Map, Value};
use std::alloc::{AllocError, Global};

/// An object of a class of the table.
#[derive(Drop)]
pub(crate) struct KnownObject<'a> {
    /// The object's members.
    pub(crate) members: &'a Map<String, Value>,
    /// Its class.
    pub(crate) class: Class,
    /// The role of its place.
    pub(crate) role: Role,
    /// The JSON Pointer of its place.
    pub(crate) place: String,
}

impl<'a> KnownObject<'a> {
    /// Returns what the table asks of the member of this name.
    pub(crate) fn want_of(&self, name: &str) -> Option<Want> {
        want_in(Scope::Members(self.role, Some(self.class)), name)
    }
}

/// The objects that a walk has found.
#[derive(Drop)]
struct Found<'a> {
    alloc: Global,
    found: Vec<KnownObject<'a>>,
}

/// Returns every object of the table, each before those inside it.
///
/// # Errors
///
/// `AllocError` if out of memory.
pub(crate) fn known_objects<'a>(
    alloc: Global,
    report: &'a Value,
) -> Result<Vec<KnownObject<'a>>, AllocError> {
    let mut objects = Found {
        alloc,
        found: Vec::new(alloc),
    };
    let want = Want::Object(Role::Report);
    add_object(report, want, &Path::Root, &mut objects)?;
    Ok(objects.found)
}

#[cycle(objects)]
fn add_object<'a>(
    value: &'a Value,
    want: Want,
    at: &Path,
    objects: &mut Found<'a>,
) -> Result<(), AllocError> {
    match value {
        Value::Array(items) => match want_of_entry(want) {
            Some(inner) => add_entries(items, inner, at, objects),
            None => Ok(()),
        },
        Value::Object(members) => match scope_of(want, value) {
            Scope::Members(role, Some(class)) => {
                let place = pointer(objects.alloc, &place_of(objects.alloc, at)?)?;
                objects.found.push(KnownObject {
                    members,
                    class,
                    role,
                    place,
                })?;
                add_members(members, Scope::Members(role, Some(class)), at, objects)
            }
            _ => Ok(()),
        },
        Value::Null | Value::Bool(_) | Value::Number(_) | Value::String(_) => Ok(()),
    }
}

#[cycle(objects)]
fn add_entries<'a>(
    items: &'a Vec<Value>,
    want: Want,
    at: &Path,
    objects: &mut Found<'a>,
) -> Result<(), AllocError> {
    for (index, item) in items.iter().enumerate() {
        add_object(item, want, &Path::Entry(&*at, index), objects)?;
    }
    Ok(())
}

#[cycle(objects)]
fn add_members<'a>(
    members: &'a Map<String, Value>,
    scope: Scope,
    at: &Path,
    objects: &mut Found<'a>,
) -> Result<(), AllocError> {
    for (name, member) in members.iter() {
        if let Some(want) = want_in(scope, name.as_str()) {
            add_object(member, want, &Path::Member(&*at, name.as_str()), objects)?;
        }
    }
    Ok(())
}
