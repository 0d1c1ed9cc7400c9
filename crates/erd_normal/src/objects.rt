//! Canonical objects, built member by member, with each family sorted by key.

pub(crate) mod contest_selections;
pub(crate) mod copied_members;
pub(crate) mod due_members;
pub(crate) mod family_objects;
pub(crate) mod members;
pub(crate) mod written_object;
