//! How two objects differ, and whether their members mean the same.

pub(crate) mod differing_names;
pub(crate) mod held;
mod members_left;
mod plain_members;
pub(crate) mod records;
mod selections;
pub(crate) mod ways;
