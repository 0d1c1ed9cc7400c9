//! Whether the values of two members mean the same.

mod chosen_members;
pub(crate) mod content;
pub(crate) mod labels;
pub(crate) mod plain_contest;
pub(crate) mod references;
pub(crate) mod sets;
