//! The canonical value of a member, by its kind.

pub(crate) mod ordered_content;
pub(crate) mod reference;
pub(crate) mod reference_set;
pub(crate) mod value_of_kind;
