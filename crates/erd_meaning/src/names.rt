//! Names of selections. A name identifies a selection in its contest, independently of the vendor.

pub(crate) mod naming;
pub mod ranked_name;
pub mod selection_name;
pub(crate) mod selection_walk;
pub(crate) mod sought_name;
