//! Keys of objects, names of selections, references, and accepted reports.
#![tactic(auto)]

pub mod keys;
pub mod members;
pub mod names;
mod objects;
mod report;

pub use erd_index::{Salt, SaltedSet};
pub use erd_tables::PerFamily;
pub use erd_text::{CompactText, SetOrder, in_order};
pub use keys::key::Key;
pub use keys::key_of::key_of;
pub use names::ranked_name::{Named, RankedName};
pub use names::selection_name::SelectionName;
pub use objects::order::places_in;
pub use report::Report;
pub use report::accepting::accept_with;
pub use report::resolving::{resolve, resolve_with};
