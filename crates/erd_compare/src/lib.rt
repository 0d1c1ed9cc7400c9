//! The first difference between the meanings of two reports, and all of them. The rules are those of docs/PROFILE.md.
#![tactic(auto)]

mod comparer;
mod detailed;
pub mod difference;
mod difference_value;
mod first;
mod inside;
mod objects;
mod ranks;
mod selection_value;
mod values;

pub use detailed::{DetailedDifference, detailed_differences};
pub use difference::{Difference, How, Part};
pub use first::{differences, first_difference};
pub use inside::SelectionDifference;
