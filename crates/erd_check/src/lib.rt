//! The shape of a report: what the member table asks of the value at each place, and the faults of reports that do not have
//! this shape.
#![tactic(auto)]

mod earlier;
mod equality;
pub mod error;
pub mod joined_walk;
mod json_order;
mod judge;
mod ordered_value;
pub mod path;
mod shape_faults;
mod shaped;
mod silent;
pub mod value_set;
pub mod values;
pub mod visitor;
pub mod walk;
pub mod want;

pub use equality::{is_among, same_json};
pub use error::CheckError;
pub use shape_faults::faults;
pub use shaped::{Shaped, shape};
pub use value_set::{FEW_VALUES, ValueSet};
