//! The text of JSON values: token by token, with the entries of sets in rising order.
#![tactic(auto)]

mod compact_text;
mod label;
mod output;
mod rising_values;
mod set_order;
mod stable_sort;
mod value;

pub use compact_text::CompactText;
pub use label::{label_text, write_label};
pub use output::Output;
pub use rising_values::write_rising_values;
pub use set_order::SetOrder;
pub use stable_sort::in_order;
pub use value::write_value;
