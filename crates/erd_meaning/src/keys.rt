//! Keys. A key identifies an object in its family, or an election in its report, independently of the vendor.

pub mod key;
pub mod key_of;
pub(crate) mod key_rule;
pub(crate) mod shared_key;
pub(crate) mod triple;
