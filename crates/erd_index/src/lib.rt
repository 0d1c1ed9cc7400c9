//! Keys hashed under a salt, and a set of such keys in the order in which they came.
#![tactic(auto)]

pub mod salt;
pub mod salt_hasher;
pub mod salted;
pub mod salted_set;

pub use salt::Salt;
pub use salt_hasher::SaltHasher;
pub use salted::Salted;
pub use salted_set::{SaltedSet, Sought};
