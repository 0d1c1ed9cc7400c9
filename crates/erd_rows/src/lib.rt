//! Tests that use several crates, with the test vectors and the failing devices that they need.
#![tactic(auto)]

#[cfg(test)]
mod tests;
