//! Uses of the crates below `erd_canon`, as a caller writes them, and the small reports that they and the crate `uses` take.
//! They are proved with the tests, and once: beside `erd_canon`, for which the crate `uses` has to wait.
#![tactic(auto)]

#[cfg(test)]
mod callers;
#[cfg(test)]
mod examples;
mod small_reports;
#[cfg(test)]
mod tests;

pub use small_reports::{
    BALLOT, BARE, BESIDE, CANONICAL, DIFFERENCE_LINES, DIFFERS, HEADS, OTHER_NAME, OTHER_SPELLING,
    REPORT, UNLISTED,
};
