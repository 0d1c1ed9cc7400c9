//! Uses of `erd_canon` and of `erd_prepare`, as a caller writes them. All of it is proved with the tests, and once.
#![tactic(auto)]

#[cfg(test)]
mod callers;
#[cfg(test)]
mod examples;
#[cfg(test)]
mod tests;
