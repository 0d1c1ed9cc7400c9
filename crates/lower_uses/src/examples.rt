//! A short example of each public call of the crates below `erd_canon`, written as those of the crate `uses`.
mod class_tables;
mod index;
mod reports;
mod shapes;
mod shown;
mod texts;
mod words;
