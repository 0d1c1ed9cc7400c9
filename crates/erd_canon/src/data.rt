//! The calls that answer data: the outcome of a check, a comparison or a list of differences with a JSON text.

pub(crate) mod ballot_pairs;
pub(crate) mod ballots;
pub(crate) mod check;
pub(crate) mod compare;
mod fault_lines;
mod fault_texts;
pub(crate) mod fault_values;
pub(crate) mod laws;
pub(crate) mod line;
pub(crate) mod listed;
mod notation;
pub(crate) mod piece;
pub(crate) mod pieces;
mod refusals;
pub(crate) mod texts;
mod valued;
mod valued_inside;
pub(crate) mod valued_pieces;
pub(crate) mod word_pieces;
