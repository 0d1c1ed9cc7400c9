//! The engines behind the subcommands. Each reads its input, writes the result and returns an outcome.

pub(crate) mod answers;
pub(crate) mod asked;
pub(crate) mod ballots;
pub(crate) mod buffered;
pub(crate) mod comparison_runs;
pub(crate) mod lines;
pub(crate) mod outcome;
pub(crate) mod prepare;
pub(crate) mod prepare_texts;
pub(crate) mod remedies;
pub(crate) mod runs;
pub(crate) mod write_and_flush;
