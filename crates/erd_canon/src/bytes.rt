//! The calls that take the bytes of reports: they check one, canonicalise one, or compare two.

pub(crate) mod acceptance;
pub(crate) mod canonical;
pub(crate) mod comparison;
pub(crate) mod differences;
pub(crate) mod disposal;
pub(crate) mod laws;
pub(crate) mod refusal;
