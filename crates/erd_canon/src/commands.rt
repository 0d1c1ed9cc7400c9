//! The command line: how its words are parsed, and the help texts of the program.

pub(crate) mod builder;
pub(crate) mod help;
pub(crate) mod prefer;
pub(crate) mod request;
pub(crate) mod steps;
pub(crate) mod words;
