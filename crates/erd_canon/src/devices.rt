//! The devices that a run reads from and writes to, with logs of the calls.

pub(crate) mod log;
pub(crate) mod read_from;
pub(crate) mod sink;
pub(crate) mod source;
pub(crate) mod write_to;
