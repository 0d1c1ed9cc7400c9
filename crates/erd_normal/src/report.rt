//! The canonical tree of a report, its elections and its envelope.

pub(crate) mod canonical_form;
pub(crate) mod election;
pub(crate) mod report_text;
