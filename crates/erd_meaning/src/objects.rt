//! The elections and objects of a report, in the order of their places.

pub(crate) mod collected;
pub(crate) mod election_table;
pub(crate) mod filled;
pub(crate) mod order;
pub(crate) mod places;
pub(crate) mod ranked_objects;
pub(crate) mod salt;
pub(crate) mod spot;
pub(crate) mod table;
pub(crate) mod trail;
