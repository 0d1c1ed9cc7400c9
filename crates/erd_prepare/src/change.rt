//! What a step tells of a place.
use erd_tables::Place;
use serde_json::Value;

/// What a step did at a place.
#[derive(Drop)]
pub struct Change {
    /// The place in the report that was given.
    pub place: Place,
    /// What stood there, or `None` if nothing did.
    pub before: Option<Value>,
    /// What stands there now, or `None` if nothing does.
    pub after: Option<Value>,
}
