//! The three texts of an identifier.
use serde_json::Value;

/// The three texts of an identifier, in the order in which keys compare them.
#[derive(Clone, Copy, PartialEq, Eq, PartialOrd, Ord)]
pub(crate) struct Triple<'a> {
    pub(crate) kind: &'a str,
    pub(crate) other: &'a str,
    pub(crate) code: &'a str,
}

/// Returns the triple of an entry of `ExternalIdentifier`, or `None` if it has none. An `OtherType` that is absent or null is the
/// empty text.
pub(crate) fn triple_of(entry: &Value) -> Option<Triple<'_>> {
    let kind = entry.get("Type")?.as_str()?;
    let other = match entry.get("OtherType") {
        None | Some(Value::Null) => "",
        Some(other) => other.as_str()?,
    };
    let code = entry.get("Value")?.as_str()?;
    Some(Triple { kind, other, code })
}
