//! Reads parts of a JSON value. The result is empty if the value is of another kind.
ghost use Rattle.std.specs.Prelude.{◌≡◌, map};
ghost use Rattle.serde_json.specs.View.{view};
ghost use Rattle.erd_check.specs.Faults.{is_empty_array};
ghost use Rattle.erd_check.specs.Values.{entries_at, entries_of, text_at, text_of};
ghost use Rattle.erd_check.specs.Wants.{class_of_object};

use erd_tables::{Class, Role, class_in};
use serde_json::Value;

/// Returns the class that the `@type` of an object names if the objects of that class have the role, otherwise `None`.
pub fn class_of_object(role: Role, value: &Value) -> Option<Class>
    ensures { result ≡ class_of_object role (view value.now) }
{
    let text = value.get("@type")?.as_str()?;
    class_in(role, text)
}

/// Returns the entries of an array, or no entries if the value is not an array.
pub fn entries_of(value: &Value) -> &[Value]
    ensures { map view result.now ≡ entries_of (view value.now) }
{
    match value {
        Value::Array(items) => items.as_slice(),
        _ => &[],
    }
}

/// Returns the entries of the array in the member of this name, or no entries if there is no such array.
pub fn entries_at<'a>(value: &'a Value, name: &str) -> &'a [Value]
    ensures { map view result.now ≡ entries_at name.now (view value.now) }
{
    match value.get(name) {
        Some(array) => entries_of(array),
        None => &[],
    }
}

/// Returns the text of a JSON string, or the empty text if the value is not a string.
pub fn text_of(value: &Value) -> &str
    ensures { result.now ≡ text_of (view value.now) }
{
    value.as_str().unwrap_or("")
}

/// Returns the text of the string in the member of this name, or the empty text if there is no such string.
pub fn text_at<'a>(value: &'a Value, name: &str) -> &'a str
    ensures { result.now ≡ text_at name.now (view value.now) }
{
    value.get(name).and_then(Value::as_str).unwrap_or("")
}

/// Returns `true` if and only if the value is an array with no entries.
#[tactic(auto, using(crate::proofs::Lists::count_of_view))]
pub fn is_empty_array(value: &Value) -> bool
    ensures { result ≡ is_empty_array (view value.now) }
{
    match value.as_array() {
        Some(items) => items.is_empty(),
        None => false,
    }
}
