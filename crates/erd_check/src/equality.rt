ghost use Rattle.std.specs.Prelude.{◌≡◌, map};
ghost use Rattle.std.specs.List.{list_any};
ghost use Rattle.serde_json.specs.View.{view, number_view, items_view, members_view};
ghost use Rattle.erd_check.specs.Trees.{is_same_json, are_same_items, are_same_members, same_number};

use serde_json::{Map, Number, Value};

/// Returns `true` if and only if two values are equal as JSON: built alike, with equal texts and equal whole numbers.
/// Arrays are compared as lists, and objects as maps. A number that is not whole is equal to no number, not even to
/// itself; this rule is from docs/PROFILE.md.
///
/// ```
/// let one = Value::from_str(alloc, r#"{"a":1,"b":2}"#)?;
/// let other = Value::from_str(alloc, r#"{"b":2,"a":1}"#)?;
/// assert!(rt; same_json(&one, &other));
/// ```
#[cycle(same)]
pub fn same_json(left: &Value, right: &Value) -> bool
    ensures { result ≡ is_same_json (view left.now) (view right.now) }
{
    match (left, right) {
        (Value::Null, Value::Null) => true,
        (Value::Bool(left), Value::Bool(right)) => *left == *right,
        (Value::Number(left), Value::Number(right)) => same_numbers(left, right),
        (Value::String(left), Value::String(right)) => left.as_str() == right.as_str(),
        (Value::Array(left), Value::Array(right)) => same_items(left, right),
        (Value::Object(left), Value::Object(right)) => same_members(left, right),
        _ => false,
    }
}

fn same_numbers(left: &Number, right: &Number) -> bool
    ensures { result ≡ same_number (number_view left.now) (number_view right.now) }
{
    match (left.as_i128(), right.as_i128()) {
        (Some(left), Some(right)) => left == right,
        _ => false,
    }
}

#[cycle(same)]
fn same_items(left: &Vec<Value>, right: &Vec<Value>) -> bool
    ensures { result ≡ are_same_items (items_view left.now.items) (items_view right.now.items) }
{
    let mut others = right.iter();
    for item in left {
        let Some(other) = others.next() else {
            return false;
        };
        if !same_json(item, other) {
            return false;
        }
    }
    others.next().is_none()
}

#[cycle(same)]
fn same_members(left: &Map<String, Value>, right: &Map<String, Value>) -> bool
    ensures { result
        ≡ are_same_members (members_view left.now.entries) (members_view right.now.entries) }
{
    let mut others = right.iter();
    for (name, member) in left.iter() {
        let Some((other_name, other)) = others.next() else {
            return false;
        };
        if name.as_str() != other_name.as_str() || !same_json(member, other) {
            return false;
        }
    }
    others.next().is_none()
}

/// Returns `true` if and only if the value is equal as JSON to one of the earlier values, as `same_json` compares them.
///
/// ```
/// assert!(rt; is_among(&second, entries));
/// ```
pub fn is_among(value: &Value, earlier: &[Value]) -> bool
    ensures { result ≡ list_any (is_same_json (view value.now)) (map view earlier.now) }
{
    for other in earlier {
        if same_json(value, other) {
            return true;
        }
    }
    false
}
