ghost use Rattle.std.specs.Prelude.{◌≡◌, codes, map, option_map, IfOk};
ghost use Rattle.serde_json.specs.Data.{array};
ghost use Rattle.serde_json.specs.View.{items_of};
ghost use Rattle.erd_compare.specs.Words.{member, no_members, object, string, view, detailed_data, difference_members, key_as_json, label_data, name_data};
ghost use Rattle.erd_compare.specs.Words.{order_data, selection_data, selections_data, whole_data};

use crate::detailed::DetailedDifference;
use crate::difference::{Difference, How, key_value, part_words};
use crate::difference_value::key_or_null;
use crate::inside::SelectionDifference;
use erd_meaning::SelectionName;
use erd_tables::type_text;
use serde_json::{Value, json};
use std::alloc::{AllocError, Global};

impl DetailedDifference {
    /// Returns the difference as a JSON object: that of `Difference::to_value`. If two contests differ in their selections, it
    /// has a member `selections` too, with the array of the differences of these. docs/API.md describes the objects.
    ///
    /// # Errors
    ///
    /// `AllocError` if out of memory.
    ///
    /// ```
    /// let text = detailed.to_value(alloc)?.to_string(alloc)?;
    /// assert_eq!(rt;
    ///     text.as_str(),
    ///     r#"{"how":"member","key":null,"member":"Name","part":"election"}"#
    /// );
    /// ```
    pub fn to_value(&self, alloc: Global) -> Result<Value, AllocError>
        ensures { IfOk result (λ value. view value ≡ detailed_data self.now) }
    {
        match &self.selections {
            Some(selections) => {
                let list = selections_value(alloc, selections)?;
                with_list(alloc, &self.difference, list)
            }
            None => self.difference.to_value(alloc),
        }
    }
}

/// Returns the difference as a JSON object with a member `selections`.
fn with_list(alloc: Global, difference: &Difference, list: Value) -> Result<Value, AllocError>
    ensures { IfOk result (λ value. view value ≡ object (difference_members difference.now (member (codes "selections") (view list) no_members))) }
{
    let part = part_words(difference.part);
    let key = key_or_null(alloc, difference.key.as_ref())?;
    match &difference.how {
        How::OnlyLeft => listed_without_member(alloc, part, key, "only left", list),
        How::OnlyRight => listed_without_member(alloc, part, key, "only right", list),
        How::OtherClass => listed_without_member(alloc, part, key, "other class", list),
        How::Member(name) => listed_in_member(alloc, part, key, name.as_str(), list),
    }
}

/// Returns the object of a difference that is not in a member, with a member `selections`.
fn listed_without_member(
    alloc: Global,
    part: &str,
    key: Value,
    how: &str,
    list: Value,
) -> Result<Value, AllocError>
    ensures { IfOk result (λ value. view value ≡ object (member (codes "how") (string how.now)
        (member (codes "key") (view key) (member (codes "part") (string part.now) (member (codes "selections") (view list) no_members))))) }
{
    json!(in alloc; {"how": how, "key": key, "part": part, "selections": list})
}

/// Returns the object of a difference in a member, with a member `selections`.
fn listed_in_member(
    alloc: Global,
    part: &str,
    key: Value,
    name: &str,
    list: Value,
) -> Result<Value, AllocError>
    ensures { IfOk result (λ value. view value ≡ object (member (codes "how") (string (codes "member")) (member (codes "key") (view key)
        (member (codes "member") (string name.now) (member (codes "part") (string part.now) (member (codes "selections") (view list) no_members)))))) }
{
    json!(in alloc; {"how": "member", "key": key, "member": name, "part": part, "selections": list})
}

/// Returns the array of the differences of selections.
fn selections_value(alloc: Global, selections: &[SelectionDifference]) -> Result<Value, AllocError>
    ensures { IfOk result (λ value. view value ≡ selections_data selections.now) }
{
    let mut values = Vec::with_capacity(alloc, selections.len())?;
    for selection in selections {
        values.push(selection.to_value(alloc)?)?;
    }
    Ok(Value::Array(values))
}

impl SelectionDifference {
    /// Returns the difference as a JSON object. `how` is `only left`, `only right` or `member`. In the last case, `member` is
    /// the name of the member. `name` is the name of the selection, as the array of its six parts.
    ///
    /// # Errors
    ///
    /// `AllocError` if out of memory.
    ///
    /// ```
    /// let text = inside.to_value(alloc)?.to_string(alloc)?;
    /// assert_eq!(rt;
    ///     text.as_str(),
    ///     r#"{"how":"only right","name":["ElectionResults.CandidateSelection",[],true,null,null,null]}"#
    /// );
    /// ```
    pub fn to_value(&self, alloc: Global) -> Result<Value, AllocError>
        ensures { IfOk result (λ value. view value ≡ selection_data self.now) }
    {
        selection_value(alloc, &self.name, &self.how)
    }
}

/// Returns the difference of two selections with this name as a JSON object.
pub(crate) fn selection_value(
    alloc: Global,
    name: &SelectionName,
    how: &How,
) -> Result<Value, AllocError>
    ensures { IfOk result (λ value. view value ≡ selection_data (record { name = name.now; how = how.now })) }
{
    match how {
        How::OnlyLeft => selection_without_member(alloc, name, "only left"),
        How::OnlyRight => selection_without_member(alloc, name, "only right"),
        How::OtherClass => selection_without_member(alloc, name, "other class"),
        How::Member(member) => {
            let member = member.as_str();
            json!(in alloc; {"how": "member", "member": member, "name": name_value(alloc, name)?})
        }
    }
}

/// Returns the difference of two selections with this name, which is not in a member, as a JSON object.
fn selection_without_member(
    alloc: Global,
    name: &SelectionName,
    how: &str,
) -> Result<Value, AllocError>
    ensures { IfOk result (λ value. view value ≡ object (member (codes "how") (string how.now) (member (codes "name") (name_data name.now) no_members))) }
{
    json!(in alloc; {"how": how, "name": name_value(alloc, name)?})
}

/// Returns the name of a selection as the JSON array of its six parts.
fn name_value(alloc: Global, name: &SelectionName) -> Result<Value, AllocError>
    ensures { IfOk result (λ value. view value ≡ name_data name.now) }
{
    let class = text_value(alloc, type_text(name.class()))?;
    let keys = keys_value(alloc, name)?;
    let write_in = Value::Bool(name.is_write_in());
    let order = order_value(name.sequence_order());
    let label = label_value(alloc, name.label())?;
    let identifier = key_or_null(alloc, name.identifier())?;
    let parts = vec![in alloc; class, keys, write_in, order, label, identifier]?;
    Ok(Value::Array(parts))
}

/// Returns the keys in the name of a selection as an array.
fn keys_value(alloc: Global, name: &SelectionName) -> Result<Value, AllocError>
    ensures { IfOk result (λ value. view value ≡ array (items_of (map key_as_json name.now.keys))) }
{
    let count = name.key_count();
    let mut keys = Vec::with_capacity(alloc, count)?;
    for index in 0..count {
        if let Some(key) = name.key_at(index) {
            keys.push(key_value(alloc, key)?)?;
        }
    }
    Ok(Value::Array(keys))
}

/// Returns the sequence order of a selection as a number, or null if it has none.
fn order_value(order: Option<i128>) -> Value
    ensures { view result ≡ order_data order }
{
    match order {
        Some(number) => whole_value(number),
        None => Value::Null,
    }
}

/// Returns a whole number that fits 64 bits as a number, and null for any other.
fn whole_value(number: i128) -> Value
    ensures { view result ≡ whole_data number }
{
    if let Ok(number) = u64::try_from(number) {
        Value::from(number)
    } else if let Ok(number) = i64::try_from(number) {
        Value::from(number)
    } else {
        Value::Null
    }
}

/// Returns the text of a label as a string, or null if there is none.
fn label_value(alloc: Global, label: Option<&str>) -> Result<Value, AllocError>
    ensures { IfOk result (λ value. view value ≡ label_data (option_map (λ s. s.now) label.entry)) }
{
    match label {
        Some(text) => text_value(alloc, text),
        None => Ok(Value::Null),
    }
}

/// Returns a text as a JSON string.
fn text_value(alloc: Global, text: &str) -> Result<Value, AllocError>
    ensures { IfOk result (λ value. view value ≡ string text.now) }
{
    Ok(Value::String(String::from_str(alloc, text)?))
}
