ghost use Rattle.std.specs.Prelude.{◌≡◌, ◌++◌, ◌∷◌, [], false, OnOk};
ghost use Rattle.json.specs.Token.{number as number_token};
ghost use Rattle.serde_json.specs.Find.{is_float};
ghost use Rattle.serde_json.specs.View.{view, items_view, members_view, number_view};
ghost use Rattle.serde_json.specs.Written.{has_float, items_have_float, members_have_float, number_text};
ghost use Rattle.erd_text.specs.Tokens.{value_tokens, items_tokens, members_tokens};

use crate::output::Output;
use serde_json::{Map, Number, Value};
use std::alloc::AllocError;

/// Writes a value as it is, with the members of objects and the entries of arrays in their order. The contract covers only
/// values whose numbers are all whole.
///
/// # Errors
///
/// `AllocError` if out of memory.
///
/// ```
/// write_value(&value, &mut out)?;
/// ```
#[cycle(copy)]
pub fn write_value(value: &Value, out: &mut Output) -> Result<(), AllocError>
    ensures { OnOk result (has_float (view value.now) ≡ false → out.new ≡ out.old ++ value_tokens (view value.now)) }
{
    match value {
        Value::Null => out.null(),
        Value::Bool(truth) => out.boolean(*truth),
        Value::Number(number) => write_number(number, out),
        Value::String(text) => out.string(text.as_str()),
        Value::Array(items) => {
            out.begin_array()?;
            write_items(items, out)
        }
        Value::Object(members) => {
            out.begin_object()?;
            write_members(members, out)
        }
    }
}

/// Writes the entries of an array, and its end.
#[cycle(copy)]
fn write_items(items: &Vec<Value>, out: &mut Output) -> Result<(), AllocError>
    ensures { OnOk result (items_have_float (items_view items.now.items) ≡ false → out.new ≡ out.old ++ items_tokens (items_view items.now.items)) }
{
    for item in items {
        write_value(item, out)?;
    }
    out.end_array()
}

/// Writes the members of an object, and its end.
#[cycle(copy)]
fn write_members(members: &Map<String, Value>, out: &mut Output) -> Result<(), AllocError>
    ensures { OnOk result (members_have_float (members_view members.now.entries) ≡ false → out.new ≡ out.old
        ++ members_tokens (members_view members.now.entries)) }
{
    for (name, member) in members.iter() {
        out.key(name.as_str())?;
        write_value(member, out)?;
    }
    out.end_object()
}

/// Writes a whole number.
fn write_number(number: &Number, out: &mut Output) -> Result<(), AllocError>
    ensures { OnOk result (is_float (number_view number.now) ≡ false → out.new ≡ out.old ++ number_token (number_text (number_view number.now)) ∷ []) }
{
    if let Some(natural) = number.as_u64() {
        return out.u64(natural);
    }
    match number.as_i64() {
        Some(integer) => out.i64(integer),
        // a number that is not whole has no text here
        None => Ok(()),
    }
}
