ghost use Rattle.std.specs.Prelude.{◌≡◌, ◌++◌, ◌∷◌, [], pos, OnOk, Some, map, option_copied, option_map};
ghost use Rattle.serde_json.specs.Data.{boolean};
ghost use Rattle.serde_json.specs.View.{items_of};
ghost use Rattle.erd_text.specs.Tokens.{items_tokens, value_tokens};
ghost use Rattle.erd_shown.specs.KeyData.{array_of, shown_key, shown_key_or_null, shown_text_or_null, shown_name, shown_order, shown_whole};

use crate::keys::{write_key, write_key_or_null};
use erd_meaning::SelectionName;
use erd_tables::type_text;
use erd_text::Output;
use std::alloc::AllocError;

/// Writes the name of a selection as the array of its six parts, or null.
pub(crate) fn write_name_or_null(
    name: Option<&SelectionName>,
    out: &mut Output,
) -> Result<(), AllocError>
    ensures { OnOk result (out.new ≡ out.old ++ value_tokens (shown_name (option_copied name.entry))) }
{
    match name {
        Some(name) => write_name(name, out),
        None => out.null(),
    }
}

/// Writes the name of a selection as the array of its six parts.
pub(crate) fn write_name(name: &SelectionName, out: &mut Output) -> Result<(), AllocError>
    ensures { OnOk result (out.new ≡ out.old ++ value_tokens (shown_name (Some name.now))) }
{
    out.begin_array()?;
    out.string(type_text(name.class()))?;
    write_keys(name, out)?;
    write_after_keys(name, out)
}

/// Writes the parts after the keys, and the end of the array.
fn write_after_keys(name: &SelectionName, out: &mut Output) -> Result<(), AllocError>
    ensures { OnOk result (out.new ≡ out.old ++ items_tokens
        (items_of (boolean name.now.write_in ∷ shown_order name.now.order ∷ shown_text_or_null name.now.label ∷ shown_key_or_null name.now.identifier ∷ []))) }
{
    out.boolean(name.is_write_in())?;
    write_order(name.sequence_order(), out)?;
    write_label(name.label(), out)?;
    write_key_or_null(name.identifier(), out)?;
    out.end_array()
}

/// Writes the keys in the name of a selection as an array.
fn write_keys(name: &SelectionName, out: &mut Output) -> Result<(), AllocError>
    ensures { OnOk result (out.new ≡ out.old ++ value_tokens (array_of (map shown_key name.now.keys))) }
{
    out.begin_array()?;
    for index in 0..name.key_count() {
        if let Some(key) = name.key_at(index) {
            write_key(key, out)?;
        }
    }
    out.end_array()
}

/// Writes the sequence order of a selection, or null if it has none.
fn write_order(order: Option<i128>, out: &mut Output) -> Result<(), AllocError>
    ensures { OnOk result (out.new ≡ out.old ++ value_tokens (shown_order order)) }
{
    match order {
        Some(number) => write_whole(number, out),
        None => out.null(),
    }
}

/// Writes a whole number that fits 64 bits as a number, and null for any other.
fn write_whole(number: i128, out: &mut Output) -> Result<(), AllocError>
    ensures { OnOk result (out.new ≡ out.old ++ value_tokens (shown_whole number)) }
{
    if let Ok(number) = u64::try_from(number) {
        out.u64(number)
    } else if let Ok(number) = i64::try_from(number) {
        out.i64(number)
    } else {
        out.null()
    }
}

/// Writes a count or a position as a number.
pub(crate) fn write_count(count: usize, out: &mut Output) -> Result<(), AllocError>
    ensures { OnOk result (out.new ≡ out.old ++ value_tokens (shown_whole (pos count))) }
{
    write_whole(count as i128, out)
}

/// Writes the text of a label, or null if there is none.
fn write_label(label: Option<&str>, out: &mut Output) -> Result<(), AllocError>
    ensures { OnOk result (out.new ≡ out.old ++ value_tokens (shown_text_or_null (option_map (λ s. s.now) label.entry))) }
{
    match label {
        Some(text) => out.string(text),
        None => out.null(),
    }
}
