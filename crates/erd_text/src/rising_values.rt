ghost use Rattle.std.specs.Prelude.{◌≡◌, ◌++◌, ◌∷◌, [], false, map, IfOk};
ghost use Rattle.std.specs.Result.{OnOk};
ghost use Rattle.serde_json.specs.Data.{array};
ghost use Rattle.serde_json.specs.View.{view, items_of, items_view};
ghost use Rattle.serde_json.specs.Written.{has_float, items_have_float};
ghost use Rattle.erd_text.specs.RisingLists.{compact_cmp, rising_list};
ghost use Rattle.erd_text.specs.Tokens.{value_tokens};
ghost use Rattle.erd_text.specs.code.Writing.{beside, beside_compact_text};

use crate::compact_text::CompactText;
use crate::output::Output;
use crate::stable_sort::in_order;
use crate::value::write_value;
use serde_json::Value;
use std::alloc::{AllocError, Global};

/// Writes the array of the values, sorted by their compact texts. The contract covers only values whose numbers are all
/// whole.
///
/// # Errors
///
/// `AllocError` if out of memory.
///
/// ```
/// write_rising_values(alloc, entries_of(&value), &mut out)?;
/// ```
pub fn write_rising_values(
    alloc: Global,
    values: &[Value],
    out: &mut Output,
) -> Result<(), AllocError>
    ensures { OnOk result (items_have_float (items_view values.now) ≡ false
        → out.new ≡ out.old ++ value_tokens (array (items_of (rising_list compact_cmp (map view values.now))))) }
{
    match values {
        [only] => write_only(only, out),
        _ => write_sorted(alloc, values, out),
    }
}

/// Writes the array of a single value, which needs no sorting and so no text.
fn write_only(value: &Value, out: &mut Output) -> Result<(), AllocError>
    ensures { OnOk result (has_float (view value.now) ≡ false → out.new ≡ out.old ++ value_tokens (array (items_of (view value.now ∷ [])))) }
{
    out.begin_array()?;
    write_value(value, out)?;
    out.end_array()
}

/// Writes the array for any number of values.
fn write_sorted(alloc: Global, values: &[Value], out: &mut Output) -> Result<(), AllocError>
    ensures { OnOk result (items_have_float (items_view values.now) ≡ false
        → out.new ≡ out.old ++ value_tokens (array (items_of (rising_list compact_cmp (map view values.now))))) }
{
    let pairs = with_texts(alloc, values)?;
    let sorted = in_order(alloc, pairs)?;
    write_each(&sorted, out)
}

/// Returns the values with their compact texts.
fn with_texts<'a>(
    alloc: Global,
    values: &'a [Value],
) -> Result<Vec<(CompactText, &'a Value)>, AllocError>
    ensures { IfOk result (λ pairs. items_have_float (items_view values.now) ≡ false
        → map (λ p. beside p.0 (view p.1.now)) pairs.items ≡ map (λ v. beside_compact_text (view v)) values.now) }
{
    let mut pairs = Vec::with_capacity(alloc, values.len())?;
    for value in values {
        pairs.push((CompactText::of(alloc, value)?, value))?;
    }
    Ok(pairs)
}

/// Writes the array of the values, without their texts.
fn write_each(pairs: &[(CompactText, &Value)], out: &mut Output) -> Result<(), AllocError>
    ensures { OnOk result (items_have_float (items_of (map (λ p. view p.1.now) pairs.now)) ≡ false
        → out.new ≡ out.old ++ value_tokens (array (items_of (map (λ p. view p.1.now) pairs.now)))) }
{
    out.begin_array()?;
    for pair in pairs {
        write_value(pair.1, out)?;
    }
    out.end_array()
}
