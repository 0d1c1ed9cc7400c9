ghost use Rattle.std.specs.Prelude.{◌≡◌, ◌++◌, true, map, IfOk, OnOk, option_and_then};
ghost use Rattle.serde_json.specs.Find.{as_str};
ghost use Rattle.serde_json.specs.View.{view};
ghost use Rattle.erd_text.specs.Tokens.{value_tokens};
ghost use Rattle.erd_meaning.specs.Keys.{has_keys};
ghost use Rattle.erd_meaning.specs.SelectionNames.{key_named, keys_named};
ghost use Rattle.erd_shown.specs.KeyData.{array_of, shown_key, shown_key_or_null};
ghost use Rattle.erd_shown.specs.Shown.{keys_data};

use crate::keys::{write_key, write_key_or_null};
use crate::lookups::key_named;
use erd_meaning::{Key, Report};
use erd_tables::Family;
use erd_text::{Output, in_order};
use serde_json::Value;
use std::alloc::{AllocError, Global};

/// Writes the key of the object of the family that has this `@id`, or null.
pub(crate) fn write_key_named(
    report: &Report,
    family: Family,
    id: &str,
    out: &mut Output,
) -> Result<(), AllocError>
    requires keyed { has_keys family ≡ true }
    ensures { OnOk result (out.new ≡ out.old ++ value_tokens (shown_key_or_null (key_named report.now.prefer (view report.now.tree) family id.now))) }
{
    write_key_or_null(key_named(report, family, id), out)
}

/// Writes the key of the object of the family that a reference names, or null.
pub(crate) fn write_reference(
    report: &Report,
    family: Family,
    value: &Value,
    out: &mut Output,
) -> Result<(), AllocError>
    requires keyed { has_keys family ≡ true }
    ensures { OnOk result (out.new ≡ out.old ++ value_tokens
        (shown_key_or_null (option_and_then (key_named report.now.prefer (view report.now.tree) family) (as_str (view value.now))))) }
{
    match value.as_str() {
        Some(id) => write_key_named(report, family, id, out),
        None => out.null(),
    }
}

/// Returns the keys of what references name, in their order.
fn keys_of(
    alloc: Global,
    report: &Report,
    family: Family,
    values: &[Value],
) -> Result<Vec<(Key, ())>, AllocError>
    requires keyed { has_keys family ≡ true }
    ensures { IfOk result (λ keys. map (λ p. p.0) keys.items ≡ keys_named report.now.prefer (view report.now.tree) family (map view values.now)) }
{
    let mut keys = Vec::new(alloc);
    for value in values {
        if let Some(id) = value.as_str() {
            if let Some(key) = key_named(report, family, id) {
                keys.push((key.try_clone(alloc)?, ()))?;
            }
        }
    }
    Ok(keys)
}

/// Writes keys as an array.
fn write_keys(keys: &[(Key, ())], out: &mut Output) -> Result<(), AllocError>
    ensures { OnOk result (out.new ≡ out.old ++ value_tokens (array_of (map (λ p. shown_key p.0) keys.now))) }
{
    out.begin_array()?;
    for pair in keys {
        write_key(&pair.0, out)?;
    }
    out.end_array()
}

/// Writes the keys of what a set of references names, in rising order.
pub(crate) fn write_reference_set(
    alloc: Global,
    report: &Report,
    family: Family,
    values: &[Value],
    out: &mut Output,
) -> Result<(), AllocError>
    requires keyed { has_keys family ≡ true }
    ensures { OnOk result (out.new ≡ out.old ++ value_tokens (keys_data report.now.prefer (view report.now.tree) family (map view values.now))) }
{
    let keys = in_order(alloc, keys_of(alloc, report, family, values)?)?;
    write_keys(&keys, out)
}
