//! Where a place is on a map, as a vendor may write it.
ghost use Rattle.std.specs.Prelude.{◌≡◌};
ghost use Rattle.std.specs.Float.{float_to_signed};
ghost use Rattle.std.specs.Int.{w64};
ghost use Rattle.serde_json.specs.View.{view, items_view};
ghost use Rattle.erd_prepare.specs.Local.{holds_fraction, is_carried_want, is_degree_name, is_fraction, is_no_whole, is_geographic, items_hold_fraction};
ghost use Rattle.erd_prepare.specs.Local.{may_be_geographic};

use erd_check::want::Want;
use serde_json::Value;
use std::num::{nearest_i64_to_f64, saturating_f64_to_i64};

/// Returns whether a member is a degree, or a list of positions, that a vendor has in the place of a `LatLng`.
pub(crate) fn is_geographic(want: Option<Want>, name: &str, value: &Value) -> bool
    ensures { result ≡ is_geographic want name.now (view value.now) }
{
    is_carried_want(want) && may_be_geographic(name, value) && holds_fraction(value)
}

fn may_be_geographic(name: &str, value: &Value) -> bool
    ensures { result ≡ may_be_geographic name.now (view value.now) }
{
    is_degree_name(name) || value.is_array()
}

// Returns whether this is the name of a part of a position.
fn is_degree_name(name: &str) -> bool
    ensures { result ≡ is_degree_name name.now }
{
    name == "Latitude" || name == "Longitude"
}

// Returns whether a value of which this is asked is a carried one.
fn is_carried_want(want: Option<Want>) -> bool
    ensures { result ≡ is_carried_want want }
{
    matches!(want, Some(Want::Carried))
}

// Returns whether a value is a number with a fraction, or a list in which there is one.
#[cycle(fractions)]
fn holds_fraction(value: &Value) -> bool
    ensures { result ≡ holds_fraction (view value.now) }
{
    match value {
        Value::Number(_) => is_fraction(value),
        Value::Array(items) => items_hold_fraction(items),
        Value::Null | Value::Bool(_) | Value::String(_) | Value::Object(_) => false,
    }
}

#[cycle(fractions)]
fn items_hold_fraction(items: &Vec<Value>) -> bool
    ensures { result ≡ items_hold_fraction (items_view items.now.items) }
{
    for item in items {
        if holds_fraction(item) {
            return true;
        }
    }
    false
}

fn is_fraction(value: &Value) -> bool
    ensures { result ≡ is_fraction (view value.now) }
{
    match value {
        Value::Number(number) => {
            if !number.is_f64() {
                return false;
            }
            match number.as_f64() {
                Some(float) => is_no_whole(float),
                None => false,
            }
        }
        Value::Null | Value::Bool(_) | Value::String(_) | Value::Array(_) | Value::Object(_) => {
            false
        }
    }
}

fn is_no_whole(float: f64) -> bool
    ensures { result ≡ is_no_whole float (float_to_signed w64 float) }
{
    let is_whole = nearest_i64_to_f64(saturating_f64_to_i64(float)) == float;
    !is_whole
}
