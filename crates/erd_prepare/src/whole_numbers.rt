//! Whole numbers that are written with a fraction of zeros.
ghost use Rattle.std.specs.Prelude.{◌≡◌, [], Some, IfOk, option_map, ◌^◌};
ghost use Rattle.std.specs.Float.{float_to_signed};
ghost use Rattle.std.specs.Int.{w64};
ghost use Rattle.serde_json.specs.View.{view};
ghost use Rattle.erd_tables.specs.declared.class.Role.TheVariants.{Report};
ghost use Rattle.erd_check.specs.declared.want.Want.TheVariants.{Object};
ghost use Rattle.erd_prepare.specs.Changes.{told_by};
ghost use Rattle.erd_prepare.specs.Rules.{prepared, told};
ghost use Rattle.erd_prepare.specs.WholeNumbers.{is_held_whole, whole_form, whole_numbers, whole_of};

use crate::asked::scope_in;
use crate::engine::{Done, prepare};
use crate::mender::Mender;
use erd_check::path::Path;
use erd_check::want::{Scope, Want};
use serde_json::Value;
use std::alloc::{AllocError, Global};
use std::num::{nearest_i64_to_f64, saturating_f64_to_i64};

/// Writes each whole number that has a fraction of zeros without it, as `1.0`, and one with an exponent, as `1e2`. A number of
/// 2^53 or more stays, since its last digits are no longer known.
///
/// # Errors
///
/// `AllocError` if out of memory.
pub fn write_whole_numbers(alloc: Global, report: &Value) -> Result<Done, AllocError>
    ensures tree { IfOk result (λ done. view done.tree ≡ prepared whole_numbers [] (Some (Object Report)) (view report.now)) }
    ensures changes { IfOk result (λ done. told_by done.changes.items ≡ told whole_numbers [] (Some (Object Report)) (view report.now)) }
{
    prepare(alloc, &WholeNumbers, report)
}

/// The step that writes numbers whole.
#[derive(Clone, Copy)]
struct WholeNumbers;

impl Mender for WholeNumbers {
    ghost rule = { λ s. whole_numbers };

    fn scope(
        &self,
        _alloc: Global,
        want: Option<Want>,
        value: &Value,
    ) -> Result<Scope, AllocError> {
        Ok(scope_in(want, value))
    }

    fn shape(
        &self,
        _alloc: Global,
        _at: &Path,
        _want: Option<Want>,
        value: &Value,
    ) -> Result<Option<Value>, AllocError> {
        Ok(whole_form(value))
    }

    fn wraps(&self, _at: &Path, _want: Option<Want>, _object: &Value) -> bool {
        false
    }

    fn drops(
        &self,
        _alloc: Global,
        _at: &Path,
        _scope: Scope,
        _name: &str,
        _value: &Value,
    ) -> Result<bool, AllocError> {
        Ok(false)
    }

    fn lets_go(
        &self,
        _alloc: Global,
        _at: &Path,
        _array: Option<Want>,
        _entry: &Value,
    ) -> Result<bool, AllocError> {
        Ok(false)
    }

    fn puts(
        &self,
        alloc: Global,
        _at: &Path,
        _want: Option<Want>,
        _object: &Value,
    ) -> Result<Vec<(String, Value)>, AllocError> {
        Ok(Vec::new(alloc))
    }
}

/// Returns the whole number that a value is, if it is written otherwise.
fn whole_form(value: &Value) -> Option<Value>
    ensures { option_map view result ≡ whole_form (view value.now) }
{
    match value {
        Value::Number(number) => {
            if !number.is_f64() {
                return None;
            }
            match number.as_f64() {
                Some(float) => whole_of(float),
                None => None,
            }
        }
        Value::Null | Value::Bool(_) | Value::String(_) | Value::Array(_) | Value::Object(_) => {
            None
        }
    }
}

fn whole_of(float: f64) -> Option<Value>
    ensures { option_map view result ≡ whole_of float (float_to_signed w64 float) }
{
    let whole = saturating_f64_to_i64(float);
    if nearest_i64_to_f64(whole) == float && is_held_whole(whole) {
        Some(Value::from(whole))
    } else {
        None
    }
}

/// Returns whether no other whole number near it has the same float.
fn is_held_whole(whole: i64) -> bool
    ensures { result ≡ is_held_whole whole }
{
    -9007199254740992 < whole && whole < 9007199254740992
}
