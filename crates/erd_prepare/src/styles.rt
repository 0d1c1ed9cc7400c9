//! Ballot styles whose list of units is empty.
ghost use Rattle.std.specs.Prelude.{◌≡◌, [], false, Some, IfOk, codes};
ghost use Rattle.std.specs.Option.{option_map_or};
ghost use Rattle.serde_json.specs.Find.{get};
ghost use Rattle.serde_json.specs.View.{view};
ghost use Rattle.erd_tables.specs.declared.class.Role.TheVariants.{Report};
ghost use Rattle.erd_check.specs.Faults.{is_empty_array};
ghost use Rattle.erd_check.specs.declared.want.Want.TheVariants.{Object};
ghost use Rattle.erd_prepare.specs.Changes.{told_by};
ghost use Rattle.erd_prepare.specs.Rules.{prepared, told};
ghost use Rattle.erd_prepare.specs.Styles.{unused_styles};

use crate::asked::scope_in;
use crate::engine::{Done, prepare};
use crate::mender::Mender;
use erd_check::path::Path;
use erd_check::values::is_empty_array;
use erd_check::want::{Scope, Want};
use erd_tables::class::Family;
use erd_tables::member::MemberKind;
use serde_json::Value;
use std::alloc::{AllocError, Global};

/// Takes out each ballot style that is for no unit.
///
/// # Errors
///
/// `AllocError` if out of memory.
pub fn take_out_unused_styles(alloc: Global, report: &Value) -> Result<Done, AllocError>
    ensures tree { IfOk result (λ done. view done.tree ≡ prepared unused_styles [] (Some (Object Report)) (view report.now)) }
    ensures changes { IfOk result (λ done. told_by done.changes.items ≡ told unused_styles [] (Some (Object Report)) (view report.now)) }
{
    prepare(alloc, &UnusedStyles, report)
}

/// The step that takes out ballot styles of no unit.
#[derive(Clone, Copy)]
struct UnusedStyles;

impl Mender for UnusedStyles {
    ghost rule = { λ s. unused_styles };

    fn scope(
        &self,
        _alloc: Global,
        want: Option<Want>,
        value: &Value,
    ) -> Result<Scope, AllocError> {
        Ok(scope_in(want, value))
    }

    fn shape(
        &self,
        _alloc: Global,
        _at: &Path,
        _want: Option<Want>,
        _value: &Value,
    ) -> Result<Option<Value>, AllocError> {
        Ok(None)
    }

    fn wraps(&self, _at: &Path, _want: Option<Want>, _object: &Value) -> bool {
        false
    }

    fn drops(
        &self,
        _alloc: Global,
        _at: &Path,
        _scope: Scope,
        _name: &str,
        _value: &Value,
    ) -> Result<bool, AllocError> {
        Ok(false)
    }

    fn lets_go(
        &self,
        _alloc: Global,
        _at: &Path,
        array: Option<Want>,
        entry: &Value,
    ) -> Result<bool, AllocError> {
        Ok(match array {
            Some(Want::Member(MemberKind::Keyed(Family::Style), _)) => has_no_unit(entry),
            _ => false,
        })
    }

    fn puts(
        &self,
        alloc: Global,
        _at: &Path,
        _want: Option<Want>,
        _object: &Value,
    ) -> Result<Vec<(String, Value)>, AllocError> {
        Ok(Vec::new(alloc))
    }
}

/// Returns whether the list of units is there and empty.
fn has_no_unit(style: &Value) -> bool
    ensures { result ≡ option_map_or is_empty_array (get (codes "GpUnitIds") (view style.now)) false }
{
    match style.get("GpUnitIds") {
        Some(units) => is_empty_array(units),
        None => false,
    }
}
