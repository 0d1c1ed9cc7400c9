ghost use Rattle.std.specs.Prelude.{◌≡◌, Bool, false, map, slice_get, unwrap_or};
ghost use Rattle.std.specs.Option.{option_map_or};
ghost use Rattle.serde_json.specs.Data.{Data};
ghost use Rattle.serde_json.specs.View.{view};
ghost use Rattle.erd_meaning.specs.Objects.{owner};
ghost use Rattle.erd_shown.specs.Reworded.{true_of_any_named, true_of_named, true_of_named_at};
ghost use Rattle.erd_shown.specs.code.Marks.{marks_of};

use crate::lookups::place_named;
use erd_meaning::Report;
use erd_tables::Family;
use serde_json::Value;

/// Returns whether the reference in a member of an object names an object of the family that is marked. An absent one names none.
/// The marks are those of the objects of the family, in their order.
pub(crate) fn is_named_at(
    report: &Report,
    family: Family,
    marks: &[bool],
    object: &Value,
    name: &str,
) -> bool
    ensures { (P : Data → Bool) → marks.now ≡ marks_of P family (view report.now.tree) → result ≡ true_of_named_at name.now P (view report.now.tree) family
        (view object.now) }
{
    match object.get(name) {
        Some(reference) => is_named(report, family, marks, reference),
        None => false,
    }
}

/// Returns whether a text names an object of the family that is marked.
fn is_owner_marked(report: &Report, family: Family, marks: &[bool], id: &str) -> bool
    ensures { (P : Data → Bool) → marks.now ≡ marks_of P family (view report.now.tree) → result ≡ option_map_or P (owner (view report.now.tree) family id.now)
        false }
{
    match place_named(report, family, id) {
        Some(position) => is_marked(marks, position),
        None => false,
    }
}

/// Returns whether there is a mark at a position.
fn is_marked(marks: &[bool], position: usize) -> bool
    ensures { result ≡ unwrap_or (slice_get marks.now position) false }
{
    marks.get(position).copied().unwrap_or(false)
}

/// Returns whether one of the references names an object of the family that is marked.
pub(crate) fn any_named(
    report: &Report,
    family: Family,
    marks: &[bool],
    references: &[Value],
) -> bool
    ensures { (P : Data → Bool) → marks.now ≡ marks_of P family (view report.now.tree) → result ≡ true_of_any_named P (view report.now.tree) family
        (map view references.now) }
{
    for reference in references {
        if is_named(report, family, marks, reference) {
            return true;
        }
    }
    false
}

/// Returns whether a reference is a text that names an object of the family that is marked.
fn is_named(report: &Report, family: Family, marks: &[bool], reference: &Value) -> bool
    ensures { (P : Data → Bool) → marks.now ≡ marks_of P family (view report.now.tree) → result ≡ true_of_named P (view report.now.tree) family
        (view reference.now) }
{
    match reference.as_str() {
        Some(id) => is_owner_marked(report, family, marks, id),
        None => false,
    }
}
