ghost use Rattle.std.specs.Prelude.{◌≡◌, ◌==◌, option_and_then, option_copied, option_map, slice_get, true};
ghost use Rattle.serde_json.specs.View.{view};
ghost use Rattle.erd_tables.specs.Classes.{family_number};
ghost use Rattle.erd_meaning.specs.Keys.{has_keys};
ghost use Rattle.erd_meaning.specs.Objects.{objects, owner};
ghost use Rattle.erd_meaning.specs.SelectionNames.{key_named, name_named};
ghost use Rattle.erd_shown.specs.code.Writing.{name_in};

use erd_meaning::{Key, Report, SelectionName};
use erd_tables::Family;

/// Returns the key of the object of the family that has the `@id`, if there is one.
pub(crate) fn key_named<'a>(report: &'a Report, family: Family, id: &str) -> Option<&'a Key>
    requires keyed { has_keys family ≡ true }
    ensures { option_copied result ≡ key_named report.now.prefer (view report.now.tree) family id.now }
{
    match report.target_of(family, id) {
        Some((found, position)) => {
            if is_same(found, family) {
                report.key_at(family, position)
            } else {
                None
            }
        }
        None => None,
    }
}

/// Returns the name of the selection that has the `@id`, if there is one.
pub(crate) fn name_named<'a>(report: &'a Report, id: &str) -> Option<&'a SelectionName>
    ensures { option_copied result ≡ name_named report.now.prefer (view report.now.tree) id.now }
{
    match report.target_of(Family::Selection, id) {
        Some((found, position)) => {
            if is_same(found, Family::Selection) {
                name_at(report, position)
            } else {
                None
            }
        }
        None => None,
    }
}

/// Returns the name of the selection at a position, if there is one.
pub(crate) fn name_at<'a>(report: &'a Report, position: usize) -> Option<&'a SelectionName>
    ensures { option_copied result ≡ name_in report.now.prefer (view report.now.tree) position }
{
    match report.selection_at(position) {
        Some((_, name)) => Some(name),
        None => None,
    }
}

/// Returns the position of the object of the family that has the `@id`, if there is one.
pub(crate) fn place_named(report: &Report, family: Family, id: &str) -> Option<usize>
    ensures { option_map (λ o. o.value) (option_and_then (slice_get (objects family (view report.now.tree))) result)
        ≡ owner (view report.now.tree) family id.now }
{
    match report.target_of(family, id) {
        Some((found, position)) => {
            if is_same(found, family) {
                Some(position)
            } else {
                None
            }
        }
        None => None,
    }
}

/// Returns whether two families are the same.
fn is_same(found: Family, family: Family) -> bool
    ensures { result ≡ (family_number found == family_number family) }
{
    found == family
}
