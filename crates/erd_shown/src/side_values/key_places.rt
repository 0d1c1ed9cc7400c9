//! Where an object with a key stands in a report.
ghost use Rattle.std.specs.Prelude.{◌≡◌, None, Some, option_and_then, option_copied, slice_get};
ghost use Rattle.std.specs.Option.{option_cmp};
ghost use Rattle.serde_json.specs.View.{view};
ghost use Rattle.serde_json.specs.Data.{Data};
ghost use Rattle.erd_meaning.specs.Keys.{Preference, key_cmp};
ghost use Rattle.erd_meaning.specs.Objects.{elections, objects};
ghost use Rattle.erd_meaning.specs.Records.{election_with_key};
ghost use Rattle.erd_shown.specs.Shown.{placed_in};
ghost use Rattle.erd_shown.specs.SideValues.{object_with_key};

use erd_meaning::{Key, Report};
use erd_tables::{Family, Role};
use std::cmp::Ordering;

/// Returns the position of the object with a role and a key, or without a key, if there is one.
pub(crate) fn place_with_key(report: &Report, role: Role, key: Option<&Key>) -> Option<usize>
    ensures { option_and_then (placed_in (view report.now.tree) role) result ≡ object_with_key report.now.prefer (view report.now.tree) role
        (option_copied key.entry) }
{
    match role {
        Role::Report => place_of_report(key),
        Role::Election => place_of_election(report, key),
        Role::OfFamily(family) => place_in_family(report, family, key),
        _ => None,
    }
}

/// Returns the position of the report itself, which has no key.
fn place_of_report(key: Option<&Key>) -> Option<usize>
    ensures { (π : Preference) (t : Data) → option_and_then (placed_in t Role.Report) result ≡ object_with_key π t Role.Report (option_copied key.entry) }
{
    match key {
        Some(_) => None,
        None => Some(0),
    }
}

/// Returns the position of the object of a family with a key, if there is one.
fn place_in_family(report: &Report, family: Family, key: Option<&Key>) -> Option<usize>
    ensures { option_and_then (slice_get (objects family (view report.now.tree))) result ≡ object_with_key report.now.prefer (view report.now.tree)
        (Role.OfFamily family) (option_copied key.entry) }
{
    let _tree = report.tree();
    report.find(family, key?)
}

/// Returns the position of the election with a key, or without a key, if there is one. It is sought in the order of the keys.
fn place_of_election(report: &Report, key: Option<&Key>) -> Option<usize>
    ensures { option_and_then (slice_get (elections (view report.now.tree))) result ≡ election_with_key report.now.prefer (view report.now.tree)
        (option_copied key.entry) }
{
    let _tree = report.tree();
    let rising = report.rising_elections();
    match rising.binary_search_by(|place| order_of_keys(report.election_key(*place), key)) {
        Ok(index) => Some(rising[index]),
        Err(_) => None,
    }
}

/// Compares two keys, of which either may be missing. A missing key is less than any.
fn order_of_keys(one: Option<&Key>, other: Option<&Key>) -> Ordering
    ensures { result ≡ option_cmp key_cmp (option_copied one.entry) (option_copied other.entry) }
{
    match one {
        Some(one) => order_of_key(one, other),
        None => order_of_none(other),
    }
}

/// Compares no key with a key, which may be missing too.
fn order_of_none(key: Option<&Key>) -> Ordering
    ensures { result ≡ option_cmp key_cmp None (option_copied key.entry) }
{
    match key {
        Some(_) => Ordering::Less,
        None => Ordering::Equal,
    }
}

/// Compares a key with another one, which may be missing.
fn order_of_key(one: &Key, other: Option<&Key>) -> Ordering
    ensures { result ≡ option_cmp key_cmp (Some one.now) (option_copied other.entry) }
{
    match other {
        Some(other) => one.cmp(other),
        None => Ordering::Greater,
    }
}
