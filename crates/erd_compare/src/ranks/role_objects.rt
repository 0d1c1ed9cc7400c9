//! What a report has of the objects with a role. The roles that are compared are those of the families with keys, that of the
//! elections, and that of the report itself.
ghost use Rattle.std.specs.Prelude.{◌≡◌, true, Some, option_copied, option_map, slice_get};
ghost use Rattle.erd_compare.specs.Words.{view};
ghost use Rattle.erd_meaning.specs.code.KeyOrders.{rank_in_keys, rising_positions};
ghost use Rattle.erd_compare.specs.code.KeyedDifferences.{holder_in, is_ranked, key_in_role, keys_in_role, rising_in_role, role_of_part};

use crate::difference::Part;
use erd_meaning::{Key, Report};
use erd_tables::{Family, Role};

/// Returns the role of the objects in a part.
pub(crate) fn role_of(part: Part) -> Role
    ensures role { result ≡ role_of_part part }
    ensures ranked { is_ranked result ≡ true }
{
    match part {
        Part::Report => Role::Report,
        Part::Unit => Role::OfFamily(Family::Unit),
        Part::Party => Role::OfFamily(Family::Party),
        Part::Person => Role::OfFamily(Family::Person),
        Part::Office => Role::OfFamily(Family::Office),
        Part::Header => Role::OfFamily(Family::Header),
        Part::Election => Role::Election,
        Part::Candidate => Role::OfFamily(Family::Candidate),
        Part::Contest => Role::OfFamily(Family::Contest),
        Part::Style => Role::OfFamily(Family::Style),
    }
}

/// Returns the key of the object with a role at a position, if it has one.
pub(crate) fn key_at<'a>(report: &'a Report, role: Role, position: usize) -> Option<&'a Key>
    ensures { option_copied result ≡ key_in_role report.now.prefer role (view report.now.tree) position }
{
    match role {
        Role::OfFamily(family) => report.key_at(family, position),
        Role::Election => report.election_key(position),
        _ => None,
    }
}

/// Returns the position of the election that holds the object with a role at a position, if there is one. Only candidates,
/// contests and styles are held by elections.
pub(crate) fn election_of(report: &Report, role: Role, position: usize) -> Option<usize>
    ensures { result ≡ holder_in role (view report.now.tree) position }
{
    match role {
        Role::OfFamily(family) => report.election_of(family, position),
        _ => None,
    }
}

/// Returns the positions of the objects with a role, in the rising order of their keys.
pub(crate) fn rising<'a>(report: &'a Report, role: Role) -> &'a [usize]
    requires ranked { is_ranked role ≡ true }
    ensures { result.now ≡ rising_positions (keys_in_role report.now.prefer (view report.now.tree) role) }
{
    match role {
        Role::OfFamily(family) => report.rising(family),
        Role::Election => report.rising_elections(),
        _ => &[0],
    }
}

/// Returns the rank of the key of the object with a role at a position, if it has one: the number of objects with the role
/// that have lesser keys.
pub(crate) fn rank_at(report: &Report, role: Role, position: usize) -> Option<usize>
    requires ranked { is_ranked role ≡ true }
    ensures { result ≡ option_map (λ key. rank_in_keys (keys_in_role report.now.prefer (view report.now.tree) role) (Some key))
        (key_in_role report.now.prefer role (view report.now.tree) position) }
{
    match role {
        Role::OfFamily(family) => report.rank_at(family, position),
        Role::Election => {
            report.election_key(position)?;
            report.election_rank_at(position)
        }
        _ => None,
    }
}

/// Returns the key of the object with a role at a rank, if there is such an object. The report and the only election of a
/// report may have no key.
pub(crate) fn key_at_rank<'a>(
    report: &'a Report,
    role: Role,
    rank: usize,
) -> Option<Option<&'a Key>>
    requires ranked { is_ranked role ≡ true }
    ensures { option_map (λ k. option_copied k) result ≡ slice_get (rising_in_role report.now.prefer (view report.now.tree) role) rank }
{
    match position_at(rising(report, role), rank) {
        Some(position) => Some(key_at(report, role, position)),
        None => None,
    }
}

/// Returns the position that stands at a rank, if there is one.
fn position_at(rising: &[usize], rank: usize) -> Option<usize>
    ensures { result ≡ slice_get rising.now rank }
{
    rising.get(rank).copied()
}
