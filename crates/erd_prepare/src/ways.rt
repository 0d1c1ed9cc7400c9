//! What may go in front of the codes of a family of objects.
use erd_tables::class::{Family, Role};

/// What may go in front of a code.
#[derive(Clone, Copy, PartialEq, Eq)]
pub(crate) enum Piece {
    /// The day on which the election begins.
    Date,
    /// The candidate's name.
    Name,
    /// The code of the election around.
    Election,
    /// The code of the contest that the candidate is in.
    Contest,
    /// The code of the candidate that the person is.
    Candidate,
    /// The code of the county of the style's units.
    County,
    /// The codes of the districts of the contest or office.
    District,
    /// The codes of the style's units.
    Units,
    /// The codes of the parties.
    Party,
}

/// The objects whose codes are told apart, each family after those whose codes go in front of its own. Nothing may go in front of
/// the codes of units, parties and headers: those that have one code are left.
pub(crate) const CODED: [Role; 9] = [
    Role::OfFamily(Family::Unit),
    Role::OfFamily(Family::Party),
    Role::OfFamily(Family::Header),
    Role::Election,
    Role::OfFamily(Family::Office),
    Role::OfFamily(Family::Contest),
    Role::OfFamily(Family::Candidate),
    Role::OfFamily(Family::Person),
    Role::OfFamily(Family::Style),
];

/// Returns what may go in front of the codes of objects with the role, from the least to the most.
pub(crate) fn ways_of(role: Role) -> &'static [&'static [Piece]] {
    match role {
        Role::Election => &[&[Piece::Date]],
        Role::OfFamily(Family::Office) => &[&[Piece::District]],
        Role::OfFamily(Family::Contest) => &[
            &[Piece::Election],
            &[Piece::Party],
            &[Piece::District],
            &[Piece::District, Piece::Party],
            &[Piece::Election, Piece::Party],
            &[Piece::Election, Piece::District],
            &[Piece::Election, Piece::District, Piece::Party],
        ],
        Role::OfFamily(Family::Candidate) => &[
            &[Piece::Election],
            &[Piece::Contest],
            &[Piece::Party],
            &[Piece::Contest, Piece::Party],
            &[Piece::Contest, Piece::Name],
        ],
        Role::OfFamily(Family::Person) => &[&[Piece::Candidate]],
        Role::OfFamily(Family::Style) => &[
            &[Piece::Election],
            &[Piece::County],
            &[Piece::Party],
            &[Piece::County, Piece::Party],
            &[Piece::Election, Piece::County],
            &[Piece::Election, Piece::Party],
            &[Piece::Election, Piece::County, Piece::Party],
            &[Piece::Units],
        ],
        _ => &[],
    }
}
