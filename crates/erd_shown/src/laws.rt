ghost use Rattle.erd_shown.specs.BallotLaws.{BallotsTell, LinesTell, MeaningsTell, SameBallotsTell, StylesTell};
ghost use Rattle.erd_shown.specs.Laws.{MembersTell, ObjectsTell};

/// The law that the members with one name, of two objects of one class, are written alike if and only if they mean the same. The
/// objects may stand in two accepted reports, each under its own preference. The function does nothing.
pub fn members_tell()
    ensures law { MembersTell }
{}

/// The law that two objects with one role are written alike if and only if they mean the same. The objects may stand in two
/// accepted reports, each under its own preference. The function does nothing.
pub fn objects_tell()
    ensures law { ObjectsTell }
{}

/// The law that the lines of two ballots are equal if no row of them tells a difference: all are of lines of both ballots, and
/// these are equal. The function does nothing.
pub fn ballots_tell()
    ensures law { BallotsTell }
{}

/// The law that the ballots of two styles with one key are one if no line says that they differ: the same voters get them, they
/// have the same lines, and all words are the same. So a style whose ballots are not the same has a line below it. The function
/// does nothing.
pub fn lines_tell()
    ensures law { LinesTell }
{}

/// The law that [`differing_ballots`](crate::ballot_differences::differing_ballots) returns exactly the styles that one report
/// alone has, and those of both whose ballots are not the same. So reports without such a style have the same ballots, and a
/// style whose ballots alone were changed is told alone. The function does nothing.
pub fn styles_tell()
    ensures law { StylesTell }
{}

/// The law that two ballots of styles pass the test by which styles are told if and only if they are one, as [`lines_tell`] says.
/// The function does nothing.
pub fn same_ballots_tell()
    ensures law { SameBallotsTell }
{}

/// The law that equal meanings give equal ballots. In two accepted reports that mean the same, each under its own preference, two
/// styles with one key have one ballot, which is told with one election, and
/// [`differing_ballots`](crate::ballot_differences::differing_ballots) returns no style. The function does nothing.
pub fn meanings_tell()
    ensures law { MeaningsTell }
{}
