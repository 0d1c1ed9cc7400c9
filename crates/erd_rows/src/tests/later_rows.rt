//! Rows of the later phases: faults of identity, of references and of the names of selections.
use crate::tests::answers::ACCEPTED;
use crate::tests::edits::Base;
use crate::tests::rows::{Row, Told, all_hold};
use crate::tests::vectors::UNIT;
use Told::Lines;
use std::alloc::Global;
use std::test::Fail;

const WRITE_IN: &str = r#"{"@id":"a11","@type":"%CandidateSelection","IsWriteIn":true}"#;

const SELECTION_IDS: &str = r#"["a10","a9","a11"]"#;

const ROWS: &[Row] = &[
    (
        "twin_unit_key",
        (
            Base::OneUnit,
            &[(
                UNIT,
                r#"{"@id":"u7","@type":"%ReportingUnit","Type":"county",#U1&},{"@id":"u8","@type":"%ReportingUnit","Type":"county",#U1&}"#,
            )],
        ),
        Lines("/GpUnit/1: identifier used twice\n"),
    ),
    (
        "twin_unit_key",
        (
            Base::OneUnit,
            &[(
                r#"{"#,
                r#"{"Party":[{"@id":"p","@type":"%Party","Name":"B",#U1&}],"#,
            )],
        ),
        Lines(ACCEPTED),
    ),
    (
        "other_type",
        (
            Base::OneUnit,
            &[(
                UNIT,
                concat!(
                    r#"{"@id":"u7","@type":"%ReportingUnit","Type":"county","ExternalIdentifier":[{"@type":"%ExternalIdentifier","#,
                    r#""Type":"other","Value":"X"}]},{"@id":"u8","@type":"%ReportingUnit","Type":"county","#,
                    r#""ExternalIdentifier":[{"@type":"%ExternalIdentifier","OtherType":"","Type":"other","Value":"X"}]}"#,
                ),
            )],
        ),
        Lines("/GpUnit/1: identifier used twice\n"),
    ),
    (
        "other_type",
        (
            Base::OneUnit,
            &[(
                r#"#U1&"#,
                concat!(
                    r#""ExternalIdentifier":[{"@type":"%ExternalIdentifier","Type":"other","Value":"X"},{"@type":"%ExternalIdentifier","#,
                    r#""OtherType":"","Type":"other","Value":"X"}]"#,
                ),
            )],
        ),
        Lines(ACCEPTED),
    ),
    (
        "no_identifier_and_double_id",
        (Base::OneUnit, &[(r#"#U1&"#, r#""ExternalIdentifier":[]"#)]),
        Lines("/GpUnit/0: no external identifier\n"),
    ),
    (
        "no_identifier_and_double_id",
        (
            Base::OneUnit,
            &[(
                r#"{"#,
                r#"{"Party":[{"@id":"u7","@type":"%Party","Name":"B",#P1&}],"#,
            )],
        ),
        Lines("/Party/0/@id: @id used twice\n"),
    ),
    (
        "wrong_and_unresolved_reference",
        (
            Base::SmallBallot,
            &[
                (r#""PersonId":"a16""#, r#""PersonId":"a16","PartyId":"a16""#),
                (
                    r#""BallotName":"Bo""#,
                    r#""BallotName":"Bo","PartyId":"x9""#,
                ),
            ],
        ),
        Lines(
            "/Election/0/Candidate/1/PartyId: reference to another family\n/Election/0/Candidate/2/PartyId: unresolved reference\n",
        ),
    ),
    (
        "authority_ids",
        (
            Base::OneUnit,
            &[(r#""@id":"u7","#, r#""@id":"u7","AuthorityIds":["u7","x"],"#)],
        ),
        Lines(
            "/GpUnit/0/AuthorityIds/0: reference to another family\n/GpUnit/0/AuthorityIds/1: unresolved reference\n",
        ),
    ),
    (
        "mutual_composition",
        (
            Base::OneUnit,
            &[(
                UNIT,
                concat!(
                    r#"{"@id":"u7","@type":"%ReportingUnit","Type":"county",#U1&,"ComposingGpUnitIds":["u8"]},{"@id":"u8","#,
                    r#""@type":"%ReportingUnit","Type":"county",#U2&,"ComposingGpUnitIds":["u7"]}"#,
                ),
            )],
        ),
        Lines(ACCEPTED),
    ),
    (
        "unknown_contest_alone",
        (
            Base::SmallBallot,
            &[(r#""ContestId":"a8""#, r#""ContestId":"x9""#)],
        ),
        Lines(
            "/Election/0/BallotStyle/0/OrderedContent/0/OrderedContent/0/ContestId: unresolved reference\n",
        ),
    ),
    (
        "candidate_among_selections",
        (Base::SmallBallot, &[(SELECTION_IDS, r#"["a5"]"#)]),
        Lines(
            "/Election/0/BallotStyle/0/OrderedContent/0/OrderedContent/0/OrderedContestSelectionIds/0: reference to another family\n",
        ),
    ),
    (
        "repeated_and_empty_selection_ids",
        (Base::SmallBallot, &[(SELECTION_IDS, r#"["a9","a9"]"#)]),
        Lines(ACCEPTED),
    ),
    (
        "repeated_and_empty_selection_ids",
        (Base::SmallBallot, &[(SELECTION_IDS, r#"[]"#)]),
        Lines(ACCEPTED),
    ),
    (
        "selection_of_other_contest",
        (
            Base::SmallBallot,
            &[(SELECTION_IDS, r#"["a13","a9","a11"]"#)],
        ),
        Lines(
            "/Election/0/BallotStyle/0/OrderedContent/0/OrderedContent/0/OrderedContestSelectionIds/0: selection of another contest\n",
        ),
    ),
    (
        "write_in_lines",
        (
            Base::SmallBallot,
            &[(
                WRITE_IN,
                r#"{"@id":"a11","@type":"%CandidateSelection","IsWriteIn":true},{"@id":"a15","@type":"%CandidateSelection","IsWriteIn":true}"#,
            )],
        ),
        Lines("/Election/0/Contest/0/ContestSelection/3: selection name used twice\n"),
    ),
    (
        "write_in_lines",
        (
            Base::SmallBallot,
            &[(
                WRITE_IN,
                concat!(
                    r#"{"@id":"a11","@type":"%CandidateSelection","IsWriteIn":true,"SequenceOrder":1},{"@id":"a15","#,
                    r#""@type":"%CandidateSelection","IsWriteIn":true,"SequenceOrder":2}"#,
                ),
            )],
        ),
        Lines(ACCEPTED),
    ),
    (
        "write_in_lines",
        (
            Base::SmallBallot,
            &[(
                WRITE_IN,
                r#"{"@id":"a11","@type":"%CandidateSelection","IsWriteIn":true,#W1&},{"@id":"a15","@type":"%CandidateSelection","IsWriteIn":true,#W2&}"#,
            )],
        ),
        Lines(ACCEPTED),
    ),
];

// Tries each row of this name, or each row where there is no name.
pub fn hold(alloc: Global, name: Option<&str>) -> Result<(), Fail> {
    all_hold(alloc, None, ROWS, name)
}
