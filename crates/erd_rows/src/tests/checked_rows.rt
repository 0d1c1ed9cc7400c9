//! Rows of the first phase: faults of the shape, and what is no JSON.
use crate::tests::answers::{ACCEPTED, NOT_JSON};
use crate::tests::edits::{Base, Edited};
use crate::tests::rows::{Row, Told, all_hold};
use crate::tests::vectors::{ELECTION, THREE_SHAPE_FAULT_EDITS, THREE_SHAPE_FAULT_LINES};
use Told::Lines;
use std::alloc::Global;
use std::test::Fail;

// The greatest number and the least, and those next to them.
const GREATEST: Edited = (Base::OneUnit, &[("{", r#"{"Big":18446744073709551615,"#)]);

const TOO_GREAT: Edited = (Base::OneUnit, &[("{", r#"{"Big":18446744073709551616,"#)]);

const LEAST: Edited = (Base::OneUnit, &[("{", r#"{"Big":-9223372036854775808,"#)]);

const TOO_LITTLE: Edited = (Base::OneUnit, &[("{", r#"{"Big":-9223372036854775809,"#)]);

const NOT_WHOLE: Told = Lines("/Big: not a whole number\n");

const ROWS: &[Row] = &[
    ("not_json", (Base::Text(""), &[]), Lines(NOT_JSON)),
    (
        "not_json",
        (Base::OneUnit, &[(r#""u7"}]}"#, r#""u7"}]"#)]),
        Lines(NOT_JSON),
    ),
    (
        "more_than_a_report",
        (Base::OneUnit, &[(r#""u7"}]}"#, r#""u7"}]}}"#)]),
        Lines(NOT_JSON),
    ),
    (
        "more_than_a_report",
        (Base::OneUnit, &[(r#"{"@type""#, "\u{feff}{\"@type\"")]),
        Lines(NOT_JSON),
    ),
    (
        "more_than_a_report",
        (Base::OneUnit, &[(r#""u7"}]}"#, "\"u7\"}]}\n")]),
        Lines(ACCEPTED),
    ),
    (
        "three_shape_faults",
        (Base::SmallBallot, THREE_SHAPE_FAULT_EDITS),
        Lines(THREE_SHAPE_FAULT_LINES),
    ),
    (
        "outside_members",
        (
            Base::SmallBallot,
            &[(r#""@id":"a9","#, r#""@id":"a9","VoteCounts":[{}],"#)],
        ),
        Lines("/Election/0/Contest/0/ContestSelection/0/VoteCounts: outside the profile\n"),
    ),
    (
        "outside_members",
        (Base::OneUnit, &[("{", r#"{"a/b~c":1.5,"#)]),
        Lines("/a~1b~0c: not a whole number\n"),
    ),
    (
        "root_kinds",
        (Base::Text("[]"), &[]),
        Lines(": wrong kind\n"),
    ),
    (
        "root_kinds",
        (Base::Text("{}"), &[]),
        Lines(": missing member @type\n"),
    ),
    (
        "root_kinds",
        (Base::Text(r#"{"@type":"%ElectionReport"}"#), &[]),
        Lines(": missing member Election\n: missing member Status\n"),
    ),
    (
        "reporting_device",
        (Base::OneUnit, &[("%ReportingUnit", "%ReportingDevice")]),
        Lines("/GpUnit/0/@type: wrong class\n"),
    ),
    (
        "status_and_election_count",
        (Base::OneUnit, &[("pre-election", "certified")]),
        Lines("/Status: not pre-election\n"),
    ),
    (
        "status_and_election_count",
        (Base::OneUnit, &[(ELECTION, "")]),
        Lines("/Election: wrong number of elections\n"),
    ),
    (
        "empty_and_repeated",
        (
            Base::SmallBallot,
            &[(r#""GpUnitIds":["a2"]"#, r#""GpUnitIds":[]"#)],
        ),
        Lines("/Election/0/BallotStyle/0/GpUnitIds: empty array\n"),
    ),
    (
        "empty_and_repeated",
        (
            Base::SmallBallot,
            &[(r#""GpUnitIds":["a2"]"#, r#""GpUnitIds":["a2","a2"]"#)],
        ),
        Lines("/Election/0/BallotStyle/0/GpUnitIds/1: repeated\n"),
    ),
    (
        "empty_and_repeated",
        (
            Base::OneUnit,
            &[(
                "#U1&",
                concat!(
                    r#""ExternalIdentifier":[{"@type":"%ExternalIdentifier","Type":"local-level","Value":"U1"},"#,
                    r#"{"@type":"%ExternalIdentifier","Type":"local-level","Value":"U1"}]"#,
                ),
            )],
        ),
        Lines("/GpUnit/0/ExternalIdentifier/1: repeated\n"),
    ),
    (
        "identity_where_none_belongs",
        (Base::OneUnit, &[("{", r#"{"FooId":"u7","#)]),
        Lines("/FooId: unknown reference\n"),
    ),
    (
        "identity_where_none_belongs",
        (
            Base::OneUnit,
            &[(
                r#""@id":"u7","#,
                r#""@id":"u7","ContactInformation":{"OwnerIds":["u7"]},"#,
            )],
        ),
        Lines("/GpUnit/0/ContactInformation/OwnerIds: carried identity\n"),
    ),
    (
        "identity_where_none_belongs",
        (
            Base::OneUnit,
            &[(
                r#"{"@type":"%Election","#,
                r#"{"@id":"e","@type":"%Election","#,
            )],
        ),
        Lines("/Election/0/@id: carried identity\n"),
    ),
    (
        "carried_identity",
        (
            Base::OneUnit,
            &[(
                r#""@id":"u7","#,
                r#""@id":"u7","ContactInformation":{"a":[{"@id":"x"}]},"#,
            )],
        ),
        Lines("/GpUnit/0/ContactInformation/a/0/@id: carried identity\n"),
    ),
    (
        "required_members",
        (Base::OneUnit, &[(r#","Value":"U1""#, "")]),
        Lines("/GpUnit/0/ExternalIdentifier/0: missing member Value\n"),
    ),
    (
        "required_members",
        (
            Base::OneUnit,
            &[(
                r#""Name":"Test""#,
                r#""Name":{"@type":"%InternationalizedText","Text":[]}"#,
            )],
        ),
        Lines("/Election/0/Name/Text: empty array\n"),
    ),
    (
        "whole_numbers",
        (
            Base::SmallBallot,
            &[(r#""VotesAllowed":1"#, r#""VotesAllowed":1.5"#)],
        ),
        Lines("/Election/0/Contest/0/VotesAllowed: not a whole number\n"),
    ),
    ("largest_numbers", GREATEST, Lines(ACCEPTED)),
    ("largest_numbers", TOO_GREAT, NOT_WHOLE),
    ("largest_numbers", LEAST, Lines(ACCEPTED)),
    ("largest_numbers", TOO_LITTLE, NOT_WHOLE),
    (
        "deepest_nesting",
        (
            Base::OneUnit,
            &[(
                "{",
                concat!(
                    "{\"Depth\":[[[[[[[[[[[[[[[[[[[[[[[[[[[[[[[[[[[[[[[[[[[[[[[[[[[[[[[[[[[[[[[[[[[[[[[[[[[[[[[[[[[[[[[[[[[[[[[[[[[[[[[[[",
                    "[[[[[[[[[[[[[[[[[[[[[]]]]]]]]]]]]]]]]]]]]]]]]]]]]]]]]]]]]]]]]]]]]]]]]]]]]]]]]]]]]]]]]]]]]]]]]]]]]]]]]]]]]]]]]]]]]]]]",
                    "]]]]]]]]]]]]]]]]]]]]]]]]]]]]]]],",
                ),
            )],
        ),
        Lines(ACCEPTED),
    ),
    (
        "deepest_nesting",
        (
            Base::OneUnit,
            &[(
                "{",
                concat!(
                    "{\"Depth\":[[[[[[[[[[[[[[[[[[[[[[[[[[[[[[[[[[[[[[[[[[[[[[[[[[[[[[[[[[[[[[[[[[[[[[[[[[[[[[[[[[[[[[[[[[[[[[[[[[[[[[[[[",
                    "[[[[[[[[[[[[[[[[[[[[[[]]]]]]]]]]]]]]]]]]]]]]]]]]]]]]]]]]]]]]]]]]]]]]]]]]]]]]]]]]]]]]]]]]]]]]]]]]]]]]]]]]]]]]]]]]]]]]",
                    "]]]]]]]]]]]]]]]]]]]]]]]]]]]]]]]]],",
                ),
            )],
        ),
        Lines(NOT_JSON),
    ),
];

// Tries each row of this name, or each row where there is no name.
pub fn hold(alloc: Global, name: Option<&str>) -> Result<(), Fail> {
    all_hold(alloc, None, ROWS, name)
}
