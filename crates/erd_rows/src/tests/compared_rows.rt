//! Rows of the first difference between two reports.
use crate::tests::answers::SAME;
use crate::tests::edits::{BALLOT, Base, Edit, Edited, UNIT_REPORT, VENDOR_BALLOT};
use crate::tests::rows::{Row, Told, all_hold};
use crate::tests::vectors::THREE_SHAPE_FAULT_EDITS;
use Told::{Beside, Changed};
use std::alloc::Global;
use std::test::Fail;

const NO_TEXT: Edited = (Base::Text(""), &[]);

const WITH_ADDRESS: Edited = (
    Base::SmallBallot,
    &[(
        r#""Type":"county","#,
        r#""Type":"county","ContactInformation":{"AddressLine":["1 Main","Town"],"Name":"Desk"},"#,
    )],
);

const MEMBER_ORDER: &[Edit] = &[(
    r#""AddressLine":["1 Main","Town"],"Name":"Desk""#,
    r#""Name":"Desk","AddressLine":["1 Main","Town"]"#,
)];

const OTHER_KEY: &[Edit] = &[(r#""Value":"K3""#, r#""Value":"K4""#)];

const GOVERNOR: &str =
    r#"{"@type":"%OrderedContest","ContestId":"a8","OrderedContestSelectionIds":["a10","a9","a11"]}"#;

const STATE: &str = concat!(
    r#"{"@type":"%OrderedHeader","HeaderId":"a4","OrderedContent":[{"@type":"%OrderedContest","ContestId":"a8","#,
    r#""OrderedContestSelectionIds":["a10","a9","a11"]}]}"#,
);

const CONTENT_ORDER: &[Edit] = &[(
    concat!(
        r#"{"@type":"%OrderedHeader","HeaderId":"a4","OrderedContent":[{"@type":"%OrderedContest","ContestId":"a8","#,
        r#""OrderedContestSelectionIds":["a10","a9","a11"]}]},{"@type":"%OrderedContest","ContestId":"a12"}"#,
    ),
    concat!(
        r#"{"@type":"%OrderedContest","ContestId":"a12"},{"@type":"%OrderedHeader","HeaderId":"a4","#,
        r#""OrderedContent":[{"@type":"%OrderedContest","ContestId":"a8","OrderedContestSelectionIds":["a10","a9","a11"]}]}"#,
    ),
)];

const SELECTION_ORDER: &[Edit] = &[(r#"["a10","a9","a11"]"#, r#"["a9","a10","a11"]"#)];

const STYLE: &str = "style [\"local-level\",\"\",\"S1\"]: member \"OrderedContent\"\n";

const THREE_LINES: &str = concat!(
    "right: /Election/0/Contest/0: missing member Name\nright: /Election/0/Contest/0/VotesAllowed: wrong kind\n",
    "right: /GpUnit/1/ContactInformation/LatLng/Latitude: not a whole number\n",
);

const ROWS: &[Row] = &[
    ("two_vendors", BALLOT, Beside(VENDOR_BALLOT, SAME)),
    ("content_order", BALLOT, Changed(CONTENT_ORDER, STYLE)),
    (
        "nested_header",
        (Base::SmallBallot, &[(GOVERNOR, STATE)]),
        Changed(SELECTION_ORDER, STYLE),
    ),
    (
        "absent_or_false",
        BALLOT,
        Changed(
            &[(r#"["a7"]"#, r#"["a7"],"IsWriteIn":false"#)],
            "contest [\"local-level\",\"\",\"C1\"]: member \"ContestSelection\"\n",
        ),
    ),
    (
        "absent_or_false",
        BALLOT,
        Changed(
            &[(
                r#""GpUnitIds":["a2"]"#,
                r#""GpUnitIds":["a2"],"PartyIds":[]"#,
            )],
            SAME,
        ),
    ),
    (
        "other_candidate_key",
        BALLOT,
        Changed(
            OTHER_KEY,
            "candidate [\"local-level\",\"\",\"K3\"]: only left\n",
        ),
    ),
    (
        "other_candidate_key",
        (Base::SmallBallot, OTHER_KEY),
        Beside(
            BALLOT,
            "candidate [\"local-level\",\"\",\"K3\"]: only right\n",
        ),
    ),
    ("carried_members", WITH_ADDRESS, Changed(MEMBER_ORDER, SAME)),
    (
        "carried_members",
        WITH_ADDRESS,
        Changed(
            &[(r#""1 Main","Town""#, r#""Town","1 Main""#)],
            "unit [\"local-level\",\"\",\"U1\"]: member \"ContactInformation\"\n",
        ),
    ),
    (
        "report_election_and_class",
        BALLOT,
        Changed(
            &[("{", r#"{"IsTest":true,"#)],
            "report: member \"IsTest\"\n",
        ),
    ),
    (
        "report_election_and_class",
        BALLOT,
        Changed(
            &[(r#""Test""#, r#""Other""#)],
            "election: member \"Name\"\n",
        ),
    ),
    (
        "report_election_and_class",
        BALLOT,
        Changed(
            &[(r#""%Party""#, r#""%Coalition""#)],
            "party [\"local-level\",\"\",\"P1\"]: other class\n",
        ),
    ),
    ("not_json", NO_TEXT, Beside(UNIT_REPORT, "left: not JSON\n")),
    (
        "not_json",
        (Base::OneUnit, &[(r#""u7"}]}"#, r#""u7"}]"#)]),
        Beside(UNIT_REPORT, "left: not JSON\n"),
    ),
    (
        "right_is_not_json",
        UNIT_REPORT,
        Beside(NO_TEXT, "right: not JSON\n"),
    ),
    (
        "left_refused_first",
        (Base::OneUnit, &[("pre-election", "certified")]),
        Beside(NO_TEXT, "left: /Status: not pre-election\n"),
    ),
    (
        "quoted_key",
        UNIT_REPORT,
        Changed(
            &[(
                r#""GpUnit":["#,
                r#""GpUnit":[{"@id":"u8","@type":"%ReportingUnit","Type":"county",#a\"b&},"#,
            )],
            "unit [\"local-level\",\"\",\"a\\\"b\"]: only right\n",
        ),
    ),
    (
        "three_shape_faults",
        BALLOT,
        Changed(THREE_SHAPE_FAULT_EDITS, THREE_LINES),
    ),
];

// Tries each row of this name, or each row where there is no name.
pub fn hold(alloc: Global, name: Option<&str>) -> Result<(), Fail> {
    all_hold(alloc, None, ROWS, name)
}
