//! Rows of canonical forms.
use crate::tests::edits::{BALLOT, BALLOT_FORM, Base, UNIT_FORM, UNIT_REPORT, VENDOR_BALLOT};
use crate::tests::rows::{Row, Told, all_hold};
use crate::tests::vectors::{CANONICAL_UNIT, UNIT};
use Told::Form;
use std::alloc::Global;
use std::test::Fail;

// The units K to A, and their canonical forms A to K: the tenth `@id` comes after the second, although its text is less.
const ELEVEN_UNITS: &str = concat!(
    r#"{"@id":"u1","@type":"%ReportingUnit","Type":"county",#K&},{"@id":"u2","@type":"%ReportingUnit","Type":"county",#J&},{"@id":"u3","#,
    r#""@type":"%ReportingUnit","Type":"county",#I&},{"@id":"u4","@type":"%ReportingUnit","Type":"county",#H&},{"@id":"u5","#,
    r#""@type":"%ReportingUnit","Type":"county",#G&},{"@id":"u6","@type":"%ReportingUnit","Type":"county",#F&},{"@id":"u7","#,
    r#""@type":"%ReportingUnit","Type":"county",#E&},{"@id":"u8","@type":"%ReportingUnit","Type":"county",#D&},{"@id":"u9","#,
    r#""@type":"%ReportingUnit","Type":"county",#C&},{"@id":"u10","@type":"%ReportingUnit","Type":"county",#B&},{"@id":"u11","#,
    r#""@type":"%ReportingUnit","Type":"county",#A&}"#,
);

const ELEVEN_CANONICAL_UNITS: &str = concat!(
    r#"{"@id":"gp1","@type":"%ReportingUnit",#A&,"Type":"county"},{"@id":"gp2","@type":"%ReportingUnit",#B&,"Type":"county"},"#,
    r#"{"@id":"gp3","@type":"%ReportingUnit",#C&,"Type":"county"},{"@id":"gp4","@type":"%ReportingUnit",#D&,"Type":"county"},"#,
    r#"{"@id":"gp5","@type":"%ReportingUnit",#E&,"Type":"county"},{"@id":"gp6","@type":"%ReportingUnit",#F&,"Type":"county"},"#,
    r#"{"@id":"gp7","@type":"%ReportingUnit",#G&,"Type":"county"},{"@id":"gp8","@type":"%ReportingUnit",#H&,"Type":"county"},"#,
    r#"{"@id":"gp9","@type":"%ReportingUnit",#I&,"Type":"county"},{"@id":"gp10","@type":"%ReportingUnit",#J&,"Type":"county"},"#,
    r#"{"@id":"gp11","@type":"%ReportingUnit",#K&,"Type":"county"}"#,
);

const ROWS: &[Row] = &[
    ("one_unit", UNIT_REPORT, Form(UNIT_FORM)),
    ("two_vendors", BALLOT, Form(BALLOT_FORM)),
    ("two_vendors", VENDOR_BALLOT, Form(BALLOT_FORM)),
    (
        "envelope_and_member_order",
        (Base::OtherEnvelope, &[]),
        Form(BALLOT_FORM),
    ),
    (
        "reference_and_text_order",
        (
            Base::SmallBallot,
            &[
                (r#"["a6","a5"]"#, r#"["a5","a6"]"#),
                (
                    r#"{"@type":"%LanguageString","Language":"en","Content":"Yes"},{"@type":"%LanguageString","Language":"es","Content":"Si"}"#,
                    r#"{"@type":"%LanguageString","Language":"es","Content":"Si"},{"@type":"%LanguageString","Language":"en","Content":"Yes"}"#,
                ),
            ],
        ),
        Form(BALLOT_FORM),
    ),
    (
        "eleven_units",
        (
            Base::OneUnit,
            &[
                (UNIT, ELEVEN_UNITS),
                (
                    r#""ElectionScopeId":"u7""#,
                    r#""ElectionScopeId":"u11","BallotStyle":[{"@type":"%BallotStyle",#S1&,"GpUnitIds":["u2","u10"]}]"#,
                ),
            ],
        ),
        Form((
            Base::OneUnitCanonical,
            &[
                (CANONICAL_UNIT, ELEVEN_CANONICAL_UNITS),
                (
                    r#""ElectionScopeId""#,
                    r#""BallotStyle":[{"@type":"%BallotStyle",#S1&,"GpUnitIds":["gp2","gp10"]}],"ElectionScopeId""#,
                ),
            ],
        )),
    ),
    ("outside_members", BALLOT_FORM, Form(BALLOT_FORM)),
    (
        "outside_members",
        (
            Base::SmallBallot,
            &[(r#""@id":"a9","#, r#""@id":"a9","VoteCounts":[],"#)],
        ),
        Form(BALLOT_FORM),
    ),
    (
        "self_composing_unit",
        (
            Base::OneUnit,
            &[(
                r#""Type":"county","#,
                r#""Type":"county","ComposingGpUnitIds":["u7"],"#,
            )],
        ),
        Form((
            Base::OneUnitCanonical,
            &[("#U1&", r#""ComposingGpUnitIds":["gp1"],#U1&"#)],
        )),
    ),
    ("canonical_of_canonical", UNIT_FORM, Form(UNIT_FORM)),
    (
        "ids_that_look_canonical",
        (
            Base::OneUnit,
            &[
                (
                    UNIT,
                    r#"{"@id":"gp2","@type":"%ReportingUnit","Type":"county",#U1&},{"@id":"gp1","@type":"%ReportingUnit","Type":"county",#U2&}"#,
                ),
                (r#""ElectionScopeId":"u7""#, r#""ElectionScopeId":"gp2""#),
            ],
        ),
        Form((
            Base::OneUnitCanonical,
            &[(
                CANONICAL_UNIT,
                r#"{"@id":"gp1","@type":"%ReportingUnit",#U1&,"Type":"county"},{"@id":"gp2","@type":"%ReportingUnit",#U2&,"Type":"county"}"#,
            )],
        )),
    ),
    (
        "empty_id",
        (
            Base::OneUnit,
            &[
                (r#""@id":"u7""#, r#""@id":"""#),
                (r#""ElectionScopeId":"u7""#, r#""ElectionScopeId":"""#),
            ],
        ),
        Form(UNIT_FORM),
    ),
    (
        "carried_text_that_equals_an_id",
        (Base::OneUnit, &[("{", r#"{"Note":"u7","#)]),
        Form((
            Base::OneUnitCanonical,
            &[(r#""SequenceEnd""#, r#""Note":"u7","SequenceEnd""#)],
        )),
    ),
    (
        "carried_text_that_equals_an_id",
        (
            Base::OneUnit,
            &[
                ("{", r#"{"Note":"u7","#),
                (r#""@id":"u7""#, r#""@id":"k""#),
                (r#""ElectionScopeId":"u7""#, r#""ElectionScopeId":"k""#),
            ],
        ),
        Form((
            Base::OneUnitCanonical,
            &[(r#""SequenceEnd""#, r#""Note":"u7","SequenceEnd""#)],
        )),
    ),
    (
        "carried_lists",
        (
            Base::OneUnit,
            &[(
                r#""Type":"county","#,
                r#""Text":["b","a"],"Type":"county","#,
            )],
        ),
        Form((
            Base::OneUnitCanonical,
            &[(
                r#""Type":"county"}"#,
                r#""Text":["b","a"],"Type":"county"}"#,
            )],
        )),
    ),
];

// Tries each row of this name, or each row where there is no name.
pub fn hold(alloc: Global, name: Option<&str>) -> Result<(), Fail> {
    all_hold(alloc, None, ROWS, name)
}
