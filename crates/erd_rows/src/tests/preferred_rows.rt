//! Rows under a preferred type of identifier.
use crate::tests::answers::{ACCEPTED, SAME};
use crate::tests::edits::{
    BALLOT, BALLOT_FORM, Base, Edit, Edited, UNIT_FORM, UNIT_REPORT, VENDOR_BALLOT,
};
use crate::tests::rows::{Preferred, Told, all_hold_under};
use crate::tests::vectors::{CANONICAL_UNIT, LOCAL, UNIT};
use Told::{Beside, Changed, Form, Lines};
use std::alloc::Global;
use std::test::Fail;

// Two units with two identifiers each. The second has the lesser one of the type `fips`.
pub const TWO_UNITS: &str = concat!(
    r#"{"@id":"u7","@type":"%ReportingUnit","Type":"county","ExternalIdentifier":[{"@type":"%ExternalIdentifier","Type":"local-level","#,
    r#""Value":"U1"},{"@type":"%ExternalIdentifier","Type":"fips","Value":"20"}]},{"@id":"u8","@type":"%ReportingUnit","Type":"county","#,
    r#""ExternalIdentifier":[{"@type":"%ExternalIdentifier","Type":"local-level","Value":"U2"},{"@type":"%ExternalIdentifier","#,
    r#""Type":"fips","Value":"10"}]}"#,
);

const BY_FIPS: &[Edit] = &[
    (r#""ElectionScopeId":"gp1""#, r#""ElectionScopeId":"gp2""#),
    (
        CANONICAL_UNIT,
        concat!(
            r#"{"@id":"gp1","@type":"%ReportingUnit","ExternalIdentifier":[{"@type":"%ExternalIdentifier","Type":"fips","Value":"10"},"#,
            r#"{"@type":"%ExternalIdentifier","Type":"local-level","Value":"U2"}],"Type":"county"},{"@id":"gp2","@type":"%ReportingUnit","#,
            r#""ExternalIdentifier":[{"@type":"%ExternalIdentifier","Type":"fips","Value":"20"},{"@type":"%ExternalIdentifier","#,
            r#""Type":"local-level","Value":"U1"}],"Type":"county"}"#,
        ),
    ),
];

const BY_LOCAL_LEVEL: &[Edit] = &[(
    CANONICAL_UNIT,
    concat!(
        r#"{"@id":"gp1","@type":"%ReportingUnit","ExternalIdentifier":[{"@type":"%ExternalIdentifier","Type":"fips","Value":"20"},"#,
        r#"{"@type":"%ExternalIdentifier","Type":"local-level","Value":"U1"}],"Type":"county"},{"@id":"gp2","@type":"%ReportingUnit","#,
        r#""ExternalIdentifier":[{"@type":"%ExternalIdentifier","Type":"fips","Value":"10"},{"@type":"%ExternalIdentifier","#,
        r#""Type":"local-level","Value":"U2"}],"Type":"county"}"#,
    ),
)];

// The report with these units, and with one identifier changed.
const BOTH: Edited = (Base::OneUnit, &[(UNIT, TWO_UNITS)]);

const ONE_LOCAL_LEVEL: Edited = (
    Base::OneUnit,
    &[(UNIT, TWO_UNITS), (r#""Value":"U2""#, r#""Value":"U1""#)],
);

const ONE_FIPS: Edited = (
    Base::OneUnit,
    &[(UNIT, TWO_UNITS), (r#""Value":"10""#, r#""Value":"20""#)],
);

const FIRST_IS_A_STATE: &[Edit] = &[(r#""Type":"county""#, r#""Type":"state""#)];

const USED_TWICE: Told = Lines("/GpUnit/1: identifier used twice\n");

const ROWS: &[Preferred] = &[
    (
        None,
        &[
            ("two_units", BOTH, Form((Base::OneUnitCanonical, BY_FIPS))),
            (
                "two_units",
                BOTH,
                Changed(
                    FIRST_IS_A_STATE,
                    "unit [\"fips\",\"\",\"20\"]: member \"Type\"\n",
                ),
            ),
            ("one_local_level", ONE_LOCAL_LEVEL, Lines(ACCEPTED)),
            ("one_fips", ONE_FIPS, USED_TWICE),
        ],
    ),
    (
        Some("nosuch"),
        &[("two_units", BOTH, Form((Base::OneUnitCanonical, BY_FIPS)))],
    ),
    (
        LOCAL,
        &[
            (
                "two_units",
                BOTH,
                Form((Base::OneUnitCanonical, BY_LOCAL_LEVEL)),
            ),
            (
                "two_units",
                BOTH,
                Changed(
                    FIRST_IS_A_STATE,
                    "unit [\"local-level\",\"\",\"U1\"]: member \"Type\"\n",
                ),
            ),
            ("one_local_level", ONE_LOCAL_LEVEL, USED_TWICE),
            ("one_fips", ONE_FIPS, Lines(ACCEPTED)),
        ],
    ),
    (
        Some("fips"),
        &[
            ("two_units", BOTH, Lines(ACCEPTED)),
            ("two_units", BOTH, Beside(BOTH, SAME)),
        ],
    ),
    // The empty preference is a preference. It changes no byte of a report whose identifiers have one type.
    (
        Some(""),
        &[
            ("reports_of_one_type", UNIT_REPORT, Form(UNIT_FORM)),
            ("reports_of_one_type", BALLOT, Form(BALLOT_FORM)),
            ("reports_of_one_type", VENDOR_BALLOT, Form(BALLOT_FORM)),
            ("reports_of_one_type", BALLOT, Beside(VENDOR_BALLOT, SAME)),
        ],
    ),
];

// Tries each row of this name, or each row where there is no name.
pub fn hold(alloc: Global, name: Option<&str>) -> Result<(), Fail> {
    all_hold_under(alloc, ROWS, name)
}
