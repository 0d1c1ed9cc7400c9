//! Rows of reports with several elections.
use crate::tests::edits::{Base, Edited, UNIT_REPORT};
use crate::tests::rows::{Preferred, Told, all_hold_under};
use crate::tests::vectors::{ELECTION, LOCAL};
use Told::{Beside, Form, Lines};
use std::alloc::Global;
use std::test::Fail;

const CANONICAL_ELECTION: &str =
    r#"{"@type":"%Election","ElectionScopeId":"gp1","EndDate":"2026-11-03","Name":"Test","StartDate":"2026-11-03","Type":"general"}"#;

const TEST_AND_OTHER: &str = concat!(
    r#"{"@type":"%Election","Name":"Test","Type":"general","StartDate":"2026-11-03","EndDate":"2026-11-03","#,
    r#""ElectionScopeId":"u7",#E2&},{"@type":"%Election","Name":"Other","Type":"general","StartDate":"2026-11-03","#,
    r#""EndDate":"2026-11-03","ElectionScopeId":"u7",#E1&}"#,
);

const OTHER_AND_TEST: &str = concat!(
    r#"{"@type":"%Election","Name":"Other","Type":"general","StartDate":"2026-11-03","EndDate":"2026-11-03","#,
    r#""ElectionScopeId":"u7",#E1&},{"@type":"%Election","Name":"Test","Type":"general","StartDate":"2026-11-03","#,
    r#""EndDate":"2026-11-03","ElectionScopeId":"u7",#E2&}"#,
);

const CANONICAL_OTHER_AND_TEST: &str = concat!(
    r#"{"@type":"%Election","ElectionScopeId":"gp1","EndDate":"2026-11-03",#E1&,"Name":"Other","StartDate":"2026-11-03","#,
    r#""Type":"general"},{"@type":"%Election","ElectionScopeId":"gp1","EndDate":"2026-11-03",#E2&,"Name":"Test","#,
    r#""StartDate":"2026-11-03","Type":"general"}"#,
);

// A contest in the first election, and two in the second.
const CONTESTS: &str = concat!(
    r#"{"@type":"%Election","Name":"Test","Type":"general","StartDate":"2026-11-03","EndDate":"2026-11-03","ElectionScopeId":"u7",#E2&,"#,
    r#""Contest":[{"@id":"c2","@type":"%PartyContest",#C2&,"Name":"N","ElectionDistrictId":"u7"}]},{"@type":"%Election","Name":"Other","#,
    r#""Type":"general","StartDate":"2026-11-03","EndDate":"2026-11-03","ElectionScopeId":"u7",#E1&,"Contest":[{"@id":"c3","#,
    r#""@type":"%PartyContest",#C3&,"Name":"N","ElectionDistrictId":"u7"},{"@id":"c1","@type":"%PartyContest",#C1&,"Name":"N","#,
    r#""ElectionDistrictId":"u7"}]}"#,
);

// The same contests, all in the second election.
const MOVED_CONTEST: &str = concat!(
    r#"{"@type":"%Election","Name":"Test","Type":"general","StartDate":"2026-11-03","EndDate":"2026-11-03","#,
    r#""ElectionScopeId":"u7",#E2&},{"@type":"%Election","Name":"Other","Type":"general","StartDate":"2026-11-03","#,
    r#""EndDate":"2026-11-03","ElectionScopeId":"u7",#E1&,"Contest":[{"@id":"c3","@type":"%PartyContest",#C3&,"Name":"N","#,
    r#""ElectionDistrictId":"u7"},{"@id":"c1","@type":"%PartyContest",#C1&,"Name":"N","ElectionDistrictId":"u7"},{"@id":"c2","#,
    r#""@type":"%PartyContest",#C2&,"Name":"N","ElectionDistrictId":"u7"}]}"#,
);

const CANONICAL_CONTESTS: &str = concat!(
    r#"{"@type":"%Election","Contest":[{"@id":"co1","@type":"%PartyContest","ElectionDistrictId":"gp1",#C1&,"Name":"N"},{"@id":"co3","#,
    r#""@type":"%PartyContest","ElectionDistrictId":"gp1",#C3&,"Name":"N"}],"ElectionScopeId":"gp1","EndDate":"2026-11-03",#E1&,"#,
    r#""Name":"Other","StartDate":"2026-11-03","Type":"general"},{"@type":"%Election","Contest":[{"@id":"co2","@type":"%PartyContest","#,
    r#""ElectionDistrictId":"gp1",#C2&,"Name":"N"}],"ElectionScopeId":"gp1","EndDate":"2026-11-03",#E2&,"Name":"Test","#,
    r#""StartDate":"2026-11-03","Type":"general"}"#,
);

// Each election with identifiers of two types.
const TWO_TYPES: &str = concat!(
    r#"{"@type":"%Election","Name":"Test","Type":"general","StartDate":"2026-11-03","EndDate":"2026-11-03","ElectionScopeId":"u7","#,
    r#""ExternalIdentifier":[{"@type":"%ExternalIdentifier","Type":"local-level","Value":"E2"},{"@type":"%ExternalIdentifier","#,
    r#""Type":"fips","Value":"1"}]},{"@type":"%Election","Name":"Other","Type":"general","StartDate":"2026-11-03","#,
    r#""EndDate":"2026-11-03","ElectionScopeId":"u7","ExternalIdentifier":[{"@type":"%ExternalIdentifier","Type":"local-level","#,
    r#""Value":"E1"},{"@type":"%ExternalIdentifier","Type":"fips","Value":"2"}]}"#,
);

const BY_FIPS: &str = concat!(
    r#"{"@type":"%Election","ElectionScopeId":"gp1","EndDate":"2026-11-03","ExternalIdentifier":[{"@type":"%ExternalIdentifier","#,
    r#""Type":"fips","Value":"1"},{"@type":"%ExternalIdentifier","Type":"local-level","Value":"E2"}],"Name":"Test","#,
    r#""StartDate":"2026-11-03","Type":"general"},{"@type":"%Election","ElectionScopeId":"gp1","EndDate":"2026-11-03","#,
    r#""ExternalIdentifier":[{"@type":"%ExternalIdentifier","Type":"fips","Value":"2"},{"@type":"%ExternalIdentifier","#,
    r#""Type":"local-level","Value":"E1"}],"Name":"Other","StartDate":"2026-11-03","Type":"general"}"#,
);

const BY_LOCAL_LEVEL: &str = concat!(
    r#"{"@type":"%Election","ElectionScopeId":"gp1","EndDate":"2026-11-03","ExternalIdentifier":[{"@type":"%ExternalIdentifier","#,
    r#""Type":"fips","Value":"2"},{"@type":"%ExternalIdentifier","Type":"local-level","Value":"E1"}],"Name":"Other","#,
    r#""StartDate":"2026-11-03","Type":"general"},{"@type":"%Election","ElectionScopeId":"gp1","EndDate":"2026-11-03","#,
    r#""ExternalIdentifier":[{"@type":"%ExternalIdentifier","Type":"fips","Value":"1"},{"@type":"%ExternalIdentifier","#,
    r#""Type":"local-level","Value":"E2"}],"Name":"Test","StartDate":"2026-11-03","Type":"general"}"#,
);

const TEST_FIRST: Edited = (Base::OneUnit, &[(ELECTION, TEST_AND_OTHER)]);

const OTHER_FIRST: Edited = (Base::OneUnit, &[(ELECTION, OTHER_AND_TEST)]);

const FORM_OF_BOTH: Edited = (
    Base::OneUnitCanonical,
    &[(CANONICAL_ELECTION, CANONICAL_OTHER_AND_TEST)],
);

pub const WITH_CONTESTS: Edited = (Base::OneUnit, &[(ELECTION, CONTESTS)]);

const OF_TWO_TYPES: Edited = (Base::OneUnit, &[(ELECTION, TWO_TYPES)]);

const ROWS: &[Preferred] = &[
    (
        None,
        &[
            ("two_elections", TEST_FIRST, Form(FORM_OF_BOTH)),
            ("two_elections", OTHER_FIRST, Form(FORM_OF_BOTH)),
            (
                "contests_of_two_elections",
                WITH_CONTESTS,
                Form((
                    Base::OneUnitCanonical,
                    &[(CANONICAL_ELECTION, CANONICAL_CONTESTS)],
                )),
            ),
            (
                "contest_moved_to_another_election",
                WITH_CONTESTS,
                Beside(
                    (Base::OneUnit, &[(ELECTION, MOVED_CONTEST)]),
                    "contest [\"local-level\",\"\",\"C2\"]: member \"ElectionId\"\n",
                ),
            ),
            (
                "keys_of_elections",
                (
                    Base::OneUnit,
                    &[(
                        ELECTION,
                        concat!(
                            r#"{"@type":"%Election","Name":"Test","Type":"general","StartDate":"2026-11-03","EndDate":"2026-11-03","#,
                            r#""ElectionScopeId":"u7"},{"@type":"%Election","Name":"Test","Type":"general","StartDate":"2026-11-03","#,
                            r#""EndDate":"2026-11-03","ElectionScopeId":"u7"}"#,
                        ),
                    )],
                ),
                Lines("/Election/0: no external identifier\n/Election/1: no external identifier\n"),
            ),
            (
                "keys_of_elections",
                (
                    Base::OneUnit,
                    &[
                        (ELECTION, TEST_AND_OTHER),
                        (r#""Value":"E2""#, r#""Value":"E1""#),
                    ],
                ),
                Lines("/Election/1: identifier used twice\n"),
            ),
            (
                "keys_of_sole_elections",
                (
                    Base::OneUnit,
                    &[(
                        ELECTION,
                        r#"{"@type":"%Election","Name":"Test","Type":"general","StartDate":"2026-11-03","EndDate":"2026-11-03","ElectionScopeId":"u7",#E1&}"#,
                    )],
                ),
                Beside(UNIT_REPORT, "election: only right\n"),
            ),
            (
                "preferred_order_of_elections",
                OF_TWO_TYPES,
                Form((Base::OneUnitCanonical, &[(CANONICAL_ELECTION, BY_FIPS)])),
            ),
        ],
    ),
    (
        LOCAL,
        &[(
            "preferred_order_of_elections",
            OF_TWO_TYPES,
            Form((
                Base::OneUnitCanonical,
                &[(CANONICAL_ELECTION, BY_LOCAL_LEVEL)],
            )),
        )],
    ),
];

// Tries each row of this name, or each row where there is no name.
pub fn hold(alloc: Global, name: Option<&str>) -> Result<(), Fail> {
    all_hold_under(alloc, ROWS, name)
}
