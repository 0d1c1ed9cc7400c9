//! Keys: which identifier of an object is its key.
use crate::tests::answers::{Answer, right_if};
use crate::tests::edits::{Base, edited, made, spelled};
use crate::tests::preferred_rows::TWO_UNITS;
use crate::tests::report_calls::{Checked, on_report};
use crate::tests::rows::taking;
use crate::tests::vectors::{LOCAL, ONE_UNIT, UNIT};
use crate::tests::worked::ORDERS;
use erd_meaning::{Key, Report};
use erd_tables::{Family, Text};
use std::alloc::{AllocError, Global};
use std::process::Abort;
use std::test::Fail;

// The `Type`, `OtherType` (empty if absent) and `Value` of an identifier that is written with `/` between them.
pub fn texts_of(identifier: &str) -> (&str, &str, &str) {
    let (kind, rest) = identifier.split_once('/').unwrap_or((identifier, ""));
    let (other, value) = rest.split_once('/').unwrap_or((rest, ""));
    (kind, other, value)
}

// A key, and the preferences under which a unit has it.
type Preferred = (&'static str, &'static [Option<&'static str>]);

// Identifiers of one unit, and its keys. The order of the identifiers has no meaning.
type Keyed = (&'static [&'static str], &'static [Preferred]);

const KEYS: &[Keyed] = &[
    // The least identifier.
    (
        &["local-level//U1", "fips//20"],
        &[
            ("fips//20", &[None, Some("nosuch"), Some("fips")]),
            ("local-level//U1", &[Some("local-level")]),
        ],
    ),
    // An absent `OtherType` and an empty one give one key.
    (&["other//X", "other/EMPTY/X"], &[("other//X", &[None])]),
    // By `Type`, then by `OtherType`, then by `Value`, each by its bytes.
    (&["fips//20", "local-level//1"], &[("fips//20", &[None])]),
    (&["other/a/2", "other/b/1"], &[("other/a/2", &[None])]),
    (&["t//U10", "t//U9"], &[("t//U10", &[None])]),
    (&["t//U", "t//U1"], &[("t//U", &[None])]),
    (
        &["t//\\uffff", "t//\\ud800\\udc00"],
        &[("t//\u{ffff}", &[None])],
    ),
    // The least identifier of the preferred type, by all three texts.
    (
        &["local-level//U9", "fips//5", "local-level//U10"],
        &[
            ("fips//5", &[None, Some("fips"), Some("nosuch")]),
            ("local-level//U10", &[Some("local-level")]),
        ],
    ),
    (
        &["local-level/a/1", "fips/z/5", "local-level//2"],
        &[
            ("fips/z/5", &[None]),
            ("local-level//2", &[Some("local-level")]),
        ],
    ),
    // `OtherType` helps to decide which preferred identifier is the least, but not which ones are preferred.
    (
        &["other/map/1", "fips//3", "other/deed/9"],
        &[
            ("fips//3", &[None, Some("map"), Some("deed")]),
            ("other/deed/9", &[Some("other")]),
        ],
    ),
    (
        &["other/map/1", "fips/map/3", "other//9"],
        &[
            ("fips/map/3", &[None, Some("map")]),
            ("other//9", &[Some("other")]),
        ],
    ),
    // The empty preference is a preference. It prefers identifiers with an empty `Type`, which are the least of all.
    (
        &["a//1", "/z/9", "/z/8"],
        &[("/z/8", &[None, Some("")]), ("a//1", &[Some("a")])],
    ),
    (
        &["b//1", "a/x/3", "a/y/2"],
        &[("a/x/3", &[None, Some("")]), ("b//1", &[Some("b")])],
    ),
    // A type is preferred only if its text equals the preferred one. A part of it or a similar text does not count.
    (
        &["fips//1", "Fips//2", "fips2//0"],
        &[
            (
                "Fips//2",
                &[None, Some("Fips"), Some("FIPS"), Some("fip"), Some("fips ")],
            ),
            ("fips//1", &[Some("fips")]),
            ("fips2//0", &[Some("fips2")]),
        ],
    ),
    // Texts are compared by their bytes as read: without Unicode normalisation, and whatever escapes they were written with.
    (
        &["\u{e9}//1", "z//2", "e\u{301}//3"],
        &[
            ("e\u{301}//3", &[None, Some("e\u{301}"), Some("e")]),
            ("\u{e9}//1", &[Some("\u{e9}")]),
            ("z//2", &[Some("z")]),
        ],
    ),
    (
        &["\\u00e9//1", "a//2", "\\ud800\\udc00//3"],
        &[
            ("a//2", &[None, Some("\u{10001}"), Some("\\u00e9")]),
            ("\u{e9}//1", &[Some("\u{e9}")]),
            ("\u{10000}//3", &[Some("\u{10000}")]),
        ],
    ),
    // U+FFFF comes before U+10000, also among preferred identifiers.
    (
        &["\u{e9}//\u{10000}", "a//2", "\u{e9}//\u{ffff}"],
        &[("a//2", &[None]), ("\u{e9}//\u{ffff}", &[Some("\u{e9}")])],
    ),
];

// One identifier, after a comma.
fn one_more(alloc: Global, identifier: &str) -> Result<String, AllocError> {
    let (kind, other, value) = texts_of(identifier);
    let other = other_type(alloc, other)?;
    format!(in alloc;
        ",{{\"@type\":\"ElectionResults.ExternalIdentifier\",{other}\"Type\":\"{kind}\",\"Value\":\"{value}\"}}"
    )
}

// The identifiers in this order, each after a comma. A position past the last one is left out.
fn in_this_order(alloc: Global, entries: &[&str], order: &[usize]) -> Result<String, AllocError> {
    let mut list = String::new(alloc);
    for position in order {
        if let Some(identifier) = entries.get(*position) {
            list.push_str(one_more(alloc, identifier)?.as_str())?;
        }
    }
    Ok(list)
}

// The identifiers in this order, as a member of a report.
fn identifiers(alloc: Global, entries: &[&str], order: &[usize]) -> Result<String, AllocError> {
    let list = in_this_order(alloc, entries, order)?;
    let entries = list.strip_prefix(',').unwrap_or("");
    format!(in alloc; "\"ExternalIdentifier\":[{entries}]")
}

// The member `OtherType` with this value. It is left out where the value is empty, and empty where the value is `EMPTY`.
fn other_type(alloc: Global, value: &str) -> Result<String, AllocError> {
    match value {
        "" => String::from_str(alloc, ""),
        "EMPTY" => String::from_str(alloc, "\"OtherType\":\"\","),
        _ => format!(in alloc; "\"OtherType\":\"{value}\","),
    }
}

// Whether the unit at this position has this key, and the key finds it.
fn has_key(report: &Report, index: usize, identifier: &str) -> bool {
    let Some(key) = report.key_at(Family::Unit, index) else {
        return false;
    };
    let (kind, other, value) = texts_of(identifier);
    key.kind.as_str() == kind
        && key.other.as_str() == other
        && key.value.as_str() == value
        && report.find(Family::Unit, key) == Some(index)
}

// Whether the units of a report have these keys.
fn keys_are(
    alloc: Global,
    report: &str,
    prefer: Option<&str>,
    wanted: &[&str],
) -> Result<bool, Fail> {
    let asked = Checked {
        report: report.as_bytes(),
        lines: "",
        form: "",
        under: taking(prefer),
    };
    for (index, key) in wanted.iter().enumerate() {
        let answer = on_report(
            alloc,
            &asked,
            |report| right_if(has_key(report, index, key)),
        )?;
        if answer != Answer::Right {
            return Ok(false);
        }
    }
    Ok(true)
}

// Whether the unit of a report has its key under each preference.
fn unit_is_keyed(alloc: Global, report: &str, wanted: &[Preferred]) -> Result<bool, Fail> {
    for (key, preferences) in wanted {
        for prefer in preferences.iter() {
            if !keys_are(alloc, report, *prefer, &[*key])? {
                return Ok(false);
            }
        }
    }
    Ok(true)
}

// Whether a unit with these identifiers in this order has its key. The report of one unit has `own` in their place.
fn is_keyed(
    alloc: Global,
    own: &str,
    (entries, wanted): Keyed,
    order: &[usize],
) -> Result<bool, Fail> {
    let array = identifiers(alloc, entries, order)?;
    let report = edited(alloc, ONE_UNIT, own, array.as_str())?;
    unit_is_keyed(alloc, report.as_str(), wanted)
}

fn all_are_keyed(
    rt: &impl Abort,
    alloc: Global,
    table: &[Keyed],
    orders: &[[usize; 3]],
) -> Result<(), Fail> {
    let own = spelled(alloc, "#U1&")?;
    for (index, keyed) in table.iter().enumerate() {
        for order in orders {
            assert!(rt;
                is_keyed(alloc, own.as_str(), *keyed, order)?,
                "identifiers {index}"
            );
        }
    }
    Ok(())
}

#[test]
fn keys_of_units(rt: HostRuntime) -> Result<(), Fail> {
    all_are_keyed(&rt, rt.alloc(), KEYS, &ORDERS)
}

const BY_FIPS: &[&str] = &["fips//20", "fips//10"];

const BY_LOCAL: &[&str] = &["local-level//U1", "local-level//U2"];

// The keys of two units with two identifiers each, under each preference.
const KEYS_OF_TWO: &[(Option<&str>, &[&str])] = &[
    (None, BY_FIPS),
    (Some("nosuch"), BY_FIPS),
    (Some("fips"), BY_FIPS),
    (LOCAL, BY_LOCAL),
];

fn units_are_keyed(
    rt: &impl Abort,
    alloc: Global,
    report: &str,
    table: &[(Option<&str>, &[&str])],
) -> Result<(), Fail> {
    for (prefer, wanted) in table {
        assert!(rt; keys_are(alloc, report, *prefer, wanted)?);
    }
    Ok(())
}

#[test]
fn keys_of_two_units(rt: HostRuntime) -> Result<(), Fail> {
    let alloc = rt.alloc();
    let report = made(alloc, (Base::OneUnit, &[(UNIT, TWO_UNITS)]))?;
    units_are_keyed(&rt, alloc, report.as_str(), KEYS_OF_TWO)
}

// The key of this identifier.
pub fn key(alloc: Global, identifier: &str) -> Result<Key, AllocError> {
    let (kind, other, value) = texts_of(identifier);
    let kind = Text::of(String::from_str(alloc, kind)?);
    let other = Text::of(String::from_str(alloc, other)?);
    let value = Text::of(String::from_str(alloc, value)?);
    Ok(Key { kind, other, value })
}
