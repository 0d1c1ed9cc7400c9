//! Files that are prepared by several steps.
use crate::tests::edits::spelled;
use erd_prepare::{Others, PrepareError, StepGroup, StepName, prepare_bytes, steps_named};
use std::alloc::{AllocError, Global};
use std::process::Abort;
use std::test::Fail;

/// Whether the file becomes this, and this is told.
fn is_prepared(
    alloc: Global,
    (steps, others): (&[StepName], Others),
    file: &str,
    after: &str,
    told: &str,
) -> bool {
    match prepare_bytes(alloc, file.as_bytes(), steps, others) {
        Ok(prepared) => {
            prepared.bytes.as_slice() == after.as_bytes()
                && prepared.told.as_slice() == told.as_bytes()
        }
        Err(_) => false,
    }
}

/// Prepares a file, and compares what comes of it and what is told.
fn try_file(
    rt: &impl Abort,
    alloc: Global,
    how: (&[StepName], Others),
    file: &str,
    after: &str,
    told: &str,
) -> Result<(), Fail> {
    let file = spelled(alloc, file)?;
    let after = spelled(alloc, after)?;
    let told = spelled(alloc, told)?;
    assert!(rt; is_prepared(alloc, how, &file, &after, &told), "{file}");
    Ok(())
}

// The steps that are done, what is said of the others, a file, what becomes of it, and what is told.
type Row = (
    &'static [StepName],
    Others,
    &'static str,
    &'static str,
    &'static str,
);

const ROWS: &[Row] = &[
    // Each place is that of the file that was given: the persons before the second went, and the offices were no list.
    (
        &[StepName::Names, StepName::UnusedPersons, StepName::Kinds],
        Others::Untold,
        concat!(
            r#"{"@type":"%ElectionReport","GpUnit":[{"@type":"%ReportingUnit","AuthorityIds":["p1","p3"],#U&}],"Office":{"@type":"%Office","#,
            r#""Name":"Mayor"},"Person":[{"@id":"p0","@type":"%Person"},{"@id":"p1","@type":"%Person",#P&},{"@id":"p2","@type":"%Person"},"#,
            r#"{"@id":"p3","@type":"%Person"}]}"#,
        ),
        concat!(
            r#"{"@type":"%ElectionReport","GpUnit":[{"@type":"%ReportingUnit","AuthorityIds":["p1","p3"],#U&}],"#,
            r#""Office":[{"@type":"%Office","ExternalIdentifier":[{"@type":"%ExternalIdentifier","OtherType":"name","Type":"other","#,
            r#""Value":"Mayor"}],"Name":"Mayor"}],"Person":[{"@id":"p1","@type":"%Person",#P&},{"@id":"p3","@type":"%Person"}]}"#,
        ),
        concat!(
            r#"[{"changes":[{"after":[{"@type":"%Office","Name":"Mayor"}],"before":{"@type":"%Office","Name":"Mayor"},"place":["Office"]}],"#,
            r#""count":1,"done":true,"left":[],"left_count":0,"more":false,"step":"kinds"},{"changes":[{"before":{"@id":"p0","#,
            r#""@type":"%Person"},"place":["Person",0]},{"before":{"@id":"p2","@type":"%Person"},"place":["Person",2]}],"count":2,"#,
            r#""done":true,"left":[],"left_count":0,"more":false,"step":"unused-persons"},"#,
            r#"{"changes":[{"after":[{"@type":"%ExternalIdentifier","OtherType":"name","Type":"other","Value":"Mayor"}],"place":["Office","#,
            r#""ExternalIdentifier"]}],"count":1,"done":true,"left":[{"place":["Person",3],"why":"noName"}],"left_count":1,"more":false,"#,
            r#""step":"names"}]"#,
        ),
    ),
    // Numbers stay, and members are sorted.
    (
        &[StepName::Nulls],
        Others::Untold,
        r#"{ "b~/" : null, "a": [18446744073709551615, -9223372036854775808, 1.50] }"#,
        r#"{"a":[18446744073709551615,-9223372036854775808,1.5]}"#,
        concat!(
            r#"[{"changes":[{"after":"1.5","before":"1.50","column":67,"line":1}],"count":1,"done":true,"left":[],"left_count":0,"#,
            r#""more":false,"step":"numbers"},{"changes":[{"before":null,"place":["b~/"]}],"count":1,"done":true,"left":[],"left_count":0,"#,
            r#""more":false,"step":"nulls"}]"#,
        ),
    ),
    // A step that is not chosen is told of at its turn: the office is a list by then, and its place is that in the file.
    (
        &[StepName::Kinds],
        Others::Told,
        r#"{"@type":"%ElectionReport","Office":{"@type":"%Office","Name":"Mayor","Phone":null}}"#,
        r#"{"@type":"%ElectionReport","Office":[{"@type":"%Office","Name":"Mayor","Phone":null}]}"#,
        concat!(
            r#"[{"changes":[{"before":null,"place":["Office","Phone"]}],"count":1,"done":false,"left":[],"left_count":0,"more":false,"#,
            r#""step":"nulls"},{"changes":[{"after":[{"@type":"%Office","Name":"Mayor","Phone":null}],"before":{"@type":"%Office","#,
            r#""Name":"Mayor","Phone":null},"place":["Office"]}],"count":1,"done":true,"left":[],"left_count":0,"more":false,"#,
            r#""step":"kinds"},{"changes":[{"after":[{"@type":"%ExternalIdentifier","OtherType":"name","Type":"other","Value":"Mayor"}],"#,
            r#""place":["Office","ExternalIdentifier"]}],"count":1,"done":false,"left":[],"left_count":0,"more":false,"step":"names"}]"#,
        ),
    ),
];

#[test]
fn each_file_is_prepared(rt: HostRuntime) -> Result<(), Fail> {
    for (steps, others, file, after, told) in ROWS {
        try_file(&rt, rt.alloc(), (steps, *others), file, after, told)?;
    }
    Ok(())
}

/// A file, what becomes of it by no step, and the numbers that are told, as the JSON of their list has them.
const NUMBERS: &[(&str, &str, &str)] = &[
    (
        "[1.50]",
        "[1.5]",
        r#"{"after":"1.5","before":"1.50","column":2,"line":1}"#,
    ),
    (
        r#"{"a":18446744073709551616}"#,
        r#"{"a":1.8446744073709552e+19}"#,
        r#"{"after":"1.8446744073709552e+19","before":"18446744073709551616","column":6,"line":1}"#,
    ),
    (
        "[1e2, 1E+2]",
        "[100.0,100.0]",
        r#"{"after":"100.0","before":"1e2","column":2,"line":1},{"after":"100.0","before":"1E+2","column":7,"line":1}"#,
    ),
    (
        "-0",
        "-0.0",
        r#"{"after":"-0.0","before":"-0","column":1,"line":1}"#,
    ),
    (
        "[1.5,\r\n\t2.50,\n\n3.0e0]",
        "[1.5,2.5,3.0]",
        r#"{"after":"2.5","before":"2.50","column":2,"line":2},{"after":"3.0","before":"3.0e0","column":1,"line":4}"#,
    ),
    (
        r#"["é",1.50]"#,
        r#"["é",1.5]"#,
        r#"{"after":"1.5","before":"1.50","column":7,"line":1}"#,
    ),
    (
        r#"{"1.50":"2.50\\","\"3.50":"\\\"4.50"}"#,
        r#"{"\"3.50":"\\\"4.50","1.50":"2.50\\"}"#,
        "",
    ),
    (
        "[0, -1, 1.5, 18446744073709551615, -9223372036854775808, 1e+300, true]",
        "[0,-1,1.5,18446744073709551615,-9223372036854775808,1e+300,true]",
        "",
    ),
];

#[test]
fn numbers_that_change_are_told(rt: HostRuntime) -> Result<(), Fail> {
    let alloc = rt.alloc();
    for (file, after, numbers) in NUMBERS {
        let told = numbers_told(alloc, numbers)?;
        let steps = (&[StepName::Nulls][..], Others::Untold);
        try_file(&rt, alloc, steps, file, after, told.as_str())?;
    }
    Ok(())
}

/// What is told of a file in which these numbers and nothing else changes.
fn numbers_told(alloc: Global, numbers: &str) -> Result<String, Fail> {
    if numbers.is_empty() {
        return Ok(String::from_str(alloc, "[]")?);
    }
    let count = numbers.split('{').skip(1).count();
    let told = format!(in alloc;
        "[{{\"changes\":[{numbers}],\"count\":{count},\"done\":true,\"left\":[],\"left_count\":0,\"more\":false,\"step\":\"numbers\"}}]"
    )?;
    Ok(told)
}

/// A list of a thousand and one numbers that are written otherwise.
fn many_numbers(alloc: Global) -> Result<String, AllocError> {
    let more = ",1.50".repeat(alloc, 1000)?;
    format!(in alloc; "[1.50{more}]")
}

/// Whether a thousand of them are listed, all are counted, and it is told that there are more.
fn are_told(told: &str) -> bool {
    told.split("\"before\"").count() == 1001
        && told.contains(r#""count":1001,"done":true"#)
        && told.contains(r#""more":true,"step":"numbers""#)
}

#[test]
fn a_thousand_numbers_are_told(rt: HostRuntime) -> Result<(), Fail> {
    let file = many_numbers(rt.alloc())?;
    let prepared = prepare_bytes(rt.alloc(), file.as_bytes(), &[], Others::Untold)
        .ok()
        .ok_or("not prepared")?;
    let told = str::from_utf8(prepared.told.as_slice())
        .ok()
        .ok_or("no text")?;
    assert!(rt; prepared.numbers.len() == 1001 && are_told(told));
    Ok(())
}

/// Words, and the steps that they choose.
const WORDS: &[(&str, &[StepName])] = &[
    (
        "names,visible,nulls",
        &[
            StepName::Names,
            StepName::GoneCandidates,
            StepName::UnusedStyles,
            StepName::Nulls,
        ],
    ),
    ("", &[]),
];

#[test]
fn words_choose_steps(rt: HostRuntime) -> Result<(), Fail> {
    for (words, steps) in WORDS {
        let chosen = steps_named(rt.alloc(), words)?.ok_or("no steps")?;
        assert!(rt; chosen.as_slice() == *steps);
    }
    assert!(rt; steps_named(rt.alloc(), "names,")?.is_none());
    Ok(())
}

#[test]
fn groups_have_names(rt: HostRuntime) {
    for group in [
        StepGroup::Removed,
        StepGroup::FilledIn,
        StepGroup::Visible,
        StepGroup::View,
    ] {
        assert!(rt; StepGroup::named(group.text()) == Some(group));
    }
}

#[test]
fn what_is_no_json_is_told(rt: HostRuntime) -> Result<(), Fail> {
    let prepared = prepare_bytes(rt.alloc(), b"{", &[StepName::Nulls], Others::Told);
    assert!(rt; matches!(prepared, Err(PrepareError::NotJson)));
    Ok(())
}
