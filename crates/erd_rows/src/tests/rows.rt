//! Rows: a report or two, and what is told of them. Each call that tells it is tried, with each of its requests for memory
//! refused where `tests/program/refusals.sh` runs it.
use crate::tests::answers::{ACCEPTED, SAME};
use crate::tests::edits::{Edit, Edited, changed, made};
use crate::tests::pair_calls::{Compared, each_pair_call};
use crate::tests::report_calls::{Checked, each_report_call};
use crate::tests::runs::{PLAIN, Under};
use std::alloc::{AllocError, Global};
use std::test::Fail;

// The name of the row, the report, and what is told of it.
pub type Row = (&'static str, Edited, Told);

// A preference, and the rows under it.
pub type Preferred = (Option<&'static str>, &'static [Row]);

// What is told of a report.
#[derive(Clone, Copy)]
pub enum Told {
    // `accepted`, or the lines of its faults, or `not JSON`.
    Lines(&'static str),
    // It is accepted, and this is its canonical form.
    Form(Edited),
    // Compared with this report on the right, the line: `same`, the first difference, or why one is refused.
    Beside(Edited, &'static str),
    // Compared with itself after these edits on the right, the line.
    Changed(&'static [Edit], &'static str),
}

// The calls that take a preference are made, with this one.
pub fn taking(prefer: Option<&str>) -> Under {
    Under {
        prefer,
        takes_preference: true,
    }
}

// Tries each call on each row of this name, or on each row where there is no name.
pub fn all_hold(
    alloc: Global,
    prefer: Option<&str>,
    rows: &[Row],
    name: Option<&str>,
) -> Result<(), Fail> {
    for row in rows {
        if name.is_none() || name == Some(row.0) {
            holds(alloc, prefer, row)?;
        }
    }
    Ok(())
}

// The same for rows under several preferences.
pub fn all_hold_under(alloc: Global, tables: &[Preferred], name: Option<&str>) -> Result<(), Fail> {
    for (prefer, rows) in tables {
        all_hold(alloc, *prefer, rows, name)?;
    }
    Ok(())
}

fn holds(alloc: Global, prefer: Option<&str>, row: &Row) -> Result<(), Fail> {
    let (name, report, told) = row;
    let report = made(alloc, *report)?;
    let report = report.as_str();
    match told {
        Told::Lines(lines) => lines_are(alloc, name, prefer, report, lines),
        Told::Form(form) => {
            let form = made(alloc, *form)?;
            form_is(alloc, name, prefer, report, form.as_str())
        }
        Told::Beside(right, lines) => {
            let right = made(alloc, *right)?;
            lines_beside(alloc, name, prefer, (report, right.as_str()), lines)
        }
        Told::Changed(edits, lines) => {
            let right = changed(alloc, report, edits)?;
            lines_beside(alloc, name, prefer, (report, right.as_str()), lines)
        }
    }
}

fn lines_are(
    alloc: Global,
    name: &str,
    prefer: Option<&str>,
    report: &str,
    lines: &str,
) -> Result<(), Fail> {
    let asked = Checked {
        report: report.as_bytes(),
        lines,
        form: "",
        under: taking(prefer),
    };
    tell(alloc, name, asked)
}

// The report has this canonical form, and the form has itself.
pub fn form_is<'a>(
    alloc: Global,
    name: &str,
    prefer: Option<&str>,
    report: &'a str,
    form: &'a str,
) -> Result<(), Fail> {
    for text in [report, form] {
        let asked = Checked {
            report: text.as_bytes(),
            lines: ACCEPTED,
            form,
            under: taking(prefer),
        };
        tell(alloc, name, asked)?;
    }
    Ok(())
}

// Hands the calls on under the preference, and where there is none, also those that take none.
fn under_each<F: Fn(Under) -> Result<(), Fail>>(under: Under, then: F) -> Result<(), Fail>
    requires { F.IsAlwaysCallable then }
{
    then(under)?;
    if under.prefer.is_none() {
        then(PLAIN)?;
    }
    Ok(())
}

// Tries each call on one report. Without a preference, these are also the calls that take none.
pub fn tell(alloc: Global, name: &str, asked: Checked) -> Result<(), Fail> {
    under_each(asked.under, |under| {
        each_report_call(alloc, name, &Checked { under, ..asked })
    })
}

// Two reports have this line, and the line with the sides exchanged if they are.
fn lines_beside(
    alloc: Global,
    name: &str,
    prefer: Option<&str>,
    (left, right): (&str, &str),
    lines: &str,
) -> Result<(), Fail> {
    let asked = Compared {
        left: left.as_bytes(),
        right: right.as_bytes(),
        lines,
        under: taking(prefer),
    };
    tell_beside(alloc, name, asked)?;
    let exchanged = exchanged(alloc, lines)?;
    if exchanged.is_empty() {
        return Ok(());
    }
    let asked = Compared {
        left: right.as_bytes(),
        right: left.as_bytes(),
        lines: exchanged.as_str(),
        ..asked
    };
    tell_beside(alloc, name, asked)
}

// Tries each call on two reports. Without a preference, these are also the calls that take none.
pub fn tell_beside(alloc: Global, name: &str, asked: Compared) -> Result<(), Fail> {
    under_each(asked.under, |under| {
        each_pair_call(alloc, name, &Compared { under, ..asked })
    })
}

// The line with left and right exchanged. Empty for the lines of a report that is refused.
fn exchanged(alloc: Global, line: &str) -> Result<String, AllocError> {
    if line.starts_with("left: ") || line.starts_with("right: ") {
        return String::from_str(alloc, "");
    }
    if let Some(place) = line.strip_suffix(": only left\n") {
        return format!(in alloc; "{place}: only right\n");
    }
    match line.strip_suffix(": only right\n") {
        Some(place) => format!(in alloc; "{place}: only left\n"),
        None => String::from_str(alloc, line),
    }
}

// Whether a report is the same as itself, under no preference.
pub fn is_itself(alloc: Global, name: &str, report: &str) -> Result<(), Fail> {
    lines_beside(alloc, name, None, (report, report), SAME)
}
