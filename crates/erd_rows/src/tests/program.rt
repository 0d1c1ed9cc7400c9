//! Runs of the program over a world in memory. What they write was worked out from the README.
use crate::tests::answers::{Answer, right_if};
use crate::tests::program::world::{Ended, GOOD, Good, REPORT, run};
use crate::tests::refusing::each_refused;
use erd_program::WorldFault;
use std::alloc::Global;
use std::process::Abort;
use std::test::Fail;

mod world;

const NOTHING: &str = "";

// A line, the status that it ends with, and what it writes to standard output and to standard error.
type Row = (&'static str, u8, &'static str, &'static str);

const ROWS: &[Row] = &[
    ("erd", 0, REPORT, NOTHING),
    ("erd canon one", 0, REPORT, NOTHING),
    ("erd canon --prefer fips one", 0, REPORT, NOTHING),
    ("erd canon empty", 1, NOTHING, ": missing member @type\n"),
    ("erd canon text", 2, NOTHING, "not JSON\n"),
    ("erd check one", 0, "accepted\n", NOTHING),
    ("erd check --prefer fips other", 0, "accepted\n", NOTHING),
    ("erd check empty", 1, ": missing member @type\n", NOTHING),
    ("erd check text", 2, "not JSON\n", NOTHING),
    ("erd compare one one", 0, "same\n", NOTHING),
    ("erd compare one other", 1, DIFFERENCE, NOTHING),
    (
        "erd compare --prefer fips other other",
        0,
        "same\n",
        NOTHING,
    ),
    (
        "erd compare --prefer fips one other",
        1,
        DIFFERENCE,
        NOTHING,
    ),
    (
        "erd compare one empty",
        1,
        "right: : missing member @type\n",
        NOTHING,
    ),
    ("erd compare text empty", 2, "left: not JSON\n", NOTHING),
    ("erd check none", 3, NOTHING, "cannot open\nnone\n"),
    (
        "erd check n\none\u{7f}\u{9b}31m",
        3,
        NOTHING,
        "cannot open\nn?one??31m\n",
    ),
    ("erd canon Wähler", 3, NOTHING, "cannot open\nWähler\n"),
    ("erd compare one none", 3, NOTHING, "cannot open\nnone\n"),
    ("erd compare none one", 3, NOTHING, "cannot open\nnone\n"),
    ("erd compare left right", 3, NOTHING, "cannot open\nleft\n"),
];

// What is left of a report without a member, and the line about it.
const LEFT: &str = concat!(
    ": missing member @type\nreason 2 (missing member): steps that may fix it: class-names; otherwise ask the vendor: ",
    "Write the member that is missing. The standard requires it.\n",
);

const LATER_ROWS: &[Row] = &[
    ("erd ballots one", 0, NOTHING, NOTHING),
    ("erd ballots --json one", 0, "[]\n", NOTHING),
    ("erd ballots empty", 1, ": missing member @type\n", NOTHING),
    ("erd ballots text", 2, "not JSON\n", NOTHING),
    ("erd ballots one other", 0, "same ballots\n", NOTHING),
    ("erd ballots --json one other", 0, "[]\n", NOTHING),
    (
        "erd ballots one empty",
        1,
        "right: : missing member @type\n",
        NOTHING,
    ),
    ("erd ballots none one", 3, NOTHING, "cannot open\nnone\n"),
    ("erd prepare one", 0, REPORT, NOTHING),
    (
        "erd prepare --steps nulls,removed --prefer fips one",
        0,
        REPORT,
        NOTHING,
    ),
    ("erd prepare empty", 1, "{}", LEFT),
    ("erd prepare text", 2, NOTHING, "not JSON\n"),
    ("erd prepare --list text", 2, NOTHING, "not JSON\n"),
    ("erd prepare --report text", 2, NOTHING, "not JSON\n"),
    (
        "erd prepare --steps nulls,nosuch none",
        3,
        NOTHING,
        "unknown step\n",
    ),
    (
        "erd prepare --report --steps nosuch one",
        3,
        NOTHING,
        "unknown step\n",
    ),
    ("erd prepare none", 3, NOTHING, "cannot open\nnone\n"),
    ("erd prepare --list none", 3, NOTHING, "cannot open\nnone\n"),
];

const DIFFERENCE: &str = "unit [\"local-level\",\"\",\"U1\"]: member \"Type\"\n";

// Whether the run ended so.
fn is(found: &Ended, status: u8, out: &str, err: &str) -> bool {
    found.is(status, out.as_bytes(), err.as_bytes())
}

// Runs the line, and compares how it ends with how it ends if there is memory. Out of memory, nothing else is written.
fn answer(alloc: Global, line: &str, whole: &Ended) -> Answer {
    let found = run(alloc, Ok(line), GOOD);
    let is_right = found.is(whole.status, whole.out.text(), whole.err.text());
    if !is_right && is(&found, 4, NOTHING, "no memory\n") {
        return Answer::WantsMemory;
    }
    right_if(is_right)
}

// Runs each line, with memory and with each request for memory refused in turn.
fn all_are<F: Fn(&Ended, u8, &str, &str) -> bool>(
    alloc: Global,
    rows: &[Row],
    is_so: F,
) -> Result<(), Fail>
    requires { F.IsAlwaysCallable is_so }
{
    for (line, status, out, err) in rows {
        let found = run(alloc, Ok(line), GOOD);
        if !is_so(&found, *status, out, err) {
            return Err(Fail::from(format!(in alloc; "at {line}")?));
        }
        each_refused(alloc, line, |alloc| answer(alloc, line, &found))?;
    }
    Ok(())
}

#[test]
fn refused_rows(rt: HostRuntime) -> Result<(), Fail> {
    all_are(rt.alloc(), ROWS, is)
}

#[test]
fn refused_later_rows(rt: HostRuntime) -> Result<(), Fail> {
    all_are(rt.alloc(), LATER_ROWS, is)
}

// A line that asks for help or is wrong, the status that it ends with, and how what it writes to standard output and to standard
// error begins.
const HELP_AND_USAGE: &[Row] = &[
    ("erd --help", 0, "Puts ", NOTHING),
    ("erd help compare", 0, "Reads ", NOTHING),
    ("erd check", 3, NOTHING, "error: "),
    ("erd nosuch", 3, NOTHING, "error: "),
];

// Whether the text begins so, and is empty if nothing is wanted.
fn begins(text: &[u8], wanted: &str) -> bool {
    text.starts_with(wanted.as_bytes()) && text.is_empty() == wanted.is_empty()
}

// Whether the run ended with this status, and its texts begin so.
fn begins_so(found: &Ended, status: u8, out: &str, err: &str) -> bool {
    found.status == status && begins(found.out.text(), out) && begins(found.err.text(), err)
}

#[test]
fn refused_help_and_usage(rt: HostRuntime) -> Result<(), Fail> {
    all_are(rt.alloc(), HELP_AND_USAGE, begins_so)
}

// The system does not give the arguments.
#[test]
fn no_words(rt: HostRuntime) -> Result<(), Fail> {
    let refused = run(rt.alloc(), Err(WorldFault::Refused), GOOD);
    assert!(rt; is(&refused, 3, NOTHING, "the arguments are not text\n"));
    let memory = run(rt.alloc(), Err(WorldFault::Memory), GOOD);
    assert!(rt; is(&memory, 4, NOTHING, "no memory\n"));
    Ok(())
}

// A line, what it writes if a file cannot be opened, for each file that it opens, and how often it reads each of its inputs.
const LINES: [(&str, &[&str], usize); 8] = [
    ("erd", &[], 2),
    ("erd canon one", &["cannot open\none\n"], 2),
    ("erd check one", &["cannot open\none\n"], 2),
    (
        "erd compare one other",
        &["cannot open\none\n", "cannot open\nother\n"],
        2,
    ),
    (
        "erd ballots --json one other",
        &["cannot open\none\n", "cannot open\nother\n"],
        2,
    ),
    ("erd ballots --json one", &["cannot open\none\n"], 2),
    ("erd prepare one", &["cannot open\none\n"], 2),
    ("erd --help", &[], 0),
];

// Each opening fails in turn.
fn each_opening_fails(
    rt: &impl Abort,
    alloc: Global,
    line: &str,
    unopened: &[&str],
) -> Result<(), Fail> {
    let mut opens = 0;
    for told in unopened {
        let found = run(alloc, Ok(line), Good { opens, ..GOOD });
        assert!(rt; is(&found, 3, NOTHING, told), "at {line}, {opens}");
        opens = opens.saturating_add(1);
    }
    Ok(())
}

// Each read fails in turn.
fn each_read_fails(rt: &impl Abort, alloc: Global, line: &str, count: usize) -> Result<(), Fail> {
    for reads in 0..count {
        let found = run(alloc, Ok(line), Good { reads, ..GOOD });
        assert!(rt;
            is(&found, 3, NOTHING, "read failed\n"),
            "at {line}, {reads}"
        );
    }
    Ok(())
}

// Whether a write failed, and what was written before it is how the whole begins.
fn has_failed_write(found: &Ended, whole: &Ended) -> bool {
    found.status == 3
        && found.err.text() == "write failed\n".as_bytes()
        && whole.out.text().starts_with(found.out.text())
}

// Each write and each flush fails in turn.
fn each_write_fails(rt: &impl Abort, alloc: Global, line: &str) -> Result<(), Fail> {
    let whole = run(alloc, Ok(line), GOOD);
    for calls in 0..40 {
        let found = run(alloc, Ok(line), Good { out: calls, ..GOOD });
        let is_whole = found.is(whole.status, whole.out.text(), whole.err.text());
        assert!(rt;
            has_failed_write(&found, &whole) || (is_whole && calls > 1),
            "at {line}, {calls}"
        );
    }
    Ok(())
}

#[test]
fn each_call_fails(rt: HostRuntime) -> Result<(), Fail> {
    for (line, unopened, reads) in LINES {
        each_opening_fails(&rt, rt.alloc(), line, unopened)?;
        each_read_fails(&rt, rt.alloc(), line, reads)?;
        each_write_fails(&rt, rt.alloc(), line)?;
    }
    Ok(())
}

const UNTOLD: [&str; 3] = ["erd check none", "erd nosuch", "erd canon text"];

// A message that cannot be written, or not whole, leaves the status as it is.
#[test]
fn each_message_fails(rt: HostRuntime) -> Result<(), Fail> {
    for line in UNTOLD {
        let none = run(rt.alloc(), Ok(line), Good { err: 0, ..GOOD });
        assert!(rt; is(&none, 3, NOTHING, NOTHING), "at {line}");
    }
    // What is left of the lines, and then nothing more.
    let canon = run(rt.alloc(), Ok("erd canon empty"), Good { err: 1, ..GOOD });
    assert!(rt; is(&canon, 3, NOTHING, ": missing member @type\n"));
    Ok(())
}
