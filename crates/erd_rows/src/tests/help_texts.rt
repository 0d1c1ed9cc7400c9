//! What is printed for the words of a line that ask for help or are wrong, with each request for memory refused in turn.
use crate::tests::answers::{Answer, right_if};
use crate::tests::refusing::each_refused;
use crate::tests::requests::request;
use erd_canon::LineFault;
use std::alloc::Global;
use std::test::Fail;

// A line that asks for help or is wrong, and parts of the text about it.
type Parts = (&'static str, &'static [&'static str]);

const TEXTS: &[Parts] = &[
    ("erd|--help", OF_THE_PROGRAM),
    ("erd|help", OF_THE_PROGRAM),
    ("erd|help|check", OF_CHECK),
    ("erd|check|--help", OF_CHECK),
    ("erd|help|canon", OF_CANON),
    ("erd|help|compare", OF_COMPARE),
    ("erd|help|differences", OF_DIFFERENCES),
    ("erd|help|ballots", OF_BALLOTS),
    ("erd|help|prepare", OF_PREPARE),
    (
        "erd|nosuch",
        &["error: ", "'nosuch'", "Usage: erd [COMMAND]\n"],
    ),
    (
        "erd|check",
        &["error: ", "<FILE>", "Usage: erd check <FILE>\n"],
    ),
    (
        "erd|compare|a",
        &["error: ", "<RIGHT>", "Usage: erd compare <LEFT> <RIGHT>\n"],
    ),
    (
        "erd|canon|a|b",
        &["error: ", "'b'", "Usage: erd canon [OPTIONS] <FILE>\n"],
    ),
];

const OF_THE_PROGRAM: &[&str] = &[
    "pre-election ballot definition",
    "Usage: erd [COMMAND]\n",
    "check        Reports",
    "canon        Writes",
    "compare      Reports",
    "differences  Lists",
    "ballots      Lists",
    "prepare      Makes",
    "Exit status:\n  0  ",
    "Example:\n  erd < report.json > canonical.json\n",
];

const OF_CHECK: &[&str] = &[
    "Usage: erd check [OPTIONS] <FILE>\n",
    "--prefer <TYPE>",
    "standard output `accepted`",
    "Exit status:\n  0  accepted\n",
    "Example:\n  erd check report.json\n",
];

const OF_CANON: &[&str] = &[
    "Usage: erd canon [OPTIONS] <FILE>\n",
    "--prefer <TYPE>",
    "canonical form to standard output",
    "Exit status:\n  0  written\n",
    "Example:\n  erd canon report.json > canonical.json\n",
];

const OF_COMPARE: &[&str] = &[
    "Usage: erd compare [OPTIONS] <LEFT> <RIGHT>\n",
    "--prefer <TYPE>",
    "standard output `same`",
    "Exit status:\n  0  same\n",
    "Example:\n  erd compare vendor-a.json vendor-b.json\n",
];

const OF_DIFFERENCES: &[&str] = &[
    "Usage: erd differences [OPTIONS] <LEFT> <RIGHT>\n",
    "--json",
    "--prefer <TYPE>",
    "standard output `same`",
    "Exit status:\n  0  same\n",
    "Example:\n  erd differences vendor-a.json vendor-b.json\n",
];

const OF_BALLOTS: &[&str] = &[
    "Usage: erd ballots [OPTIONS] <FILE> [RIGHT]\n",
    "--json",
    "--prefer <TYPE>",
    "`same ballots`",
    "Exit status:\n  0  written, or the same ballots\n",
    "Example:\n  erd ballots vendor-a.json vendor-b.json\n",
];

const OF_PREPARE: &[&str] = &[
    "Usage: erd prepare [OPTIONS] <FILE>\n",
    "--list",
    "--report",
    "--steps <STEPS>",
    "--prefer <TYPE>",
    "prepared report to standard output",
    "Exit status:\n  0  written and accepted",
    "Example:\n  erd prepare export.json > prepared.json\n",
];

// Whether the text has all parts, and ends with one line feed.
fn has_parts(text: &str, parts: &[&str]) -> Answer {
    for part in parts {
        if !text.contains(*part) {
            return Answer::Wrong;
        }
    }
    right_if(text.ends_with("\n") && !text.ends_with("\n\n"))
}

fn is_told(alloc: Global, line: &str, parts: &[&str]) -> Answer {
    match &request(alloc, line) {
        Err(LineFault::Help(text)) => has_parts(text.as_str(), parts),
        Err(LineFault::Usage(text)) => has_parts(text.as_str(), parts),
        Err(LineFault::Memory) => Answer::WantsMemory,
        Ok(_) => Answer::Wrong,
    }
}

fn all_are_told(alloc: Global, texts: &[Parts]) -> Result<(), Fail> {
    for (line, parts) in texts {
        each_refused(alloc, line, |alloc| is_told(alloc, line, parts))?;
    }
    Ok(())
}

#[test]
fn refused_help_and_usage(rt: HostRuntime) -> Result<(), Fail> {
    all_are_told(rt.alloc(), TEXTS)
}
