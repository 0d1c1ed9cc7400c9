//! The requests that command lines give, with each request for memory refused in turn.
use crate::tests::requests::{Line, all_are};
use std::alloc::Global;
use std::test::Fail;

const REQUESTS: &[Line] = &[
    ("erd", "filter"),
    ("erd|check|a", "check [a]"),
    ("erd|canon|a", "canon [a]"),
    ("erd|compare|a|b", "compare [a] [b]"),
    ("erd|compare|a|a", "compare [a] [a]"),
    ("erd|nosuch", "usage"),
    ("erd|check", "usage"),
    ("erd|compare|a", "usage"),
    ("erd|--help", "help"),
    ("erd|check|--prefer|fips|a", "check [a] under [fips]"),
    ("erd|canon|--prefer|fips|a", "canon [a] under [fips]"),
    (
        "erd|compare|--prefer|fips|a|b",
        "compare [a] [b] under [fips]",
    ),
    ("erd|compare|--prefer|a|a|a", "compare [a] [a] under [a]"),
];

// The name of a file is any text that is not empty and does not begin with a hyphen. After `--` it may begin with one.
const NAMES_OF_FILES: &[Line] = &[
    ("erd|check|two words", "check [two words]"),
    ("erd|check| ", "check [ ]"),
    ("erd|check|a\nb", "check [a\nb]"),
    ("erd|canon|Wähler/北京.json", "canon [Wähler/北京.json]"),
    ("erd|canon|\u{1F5F3}", "canon [\u{1F5F3}]"),
    ("erd|check|help", "check [help]"),
    ("erd|check|check", "check [check]"),
    ("erd|compare|compare|canon", "compare [compare] [canon]"),
    ("erd|check|a=b", "check [a=b]"),
    ("erd|check|a--", "check [a--]"),
    ("erd|compare|a -h|/dev/stdin", "compare [a -h] [/dev/stdin]"),
    ("erd|check|--|-a", "check [-a]"),
    ("erd|canon|--|--help", "canon [--help]"),
    ("erd|compare|--|-a|-b", "compare [-a] [-b]"),
    ("erd|compare|a|--|-b", "compare [a] [-b]"),
    ("erd|check|--|a", "check [a]"),
    ("erd|check|--|--", "check [--]"),
    ("erd|check|-a", "usage"),
];

const HELP_AND_USAGE: &[Line] = &[
    ("erd|-h", "help"),
    ("erd|help", "help"),
    ("erd|help|check", "help"),
    ("erd|help|canon", "help"),
    ("erd|help|compare", "help"),
    ("erd|check|--help", "help"),
    ("erd|canon|-h", "help"),
    ("erd|compare|a|--help", "help"),
    ("erd|Check|a", "usage"),
    ("erd|canon", "usage"),
    ("erd|compare", "usage"),
    ("erd|check|a|b", "usage"),
    ("erd|canon|a|b", "usage"),
    ("erd|compare|a|b|c", "usage"),
    ("erd|--check|a", "usage"),
    ("erd|--version", "usage"),
    ("erd|help|nosuch", "usage"),
];

// The option `--json` stands behind the command and before `--prefer`; `clap` takes it elsewhere too, once.
const FOR_DATA: &[Line] = &[
    ("erd|check|--json|a", "check as data [a]"),
    ("erd|compare|--json|a|b", "compare as data [a] [b]"),
    ("erd|differences|a|b", "differences [a] [b]"),
    ("erd|differences|--json|a|b", "differences as data [a] [b]"),
    (
        "erd|check|--json|--prefer|fips|a",
        "check as data [a] under [fips]",
    ),
    (
        "erd|compare|--json|--prefer|fips|a|b",
        "compare as data [a] [b] under [fips]",
    ),
    (
        "erd|differences|--prefer|fips|a|b",
        "differences [a] [b] under [fips]",
    ),
    (
        "erd|differences|--json|--prefer|fips|a|b",
        "differences as data [a] [b] under [fips]",
    ),
    (
        "erd|check|--prefer|fips|--json|a",
        "check as data [a] under [fips]",
    ),
    ("erd|compare|a|--json|b", "compare as data [a] [b]"),
    (
        "erd|differences|differences|json",
        "differences [differences] [json]",
    ),
    ("erd|check|--|--json", "check [--json]"),
    ("erd|check|--json|--json|a", "usage"),
    ("erd|check|--json=true|a", "usage"),
    ("erd|canon|--json|a", "usage"),
    ("erd|--json|check|a", "usage"),
    ("erd|--json", "usage"),
    ("erd|differences|a", "usage"),
    ("erd|differences|a|b|c", "usage"),
    ("erd|differences|--help", "help"),
    ("erd|help|differences", "help"),
];

// The ballots of one file, or of two. `--json` and `--prefer` stand where they stand behind other commands.
const BALLOTS: &[Line] = &[
    ("erd|ballots|a", "ballots [a]"),
    ("erd|ballots|a|b", "ballots [a] [b]"),
    ("erd|ballots|--json|a", "ballots as data [a]"),
    ("erd|ballots|--json|a|b", "ballots as data [a] [b]"),
    ("erd|ballots|--prefer|fips|a", "ballots [a] under [fips]"),
    (
        "erd|ballots|--prefer|fips|a|b",
        "ballots [a] [b] under [fips]",
    ),
    (
        "erd|ballots|--json|--prefer|fips|a|b",
        "ballots as data [a] [b] under [fips]",
    ),
    ("erd|ballots|a|--json|b", "ballots as data [a] [b]"),
    ("erd|ballots|ballots|prepare", "ballots [ballots] [prepare]"),
    ("erd|ballots|a|--|-b", "ballots [a] [-b]"),
    ("erd|ballots", "usage"),
    ("erd|ballots|a|b|c", "usage"),
    ("erd|ballots|--list|a", "usage"),
    ("erd|ballots|--help", "help"),
    ("erd|help|ballots", "help"),
];

// The steps are any text that is not empty and does not begin with a hyphen. The list goes before the report.
const PREPARING: &[Line] = &[
    ("erd|prepare|a", "prepare [a]"),
    ("erd|prepare|--steps|removed|a", "prepare [a] by [removed]"),
    (
        "erd|prepare|--steps|nulls,codes|--prefer|fips|a",
        "prepare [a] by [nulls,codes] under [fips]",
    ),
    ("erd|prepare|--prefer|fips|a", "prepare [a] under [fips]"),
    (
        "erd|prepare|a|--prefer=fips|--steps=b",
        "prepare [a] by [b] under [fips]",
    ),
    ("erd|prepare|--steps|no step|a", "prepare [a] by [no step]"),
    ("erd|prepare|--list|a", "list for [a]"),
    ("erd|prepare|a|--list", "list for [a]"),
    ("erd|prepare|--list|--report|a", "list for [a]"),
    ("erd|prepare|--report|--list|--steps|b|a", "list for [a]"),
    ("erd|prepare|--report|a", "report on [a]"),
    (
        "erd|prepare|--report|--steps|visible|a",
        "report on [a] by [visible]",
    ),
    ("erd|prepare|--report|--prefer|fips|a", "report on [a]"),
    ("erd|prepare|prepare", "prepare [prepare]"),
    ("erd|prepare|--|--list", "prepare [--list]"),
    ("erd|prepare", "usage"),
    ("erd|prepare|--list", "usage"),
    ("erd|prepare|a|b", "usage"),
    ("erd|prepare|--json|a", "usage"),
    ("erd|prepare|--steps|a", "usage"),
    ("erd|prepare|--steps||a", "usage"),
    ("erd|prepare|--steps|a|--steps|b|c", "usage"),
    ("erd|prepare|--list|--list|a", "usage"),
    ("erd|prepare|--list=true|a", "usage"),
    ("erd|check|--steps|a|b", "usage"),
    ("erd|check|--list|a", "usage"),
    ("erd|canon|--report|a", "usage"),
    ("erd|prepare|--help", "help"),
    ("erd|help|prepare", "help"),
];

// A type is any text that is not empty and does not begin with a hyphen. In the place of a file name or a type, the words of
// the option are ordinary names, except for a word that begins with hyphens.
const PREFERENCES: &[Line] = &[
    ("erd|check|prefer", "check [prefer]"),
    ("erd|canon|TYPE", "canon [TYPE]"),
    ("erd|compare|prefer|fips", "compare [prefer] [fips]"),
    (
        "erd|check|--prefer|prefer|prefer",
        "check [prefer] under [prefer]",
    ),
    (
        "erd|compare|--prefer|LEFT|RIGHT|TYPE",
        "compare [RIGHT] [TYPE] under [LEFT]",
    ),
    ("erd|check|--|--prefer", "check [--prefer]"),
    ("erd|compare|--|--prefer|fips", "compare [--prefer] [fips]"),
    (
        "erd|check|--prefer|check|canon",
        "check [canon] under [check]",
    ),
    (
        "erd|canon|--prefer|compare|check",
        "canon [check] under [compare]",
    ),
    (
        "erd|compare|--prefer|canon|compare|check",
        "compare [compare] [check] under [canon]",
    ),
    ("erd|check|--prefer|help|help", "check [help] under [help]"),
    (
        "erd|check|--prefer|two words|a",
        "check [a] under [two words]",
    ),
    ("erd|canon|--prefer| |a", "canon [a] under [ ]"),
    (
        "erd|canon|--prefer| --prefer x|a",
        "canon [a] under [ --prefer x]",
    ),
    ("erd|check|--prefer|a\nb|a", "check [a] under [a\nb]"),
    (
        "erd|check|--prefer|Gemeindeschlüssel|Wähler",
        "check [Wähler] under [Gemeindeschlüssel]",
    ),
    (
        "erd|compare|--prefer|北京\u{1F5F3}|a|b",
        "compare [a] [b] under [北京\u{1F5F3}]",
    ),
    ("erd|check|--prefer|a=b|c", "check [c] under [a=b]"),
    (
        "erd|check|--prefer|local-level-|c",
        "check [c] under [local-level-]",
    ),
    ("erd|check|--prefer", "usage"),
    ("erd|check|--prefer|a", "usage"),
    ("erd|canon|--prefer|a", "usage"),
    ("erd|compare|--prefer|a|b", "usage"),
    ("erd|check|a|--prefer", "usage"),
    ("erd|check|--prefer||a", "usage"),
    ("erd|canon|--prefer||a", "usage"),
    ("erd|compare|--prefer||a|b", "usage"),
    ("erd|--prefer|fips", "usage"),
    ("erd|--prefer|fips|check|a", "usage"),
    ("erd|--prefer", "usage"),
];

// Each table has a function of its own, so that what is proved of one does not hold the lines of another.
fn of_requests(alloc: Global) -> Result<(), Fail> {
    all_are(alloc, REQUESTS)
}

fn of_names_of_files(alloc: Global) -> Result<(), Fail> {
    all_are(alloc, NAMES_OF_FILES)
}

fn of_help_and_usage(alloc: Global) -> Result<(), Fail> {
    all_are(alloc, HELP_AND_USAGE)
}

fn of_preferences(alloc: Global) -> Result<(), Fail> {
    all_are(alloc, PREFERENCES)
}

fn of_data(alloc: Global) -> Result<(), Fail> {
    all_are(alloc, FOR_DATA)
}

fn of_ballots(alloc: Global) -> Result<(), Fail> {
    all_are(alloc, BALLOTS)
}

fn of_preparing(alloc: Global) -> Result<(), Fail> {
    all_are(alloc, PREPARING)
}

#[test]
fn refused_lines(rt: HostRuntime) -> Result<(), Fail> {
    of_requests(rt.alloc())
}

#[test]
fn command_lines(rt: HostRuntime) -> Result<(), Fail> {
    let alloc = rt.alloc();
    of_requests(alloc)?;
    of_names_of_files(alloc)?;
    of_help_and_usage(alloc)?;
    of_preferences(alloc)?;
    of_ballots(alloc)?;
    of_preparing(alloc)?;
    of_data(alloc)
}
