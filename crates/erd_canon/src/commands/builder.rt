ghost use Rattle.std.specs.Prelude.{◌≡◌, IfOk, codes, false, map};
ghost use Rattle.erd_canon.specs.Words.{ballots_subcommand, canon_subcommand, check_subcommand, compare_subcommand, differences_subcommand, file_rule};
ghost use Rattle.erd_canon.specs.Words.{json_rule, list_rule, prefer_rule, prepare_subcommand, program, report_rule, optional_file_rule, steps_rule};
ghost use Rattle.erd_canon.specs.Words.{app_of, new_app, rule_of, with_rule};
ghost use Rattle.erd_canon.specs.Subcommands.{flag_rule, text_rule};
ghost use Rattle.clap.specs.declared.builder.command.Command.TheViews.{out-Command};

use crate::commands::help;
use clap::builder::ValueParser;
use clap::{Arg, ArgAction, Command};
use std::alloc::{AllocError, Global};

/// Returns the command of the program, with its six subcommands.
pub(crate) fn program_command<'a>(alloc: Global) -> Result<Command<'a>, AllocError>
    ensures { IfOk result (λ command. app_of command ≡ program) }
{
    described(
        alloc,
        "erd",
        help::PROGRAM,
        help::PROGRAM_AT_LENGTH,
        help::PROGRAM_ENDS,
    )
    .subcommand(check_command(alloc)?)?
    .subcommand(canon_command(alloc)?)?
    .subcommand(compare_command(alloc)?)?
    .subcommand(differences_command(alloc)?)?
    .subcommand(ballots_command(alloc)?)?
    .subcommand(prepare_command(alloc)?)
}

// The subcommand `check [--json] [--prefer TYPE] FILE`.
fn check_command<'a>(alloc: Global) -> Result<Command<'a>, AllocError>
    ensures app { IfOk result (λ command. app_of command ≡ check_subcommand) }
    ensures local { IfOk result (λ command. (out-Command command).has_globals ≡ false) }
{
    let command = described(
        alloc,
        "check",
        help::CHECK,
        help::CHECK_AT_LENGTH,
        help::CHECK_ENDS,
    );
    with_json_and_prefer(alloc, command)?.arg(file_argument(alloc, "FILE", help::FILE))
}

// The subcommand `canon [--prefer TYPE] FILE`.
fn canon_command<'a>(alloc: Global) -> Result<Command<'a>, AllocError>
    ensures app { IfOk result (λ command. app_of command ≡ canon_subcommand) }
    ensures local { IfOk result (λ command. (out-Command command).has_globals ≡ false) }
{
    let command = described(
        alloc,
        "canon",
        help::CANON,
        help::CANON_AT_LENGTH,
        help::CANON_ENDS,
    );
    with_prefer_and_file(alloc, command)
}

// The subcommand `compare [--json] [--prefer TYPE] LEFT RIGHT`.
fn compare_command<'a>(alloc: Global) -> Result<Command<'a>, AllocError>
    ensures app { IfOk result (λ command. app_of command ≡ compare_subcommand) }
    ensures local { IfOk result (λ command. (out-Command command).has_globals ≡ false) }
{
    let command = described(
        alloc,
        "compare",
        help::COMPARE,
        help::COMPARE_AT_LENGTH,
        help::COMPARE_ENDS,
    );
    let command = with_json_and_prefer(alloc, command)?;
    with_two_files(alloc, command)
}

// The subcommand `differences [--json] [--prefer TYPE] LEFT RIGHT`.
fn differences_command<'a>(alloc: Global) -> Result<Command<'a>, AllocError>
    ensures app { IfOk result (λ command. app_of command ≡ differences_subcommand) }
    ensures local { IfOk result (λ command. (out-Command command).has_globals ≡ false) }
{
    let command = described(
        alloc,
        "differences",
        help::DIFFERENCES,
        help::DIFFERENCES_AT_LENGTH,
        help::DIFFERENCES_ENDS,
    );
    let command = with_json_and_prefer(alloc, command)?;
    with_two_files(alloc, command)
}

// The subcommand `ballots [--json] [--prefer TYPE] FILE [RIGHT]`.
fn ballots_command<'a>(alloc: Global) -> Result<Command<'a>, AllocError>
    ensures app { IfOk result (λ command. app_of command ≡ ballots_subcommand) }
    ensures local { IfOk result (λ command. (out-Command command).has_globals ≡ false) }
{
    let command = described(
        alloc,
        "ballots",
        help::BALLOTS,
        help::BALLOTS_AT_LENGTH,
        help::BALLOTS_ENDS,
    );
    let command = with_json_and_prefer(alloc, command)?;
    with_one_or_two_files(alloc, command)
}

// The subcommand `prepare [--list] [--report] [--steps STEPS] [--prefer TYPE] FILE`.
fn prepare_command<'a>(alloc: Global) -> Result<Command<'a>, AllocError>
    ensures app { IfOk result (λ command. app_of command ≡ prepare_subcommand) }
    ensures local { IfOk result (λ command. (out-Command command).has_globals ≡ false) }
{
    let command = described(
        alloc,
        "prepare",
        help::PREPARE,
        help::PREPARE_AT_LENGTH,
        help::PREPARE_ENDS,
    );
    let command = with_list_report_and_steps(alloc, command)?;
    with_prefer_and_file(alloc, command)
}

// A command with this name, which help describes in a line, at length, and by what it ends with.
fn described<'a>(
    alloc: Global,
    name: &'a str,
    line: &'a str,
    at_length: &'a str,
    end: &'a str,
) -> Command<'a>
    ensures app { app_of result ≡ new_app name.entry.now }
    ensures local { (out-Command result).has_globals ≡ false }
{
    Command::new(alloc, name)
        .about(line)
        .long_about(at_length)
        .after_help(end)
}

// Adds the options `--json` and `--prefer TYPE`.
fn with_json_and_prefer<'a>(alloc: Global, command: Command<'a>) -> Result<Command<'a>, AllocError>
    ensures app { IfOk result (λ r. app_of r ≡ with_rule (with_rule (app_of command.entry) json_rule) prefer_rule) }
    ensures local { (out-Command command.entry).has_globals ≡ false → IfOk result (λ r. (out-Command r).has_globals ≡ false) }
{
    command
        .arg(flag(alloc, "json", help::JSON, help::JSON_AT_LENGTH))?
        .arg(prefer_option(alloc))
}

// Adds the option `--prefer TYPE` and the argument `FILE`.
fn with_prefer_and_file<'a>(alloc: Global, command: Command<'a>) -> Result<Command<'a>, AllocError>
    ensures app { IfOk result (λ r. app_of r ≡ with_rule (with_rule (app_of command.entry) prefer_rule) (file_rule (codes "FILE"))) }
    ensures local { (out-Command command.entry).has_globals ≡ false → IfOk result (λ r. (out-Command r).has_globals ≡ false) }
{
    command
        .arg(prefer_option(alloc))?
        .arg(file_argument(alloc, "FILE", help::FILE))
}

// Adds the options `--list`, `--report` and `--steps STEPS`.
fn with_list_report_and_steps<'a>(
    alloc: Global,
    command: Command<'a>,
) -> Result<Command<'a>, AllocError>
    ensures app { IfOk result (λ r. app_of r ≡ with_rule (with_rule (with_rule (app_of command.entry) list_rule) report_rule) steps_rule) }
    ensures local { (out-Command command.entry).has_globals ≡ false → IfOk result (λ r. (out-Command r).has_globals ≡ false) }
{
    command
        .arg(flag(alloc, "list", help::LIST, help::LIST_AT_LENGTH))?
        .arg(flag(alloc, "report", help::REPORT, help::REPORT_AT_LENGTH))?
        .arg(text_option(alloc, "STEPS", "steps", help::STEPS, help::STEPS_AT_LENGTH))
}

// Adds the arguments `LEFT` and `RIGHT`.
fn with_two_files<'a>(alloc: Global, command: Command<'a>) -> Result<Command<'a>, AllocError>
    ensures app { IfOk result (λ r. app_of r ≡ with_rule (with_rule (app_of command.entry) (file_rule (codes "LEFT"))) (file_rule (codes "RIGHT"))) }
    ensures local { (out-Command command.entry).has_globals ≡ false → IfOk result (λ r. (out-Command r).has_globals ≡ false) }
{
    command
        .arg(file_argument(alloc, "LEFT", help::LEFT))?
        .arg(file_argument(alloc, "RIGHT", help::RIGHT))
}

// Adds the argument `FILE`, and `RIGHT`, which may be left out.
fn with_one_or_two_files<'a>(alloc: Global, command: Command<'a>) -> Result<Command<'a>, AllocError>
    ensures app { IfOk result (λ r. app_of r ≡ with_rule (with_rule (app_of command.entry) (file_rule (codes "FILE"))) (optional_file_rule (codes "RIGHT"))) }
    ensures local { (out-Command command.entry).has_globals ≡ false → IfOk result (λ r. (out-Command r).has_globals ≡ false) }
{
    command
        .arg(file_argument(alloc, "FILE", help::FILE_OR_LEFT))?
        .arg(Arg::new(alloc, "RIGHT").help(help::RIGHT_IF_ANY))
}

// A required argument that names a file.
fn file_argument<'a>(alloc: Global, id: &'a str, text: &'a str) -> Arg<'a>
    ensures rule { rule_of result ≡ file_rule id.entry.now }
    ensures local { result.global ≡ false }
{
    Arg::new(alloc, id).required(true).help(text)
}

// A flag with this name.
fn flag<'a>(alloc: Global, name: &'a str, line: &'a str, at_length: &'a str) -> Arg<'a>
    ensures rule { rule_of result ≡ flag_rule name.entry.now }
    ensures local { result.global ≡ false }
{
    Arg::new(alloc, name)
        .long(name)
        .action(ArgAction::SetTrue)
        .help(line)
        .long_help(at_length)
}

// The option `--prefer TYPE`.
fn prefer_option<'a>(alloc: Global) -> Arg<'a>
    ensures rule { rule_of result ≡ prefer_rule }
    ensures local { result.global ≡ false }
{
    text_option(
        alloc,
        "TYPE",
        "prefer",
        help::PREFER,
        help::PREFER_AT_LENGTH,
    )
}

// An option with this name that takes a text. It rejects an empty one.
fn text_option<'a>(
    alloc: Global,
    id: &'a str,
    name: &'a str,
    line: &'a str,
    at_length: &'a str,
) -> Arg<'a>
    ensures rule { rule_of result ≡ text_rule id.entry.now name.entry.now }
    ensures local { result.global ≡ false }
{
    Arg::new(alloc, id)
        .long(name)
        .value_parser(ValueParser::NonEmptyString)
        .help(line)
        .long_help(at_length)
}
