use crate::commands::prefer::Prefer;
use crate::commands::steps::Steps;
use erd_tables::Text;
use std::alloc::AllocError;
use thiserror::Error;

/// The name of a file, as written on the command line.
pub type FileName = Text;

/// What a command line asks for. The preference is the type of identifier that keys follow, if the words name one
/// (`--prefer`). The steps are those that the words choose (`--steps`), if they do.
#[derive(Debug, Drop)]
pub enum Request {
    /// Write the canonical form of the report on standard input.
    Filter,
    /// Check whether the report in this file is accepted, under the preference.
    Check(FileName, Prefer),
    /// Write the canonical form of the report in this file, under the preference.
    Canon(FileName, Prefer),
    /// Write the first difference between the reports in the left file and the right file, under the preference.
    Compare(FileName, FileName, Prefer),
    /// Check the report in this file under the preference, and answer with JSON (`--json`).
    CheckData(FileName, Prefer),
    /// Compare the reports in the left file and the right file under the preference, and answer with JSON (`--json`).
    CompareData(FileName, FileName, Prefer),
    /// Write all differences between the reports in the left file and the right file, under the preference.
    Differences(FileName, FileName, Prefer),
    /// List all differences between the reports in the left file and the right file under the preference, as JSON (`--json`).
    DifferencesData(FileName, FileName, Prefer),
    /// Do the steps on the report in this file, write the prepared report, and judge it under the preference.
    Prepare(FileName, Steps, Prefer),
    /// List what each step would do to the report in this file (`--list`).
    PrepareList(FileName),
    /// Do the steps on the report in this file, and answer with what each of them did, as JSON (`--report`).
    PrepareReport(FileName, Steps),
    /// List the ballots of the report in this file, under the preference.
    Ballots(FileName, Prefer),
    /// List the ballots of the report in this file under the preference, as JSON (`--json`).
    BallotsData(FileName, Prefer),
    /// List the ballots on which the reports in the left file and the right file differ, under the preference.
    BallotDifferences(FileName, FileName, Prefer),
    /// List the ballots on which the reports in the left file and the right file differ under the preference, as JSON
    /// (`--json`).
    BallotDifferencesData(FileName, FileName, Prefer),
}

/// Why a command line gives no request.
#[derive(Debug, Drop, Error)]
pub enum LineFault {
    /// The words ask for help. This is the help text.
    #[error("{}", .0.as_str())]
    Help(Text),
    /// The words are not a command line of this program. This text says why, and how the program is called.
    #[error("{}", .0.as_str())]
    Usage(Text),
    /// Out of memory.
    #[error("no memory")]
    Memory,
}

impl From<AllocError> for LineFault {
    ghost use Rattle.std.specs.Prelude.{◌≡◌};
    ghost use Rattle.erd_canon.specs.declared.commands.request.LineFault.TheVariants.{Memory};

    ghost from_gives = { λ _ r. r ≡ Memory };

    fn from(_: AllocError) -> LineFault {
        LineFault::Memory
    }
}
