//! What may be done about the faults that are left in a prepared report.

ghost use Rattle.std.specs.Prelude.{◌≡◌, ◌++◌, ◌∷◌, List, string_bytes, OnOk};
ghost use Rattle.erd_tables.specs.declared.fault.Fault.{Fault};
ghost use Rattle.erd_canon.specs.Words.{remedies_beyond, remedy_front, remedy_letter, remedy_lines, text_of_lines};

use crate::data::fault_values::number_of;
use erd_tables::{Fault, FaultList, Reason};
use std::alloc::{AllocError, Global};

/// Appends a line for each reason of these faults, in the order of their first faults: which steps may fix such a fault, and what
/// to ask the vendor for.
pub(crate) fn push_remedies(
    alloc: Global,
    faults: &FaultList,
    text: &mut String,
) -> Result<(), AllocError>
    ensures { OnOk result (string_bytes text.new ≡ string_bytes text.old ++ text_of_lines (remedy_lines faults.now)) }
{
    let mut told = Vec::new(alloc);
    for fault in faults.iter() {
        push_remedy(fault, &mut told, text)?;
    }
    Ok(())
}

// Appends the line about the reason of a fault, if that is not told yet.
fn push_remedy(fault: &Fault, told: &mut Vec<u8>, text: &mut String) -> Result<(), AllocError>
    ensures { OnOk result ((rest : List Fault) → string_bytes text.new ++ text_of_lines (remedies_beyond told.new.items rest)
        ≡ string_bytes text.old ++ text_of_lines (remedies_beyond told.old.items (fault.now ∷ rest))) }
{
    let number = number_of(&fault.reason);
    if told.contains(&number) {
        return Ok(());
    }
    told.push(number)?;
    text.push_str(remedy_front(&fault.reason))?;
    text.push_str(remedy_letter(&fault.reason))?;
    text.push('\n')
}

// Returns the front of the line about a reason: its number, its words, and the steps that may fix it.
fn remedy_front(reason: &Reason) -> &'static str
    ensures { result.now ≡ remedy_front reason.now }
{
    match reason {
        // The table of the steps is written by tests/pages/tables.py.
        Reason::WrongKind => {
            "reason 1 (wrong kind): steps that may fix it: nulls, kinds; otherwise ask the vendor: "
        }
        Reason::MissingMember(_) => {
            "reason 2 (missing member): steps that may fix it: class-names; otherwise ask the vendor: "
        }
        Reason::WrongClassText => {
            "reason 3 (wrong class): steps that may fix it: class-names, devices; otherwise ask the vendor: "
        }
        Reason::NotWhole => {
            "reason 4 (not a whole number): steps that may fix it: coordinates, whole-numbers; otherwise ask the vendor: "
        }
        Reason::OutsideProfile => {
            "reason 5 (outside the profile): steps that may fix it: outside, counts; otherwise ask the vendor: "
        }
        Reason::UnknownReference => {
            "reason 6 (unknown reference): steps that may fix it: vendor-identifiers, vendor-texts; otherwise ask the vendor: "
        }
        Reason::CarriedIdentity => {
            "reason 7 (carried identity): steps that may fix it: stray-ids, vendor-texts; otherwise ask the vendor: "
        }
        Reason::NotPreElection => "reason 8 (not pre-election): no step fixes it; ask the vendor: ",
        Reason::ElectionCount => {
            "reason 9 (wrong number of elections): no step fixes it; ask the vendor: "
        }
        Reason::EmptyArray => {
            "reason 10 (empty array): steps that may fix it: unused-styles, empty-texts; otherwise ask the vendor: "
        }
        Reason::Repeated => {
            "reason 11 (repeated): steps that may fix it: repeated; otherwise ask the vendor: "
        }
        Reason::NoIdentifier => {
            "reason 12 (no external identifier): steps that may fix it: vendor-identifiers, unused-persons, names; otherwise ask the vendor: "
        }
        Reason::TwinIdentifier => {
            "reason 13 (identifier used twice): steps that may fix it: town-codes, county-codes, shared-codes, write-in-candidates, codes; otherwise ask the vendor: "
        }
        Reason::DuplicateId => {
            "reason 14 (@id used twice): steps that may fix it: unused-ids, twin-ids; otherwise ask the vendor: "
        }
        Reason::Unresolved => {
            "reason 15 (unresolved reference): steps that may fix it: gone-candidates; otherwise ask the vendor: "
        }
        Reason::WrongFamily => {
            "reason 16 (reference to another family): no step fixes it; ask the vendor: "
        }
        Reason::SelectionOfOtherContest => {
            "reason 17 (selection of another contest): no step fixes it; ask the vendor: "
        }
        Reason::TwinSelection => {
            "reason 18 (selection name used twice): steps that may fix it: write-in-lines, party-lines; otherwise ask the vendor: "
        }
    }
}

// Returns what to ask the vendor for.
fn remedy_letter(reason: &Reason) -> &'static str
    ensures { result.now ≡ remedy_letter reason.now }
{
    match reason {
        // The table of the letters is written by tests/pages/tables.py.
        Reason::WrongKind => {
            "Write numbers and truth values without quotes, texts and codes with quotes, and a list even for one entry. Leave out what has no value."
        }
        Reason::MissingMember(_) => "Write the member that is missing. The standard requires it.",
        Reason::WrongClassText => {
            "Write the class with its prefix, as in ElectionResults.ReportingUnit, and only one that the standard has there. Leave machines out."
        }
        Reason::NotWhole => "Write whole numbers. Leave coordinates out, or write them as texts.",
        Reason::OutsideProfile => {
            "Leave out counts, registered voters, groups of offices, and who runs the election."
        }
        Reason::UnknownReference => {
            "Only the standard's references end in Id or Ids. Make a number of your database one more ExternalIdentifier, or give the member another name."
        }
        Reason::CarriedIdentity => {
            "Leave out an @id where the standard has none. Give a member of your own a name that does not end in Id or Ids."
        }
        Reason::NotPreElection => {
            "Send the definition from before the election, with the Status pre-election. This is another report."
        }
        Reason::ElectionCount => "Send the report with its election.",
        Reason::EmptyArray => {
            "Write what belongs into the list. The standard requires an entry. If the object is not used, leave it out."
        }
        Reason::Repeated => "Write each entry of a set once. If another one was meant, write that.",
        Reason::NoIdentifier => {
            "Give each unit, party, person, office, header, candidate, contest and ballot style an ExternalIdentifier."
        }
        Reason::TwinIdentifier => {
            "Give each object an identifier that no other object of its sort has. Put the county, party or election in front of numbers that begin again."
        }
        Reason::DuplicateId => "Give each object an @id that no other object has.",
        Reason::Unresolved => {
            "Write the object that is named, or leave it out of every list that names it."
        }
        Reason::WrongFamily => {
            "Let each reference name an object of the sort that the standard asks for."
        }
        Reason::SelectionOfOtherContest => {
            "Let each contest on a ballot list its own lines, and none of another contest."
        }
        Reason::TwinSelection => {
            "Number the write-in lines of a contest with SequenceOrder. Give the lines of one candidate for several parties an ExternalIdentifier each."
        }
    }
}
