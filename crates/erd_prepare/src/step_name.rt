//! The steps by their names, in the order in which they are done.
ghost use Rattle.std.specs.Prelude.{◌≡◌, [], Some, IfOk};
ghost use Rattle.std.specs.Str.{bytes_eq};
ghost use Rattle.serde_json.specs.View.{view};
ghost use Rattle.erd_prepare.specs.StepWords.{step_named, name_of_step};
ghost use Rattle.erd_prepare.specs.Steps.{IsNamedStepDone};

use crate::area_codes::{put_counties_in_front, put_towns_in_front};
use crate::class_names::write_class_names;
use crate::codes::tell_codes_apart;
use crate::devices::take_out_devices;
use crate::engine::Done;
use crate::gone_candidates::take_out_gone_candidates;
use crate::kinds::write_kinds;
use crate::left_behind::{name_all, take_out_counts, take_out_empty_texts};
use crate::local::{Local, take_out};
use crate::nulls::take_out_nulls;
use crate::other_codes::take_out_other_codes;
use crate::party_lines::name_party_lines;
use crate::persons::take_out_unused_persons;
use crate::repeated::take_out_repeated;
use crate::shared_codes::take_out_shared_codes;
use crate::styles::take_out_unused_styles;
use crate::twin_ids::tell_ids_apart;
use crate::unused_ids::take_out_unused_ids;
use crate::vendor_identifiers::take_vendor_identifiers;
use crate::vendor_texts::rename_vendor_members;
use crate::whole_numbers::write_whole_numbers;
use crate::write_in_candidates::number_write_in_candidates;
use crate::write_in_lines::number_write_in_lines;
use serde_json::Value;
use std::alloc::{AllocError, Global};

/// A step, by its name.
#[derive(Clone, Copy, PartialEq, Eq)]
pub enum StepName {
    /// Writes the class of each object whose class is plain from its place.
    ClassNames,
    /// Takes out each member whose value is null.
    Nulls,
    /// Gives values of the wrong kind the right one, where there is but one right form.
    Kinds,
    /// Takes out each `@id` that several objects have and to which nothing refers.
    UnusedIds,
    /// Puts the family in front of each `@id` that objects of several families have.
    TwinIds,
    /// Takes out what is on no ballot: groups of offices, administration and registration.
    Outside,
    /// Takes out vote counts of zero.
    Counts,
    /// Takes machines out of the units.
    Devices,
    /// Takes out coordinates.
    Coordinates,
    /// Writes numbers that are whole without a fraction.
    WholeNumbers,
    /// Takes out each `@id` where none belongs.
    StrayIds,
    /// Makes the number of an object in its vendor's database its identifier, where it has none.
    VendorIdentifiers,
    /// Gives members of a vendor's own that are named as references are a name that ends in `Code`.
    VendorTexts,
    /// Takes out entries that a set has twice.
    Repeated,
    /// Takes out members that no ballot shows.
    Unseen,
    /// Takes out truth values that are false.
    FalseFlags,
    /// Takes out identifiers of the type `other`, where an object has one of another type.
    OtherCodes,
    /// Takes out lines of candidates who are gone. A voter no longer sees them.
    GoneCandidates,
    /// Takes out ballot styles of no unit.
    UnusedStyles,
    /// Takes out persons to whom nothing refers.
    UnusedPersons,
    /// Takes out lists without an entry.
    EmptyLists,
    /// Takes out labels without a translation.
    EmptyTexts,
    /// Gives objects without an identifier their name as one.
    Names,
    /// Puts the code of the town in front of numbers that begin again in each town of a county.
    TownCodes,
    /// Puts the code of the county in front of numbers that begin again in each county.
    CountyCodes,
    /// Takes out identifiers that several objects share.
    SharedCodes,
    /// Numbers the candidates of write-in lines who have one code in one contest.
    WriteInCandidates,
    /// Puts what tells objects apart in front of codes that several of them have.
    Codes,
    /// Numbers the write-in lines of a contest among themselves, in their order on the ballots.
    WriteInLines,
    /// Gives the lines of one candidate for several parties the codes of the parties.
    PartyLines,
}

/// The steps, in the order in which they are done.
pub const STEPS: [StepName; 30] = [
    StepName::ClassNames,
    StepName::Nulls,
    StepName::Kinds,
    StepName::UnusedIds,
    StepName::TwinIds,
    StepName::Outside,
    StepName::Counts,
    StepName::Devices,
    StepName::Coordinates,
    StepName::WholeNumbers,
    StepName::StrayIds,
    StepName::VendorIdentifiers,
    StepName::VendorTexts,
    StepName::Repeated,
    StepName::Unseen,
    StepName::FalseFlags,
    StepName::OtherCodes,
    StepName::GoneCandidates,
    StepName::UnusedStyles,
    StepName::UnusedPersons,
    StepName::EmptyLists,
    StepName::EmptyTexts,
    StepName::Names,
    StepName::TownCodes,
    StepName::CountyCodes,
    StepName::SharedCodes,
    StepName::WriteInCandidates,
    StepName::Codes,
    StepName::WriteInLines,
    StepName::PartyLines,
];

impl StepName {
    /// Returns the step of this name, if there is one.
    pub fn named(name: &str) -> Option<StepName>
        ensures { result ≡ step_named name.now }
    {
        for step in STEPS {
            if step.has_name(name) {
                return Some(step);
            }
        }
        None
    }

    /// Returns whether this is the name of the step.
    fn has_name(self, name: &str) -> bool
        ensures { result ≡ bytes_eq (name_of_step self) name.now }
    {
        self.text() == name
    }

    /// Returns the name by which a caller chooses the step.
    pub fn text(self) -> &'static str
        ensures { result.now ≡ name_of_step self }
    {
        match self {
            StepName::ClassNames => "class-names",
            StepName::Nulls => "nulls",
            StepName::Kinds => "kinds",
            StepName::UnusedIds => "unused-ids",
            StepName::TwinIds => "twin-ids",
            StepName::Outside => "outside",
            StepName::Counts => "counts",
            StepName::Devices => "devices",
            StepName::Coordinates => "coordinates",
            StepName::WholeNumbers => "whole-numbers",
            StepName::StrayIds => "stray-ids",
            StepName::VendorIdentifiers => "vendor-identifiers",
            StepName::VendorTexts => "vendor-texts",
            StepName::Repeated => "repeated",
            StepName::Unseen => "unseen",
            StepName::FalseFlags => "false-flags",
            StepName::OtherCodes => "other-codes",
            StepName::GoneCandidates => "gone-candidates",
            StepName::UnusedStyles => "unused-styles",
            StepName::UnusedPersons => "unused-persons",
            StepName::EmptyLists => "empty-lists",
            StepName::EmptyTexts => "empty-texts",
            StepName::Names => "names",
            StepName::TownCodes => "town-codes",
            StepName::CountyCodes => "county-codes",
            StepName::SharedCodes => "shared-codes",
            StepName::WriteInCandidates => "write-in-candidates",
            StepName::Codes => "codes",
            StepName::WriteInLines => "write-in-lines",
            StepName::PartyLines => "party-lines",
        }
    }
}

/// Does a step on a report, which stays as it is. Whatever the step does, all of it is told, and nothing else changes. Where
/// `rule_of` has the rule of the step, it does exactly that.
///
/// # Errors
///
/// `AllocError` if out of memory.
pub fn do_step(alloc: Global, step: StepName, report: &Value) -> Result<Done, AllocError>
    ensures done { IfOk result (IsNamedStepDone step (view report.now)) }
{
    match step {
        StepName::ClassNames => write_class_names(alloc, report),
        StepName::Nulls => take_out_nulls(alloc, report),
        StepName::Kinds => write_kinds(alloc, report),
        StepName::UnusedIds => take_out_unused_ids(alloc, report),
        StepName::TwinIds => tell_ids_apart(alloc, report),
        StepName::Outside => take_out(alloc, Local::Outside, report),
        StepName::Counts => take_out_counts(alloc, report),
        StepName::Devices => take_out_devices(alloc, report),
        StepName::Coordinates => take_out(alloc, Local::Coordinates, report),
        StepName::WholeNumbers => write_whole_numbers(alloc, report),
        StepName::StrayIds => take_out(alloc, Local::StrayIds, report),
        StepName::VendorIdentifiers => take_vendor_identifiers(alloc, report),
        StepName::VendorTexts => rename_vendor_members(alloc, report),
        StepName::Repeated => take_out_repeated(alloc, report),
        StepName::Unseen => take_out(alloc, Local::Unseen, report),
        StepName::FalseFlags => take_out(alloc, Local::FalseFlags, report),
        StepName::OtherCodes => take_out_other_codes(alloc, report),
        StepName::GoneCandidates => take_out_gone_candidates(alloc, report),
        StepName::UnusedStyles => take_out_unused_styles(alloc, report),
        StepName::UnusedPersons => take_out_unused_persons(alloc, report),
        StepName::EmptyLists => take_out(alloc, Local::EmptyLists, report),
        StepName::EmptyTexts => take_out_empty_texts(alloc, report),
        StepName::Names => name_all(alloc, report),
        StepName::TownCodes => put_towns_in_front(alloc, report),
        StepName::CountyCodes => put_counties_in_front(alloc, report),
        StepName::SharedCodes => take_out_shared_codes(alloc, report),
        StepName::WriteInCandidates => number_write_in_candidates(alloc, report),
        StepName::Codes => tell_codes_apart(alloc, report),
        StepName::WriteInLines => number_write_in_lines(alloc, report),
        StepName::PartyLines => name_party_lines(alloc, report),
    }
}
