ghost use Rattle.std.specs.Prelude.{◌≡◌, ◌++◌, ◌||◌, false, map, codes, string_bytes, IfOk, OnOk};
ghost use Rattle.std.specs.List.{list_any};
ghost use Rattle.std.specs.Str.{bytes_eq};
ghost use Rattle.serde_json.specs.View.{members_view, view};
ghost use Rattle.serde_json.specs.Written.{has_float, members_have_float};
ghost use Rattle.erd_text.specs.Tokens.{members_tokens, value_tokens};
ghost use Rattle.erd_shown.specs.Shown.{shown_members};
ghost use Rattle.erd_shown.specs.BallotWords.{is_word, word_value, words_data, words_in_class, printed_members, words_text};
ghost use Rattle.erd_shown.specs.code.Writing.{member_told};

use crate::contests_and_headers::is_carried;
use crate::members::write_plain_member;
use crate::texts::text_of;
use erd_check::values::class_of_object;
use erd_meaning::Report;
use erd_tables::{Class, Family, Role};
use erd_text::Output;
use serde_json::{Map, Value};
use std::alloc::{AllocError, Global};

/// Returns what ballots print of an object of the family, as compact JSON.
pub(crate) fn words_text(
    alloc: Global,
    report: &Report,
    family: Family,
    object: &Value,
) -> Result<String, AllocError>
    ensures { IfOk result (λ text. has_float (view object.now) ≡ false → string_bytes text ≡ words_text report.now.prefer (view report.now.tree)
        family (view object.now)) }
{
    let mut out = Output::new(alloc);
    write_words(alloc, report, family, object, &mut out)?;
    text_of(out)
}

/// Writes what ballots print of an object of the family, or null if its class is not of the family.
pub(crate) fn write_words(
    alloc: Global,
    report: &Report,
    family: Family,
    object: &Value,
    out: &mut Output,
) -> Result<(), AllocError>
    ensures { OnOk result (has_float (view object.now) ≡ false → out.new ≡ out.old
        ++ value_tokens (words_data report.now.prefer (view report.now.tree) family (view object.now))) }
{
    match class_of_object(Role::OfFamily(family), object) {
        Some(class) => write_words_in_class(alloc, report, class, object, out),
        None => out.null(),
    }
}

/// Writes what ballots print of an object of the class.
pub(crate) fn write_words_in_class(
    alloc: Global,
    report: &Report,
    class: Class,
    object: &Value,
    out: &mut Output,
) -> Result<(), AllocError>
    ensures { OnOk result (has_float (view object.now) ≡ false → out.new ≡ out.old
        ++ value_tokens (words_in_class report.now.prefer (view report.now.tree) class (view object.now))) }
{
    out.begin_object()?;
    match object {
        Value::Object(members) => write_words_in(alloc, report, class, members, out),
        _ => out.end_object(),
    }
}

/// Writes the members that ballots print, and the end of the object.
fn write_words_in(
    alloc: Global,
    report: &Report,
    class: Class,
    members: &Map<String, Value>,
    out: &mut Output,
) -> Result<(), AllocError>
    ensures { OnOk result (members_have_float (members_view members.now.entries) ≡ false
        → out.new ≡ out.old ++ members_tokens (shown_members (word_value report.now.prefer (view report.now.tree) class) (members_view members.now.entries))) }
{
    for (name, member) in members.iter() {
        let name = name.as_str();
        write_word(alloc, report, class, name, member, out)?;
    }
    out.end_object()
}

/// Writes a member, if ballots print it.
fn write_word(
    alloc: Global,
    report: &Report,
    class: Class,
    name: &str,
    member: &Value,
    out: &mut Output,
) -> Result<(), AllocError>
    ensures { OnOk result (has_float (view member.now) ≡ false
        → out.new ≡ out.old ++ member_told name.now (word_value report.now.prefer (view report.now.tree) class name.now (view member.now))) }
{
    if is_word(class, name) {
        write_plain_member(alloc, report, class, name, member, out)
    } else {
        Ok(())
    }
}

/// Returns whether ballots print, or may print, a member with this name of an object of the class.
fn is_word(class: Class, name: &str) -> bool
    ensures { result ≡ is_word class name.now }
{
    is_listed(printed_members(class), name) || is_carried(Some(class), name)
}

/// Returns whether a name is among these.
fn is_listed(names: &[&str], name: &str) -> bool
    ensures { result ≡ list_any (bytes_eq name.now) (map (λ s. s.now) names.now) }
{
    for listed in names {
        if name == *listed {
            return true;
        }
    }
    false
}

/// Returns the members of an object of the class that ballots print, or may print.
fn printed_members(class: Class) -> &'static [&'static str]
    ensures { map (λ s. s.now) result.now ≡ printed_members class }
{
    match class {
        Class::ReportingUnit => &["Name", "Number", "Type", "OtherType", "ComposingGpUnitIds"],
        Class::Party => &["Name", "Abbreviation", "Slogan"],
        Class::Coalition => &[
            "Name",
            "Abbreviation",
            "Slogan",
            "ContestId",
            "ContestIds",
            "PartyIds",
        ],
        Class::Person => &[
            "FullName",
            "FirstName",
            "LastName",
            "Title",
            "Profession",
            "PartyId",
        ],
        Class::Office => &["Name", "Description", "ElectionDistrictId", "IsPartisan"],
        Class::Header => &["Name"],
        Class::Election => &[
            "Name",
            "StartDate",
            "EndDate",
            "Type",
            "OtherType",
            "ElectionScopeId",
        ],
        Class::Candidate => &[
            "BallotName",
            "PartyId",
            "CampaignSlogan",
            "IsIncumbent",
            "IsTopTicket",
            "PersonId",
            "PreElectionStatus",
        ],
        Class::PartyContest => &[
            "Name",
            "BallotTitle",
            "BallotSubTitle",
            "VoteVariation",
            "OtherVoteVariation",
            "HasRotation",
            "Abbreviation",
            "ElectionDistrictId",
        ],
        Class::CandidateContest => &[
            "VotesAllowed",
            "PrimaryPartyIds",
            "NumberElected",
            "OfficeIds",
            "Name",
            "BallotTitle",
            "BallotSubTitle",
            "VoteVariation",
            "OtherVoteVariation",
            "HasRotation",
            "Abbreviation",
            "ElectionDistrictId",
        ],
        Class::BallotMeasureContest => &[
            "SummaryText",
            "FullText",
            "ProStatement",
            "ConStatement",
            "EffectOfAbstain",
            "PassageThreshold",
            "Type",
            "OtherType",
            "Name",
            "BallotTitle",
            "BallotSubTitle",
            "VoteVariation",
            "OtherVoteVariation",
            "HasRotation",
            "Abbreviation",
            "ElectionDistrictId",
        ],
        Class::RetentionContest => &[
            "CandidateId",
            "OfficeId",
            "SummaryText",
            "FullText",
            "ProStatement",
            "ConStatement",
            "EffectOfAbstain",
            "PassageThreshold",
            "Type",
            "OtherType",
            "Name",
            "BallotTitle",
            "BallotSubTitle",
            "VoteVariation",
            "OtherVoteVariation",
            "HasRotation",
            "Abbreviation",
            "ElectionDistrictId",
        ],
        Class::CandidateSelection => &[
            "SequenceOrder",
            "CandidateIds",
            "EndorsementPartyIds",
            "IsWriteIn",
        ],
        Class::BallotMeasureSelection => &["SequenceOrder", "Selection"],
        Class::PartySelection => &["SequenceOrder", "PartyIds"],
        _ => &[],
    }
}
