ghost use Rattle.std.specs.Prelude.{◌≡◌};
ghost use Rattle.erd_tables.specs.Rows.{rows_of_class, candidate_contest_rows, candidate_rows, candidate_selection_rows, coalition_rows, contest_rows};
ghost use Rattle.erd_tables.specs.Rows.{election_rows, envelope_rows, header_rows, identifier_rows, label_rows, language_rows, measure_rows};
ghost use Rattle.erd_tables.specs.Rows.{measure_selection_rows, office_rows, ordered_contest_rows, ordered_header_rows, party_rows, party_selection_rows};
ghost use Rattle.erd_tables.specs.Rows.{person_rows, report_rows, retention_rows, selection_rows, style_rows, unit_rows};
ghost use Rattle.erd_tables.specs.Table.{kind_in_rows};

use crate::class::{Class, Family};
use crate::member::MemberKind;

/// Returns the kind in the row that the class has for the name, or `None` if it has none. `@type` and `@id` have no rows.
pub fn kind_in_table(class: Class, name: &str) -> Option<MemberKind>
    ensures { result ≡ kind_in_rows (rows_of_class class) name.now }
{
    match class {
        Class::ElectionReport => report_kind(name),
        Class::Election => election_kind(name),
        Class::ReportingUnit => unit_kind(name),
        Class::Party => party_kind(name),
        Class::Coalition => coalition_kind(name),
        Class::Person => person_kind(name),
        Class::Office => office_kind(name),
        Class::Header => header_kind(name),
        Class::Candidate => candidate_kind(name),
        Class::CandidateContest => candidate_contest_kind(name),
        Class::BallotMeasureContest => measure_kind(name),
        Class::RetentionContest => retention_kind(name),
        Class::PartyContest => contest_kind(name),
        Class::CandidateSelection => candidate_selection_kind(name),
        Class::BallotMeasureSelection => measure_selection_kind(name),
        Class::PartySelection => party_selection_kind(name),
        Class::BallotStyle => style_kind(name),
        Class::OrderedContest => ordered_contest_kind(name),
        Class::OrderedHeader => ordered_header_kind(name),
        Class::ExternalIdentifier => identifier_kind(name),
        Class::InternationalizedText => label_kind(name),
        Class::LanguageString => language_kind(name),
    }
}

/// Returns the kind of the member of this name in the envelope of a report, or `None` if the envelope has no such member.
#[tactic(auto, using(crate::proofs::Texts::apart))]
pub fn envelope_kind(name: &str) -> Option<MemberKind>
    ensures { result ≡ kind_in_rows envelope_rows name.now }
{
    match name {
        "Format" => Some(MemberKind::Word),
        "GeneratedDate" => Some(MemberKind::Word),
        "Issuer" => Some(MemberKind::Word),
        "IssuerAbbreviation" => Some(MemberKind::Word),
        "VendorApplicationId" => Some(MemberKind::Word),
        "Notes" => Some(MemberKind::Word),
        "SequenceStart" => Some(MemberKind::Whole),
        "SequenceEnd" => Some(MemberKind::Whole),
        "ExternalIdentifier" => Some(MemberKind::Identifiers),
        _ => None,
    }
}

#[tactic(auto, using(crate::proofs::Texts::apart))]
fn report_kind(name: &str) -> Option<MemberKind>
    ensures { result ≡ kind_in_rows report_rows name.now }
{
    match name {
        "Status" => Some(MemberKind::Word),
        "IsTest" => Some(MemberKind::Flag),
        "TestType" => Some(MemberKind::Word),
        "Election" => Some(MemberKind::Elections),
        "GpUnit" => Some(MemberKind::Keyed(Family::Unit)),
        "Party" => Some(MemberKind::Keyed(Family::Party)),
        "Person" => Some(MemberKind::Keyed(Family::Person)),
        "Office" => Some(MemberKind::Keyed(Family::Office)),
        "Header" => Some(MemberKind::Keyed(Family::Header)),
        "OfficeGroup" => Some(MemberKind::Outside),
        _ => envelope_kind(name),
    }
}

#[tactic(auto, using(crate::proofs::Texts::apart))]
fn election_kind(name: &str) -> Option<MemberKind>
    ensures { result ≡ kind_in_rows election_rows name.now }
{
    match name {
        "Name" => Some(MemberKind::Label),
        "Type" => Some(MemberKind::Word),
        "OtherType" => Some(MemberKind::Word),
        "StartDate" => Some(MemberKind::Word),
        "EndDate" => Some(MemberKind::Word),
        "ElectionScopeId" => Some(MemberKind::One(Family::Unit)),
        "ExternalIdentifier" => Some(MemberKind::Identifiers),
        "Candidate" => Some(MemberKind::Keyed(Family::Candidate)),
        "Contest" => Some(MemberKind::Keyed(Family::Contest)),
        "BallotStyle" => Some(MemberKind::Keyed(Family::Style)),
        _ => None,
    }
}

#[tactic(auto, using(crate::proofs::Texts::apart))]
fn unit_kind(name: &str) -> Option<MemberKind>
    ensures { result ≡ kind_in_rows unit_rows name.now }
{
    match name {
        "Type" => Some(MemberKind::Word),
        "OtherType" => Some(MemberKind::Word),
        "Name" => Some(MemberKind::Label),
        "Number" => Some(MemberKind::Word),
        "ComposingGpUnitIds" => Some(MemberKind::Many(Family::Unit)),
        "AuthorityIds" => Some(MemberKind::Many(Family::Person)),
        "IsDistricted" => Some(MemberKind::Flag),
        "IsMailOnly" => Some(MemberKind::Flag),
        "ElectionAdministration" => Some(MemberKind::Outside),
        "PartyRegistration" => Some(MemberKind::Outside),
        "ExternalIdentifier" => Some(MemberKind::Identifiers),
        _ => None,
    }
}

#[tactic(auto, using(crate::proofs::Texts::apart))]
fn party_kind(name: &str) -> Option<MemberKind>
    ensures { result ≡ kind_in_rows party_rows name.now }
{
    match name {
        "Name" => Some(MemberKind::Label),
        "Abbreviation" => Some(MemberKind::Label),
        "Slogan" => Some(MemberKind::Label),
        "LeaderPersonIds" => Some(MemberKind::Many(Family::Person)),
        "PartyScopeGpUnitIds" => Some(MemberKind::Many(Family::Unit)),
        "ExternalIdentifier" => Some(MemberKind::Identifiers),
        _ => None,
    }
}

#[tactic(auto, using(crate::proofs::Texts::apart))]
fn coalition_kind(name: &str) -> Option<MemberKind>
    ensures { result ≡ kind_in_rows coalition_rows name.now }
{
    match name {
        "ContestId" => Some(MemberKind::One(Family::Contest)),
        "ContestIds" => Some(MemberKind::Many(Family::Contest)),
        "PartyIds" => Some(MemberKind::Many(Family::Party)),
        _ => party_kind(name),
    }
}

#[tactic(auto, using(crate::proofs::Texts::apart))]
fn person_kind(name: &str) -> Option<MemberKind>
    ensures { result ≡ kind_in_rows person_rows name.now }
{
    match name {
        "FullName" => Some(MemberKind::Label),
        "FirstName" => Some(MemberKind::Word),
        "LastName" => Some(MemberKind::Word),
        "Title" => Some(MemberKind::Label),
        "Profession" => Some(MemberKind::Label),
        "PartyId" => Some(MemberKind::One(Family::Party)),
        "ExternalIdentifier" => Some(MemberKind::Identifiers),
        _ => None,
    }
}

#[tactic(auto, using(crate::proofs::Texts::apart))]
fn office_kind(name: &str) -> Option<MemberKind>
    ensures { result ≡ kind_in_rows office_rows name.now }
{
    match name {
        "Name" => Some(MemberKind::Label),
        "Description" => Some(MemberKind::Label),
        "IsPartisan" => Some(MemberKind::Flag),
        "ElectionDistrictId" => Some(MemberKind::One(Family::Unit)),
        "OfficeHolderPersonIds" => Some(MemberKind::Many(Family::Person)),
        "ExternalIdentifier" => Some(MemberKind::Identifiers),
        _ => None,
    }
}

#[tactic(auto, using(crate::proofs::Texts::apart))]
fn header_kind(name: &str) -> Option<MemberKind>
    ensures { result ≡ kind_in_rows header_rows name.now }
{
    match name {
        "Name" => Some(MemberKind::Label),
        "ExternalIdentifier" => Some(MemberKind::Identifiers),
        _ => None,
    }
}

#[tactic(auto, using(crate::proofs::Texts::apart))]
fn candidate_kind(name: &str) -> Option<MemberKind>
    ensures { result ≡ kind_in_rows candidate_rows name.now }
{
    match name {
        "BallotName" => Some(MemberKind::Label),
        "CampaignSlogan" => Some(MemberKind::Label),
        "FileDate" => Some(MemberKind::Word),
        "IsIncumbent" => Some(MemberKind::Flag),
        "IsTopTicket" => Some(MemberKind::Flag),
        "PartyId" => Some(MemberKind::One(Family::Party)),
        "PersonId" => Some(MemberKind::One(Family::Person)),
        "PreElectionStatus" => Some(MemberKind::Word),
        "ExternalIdentifier" => Some(MemberKind::Identifiers),
        _ => None,
    }
}

#[tactic(auto, using(crate::proofs::Texts::apart))]
fn contest_kind(name: &str) -> Option<MemberKind>
    ensures { result ≡ kind_in_rows contest_rows name.now }
{
    match name {
        "Name" => Some(MemberKind::Label),
        "Abbreviation" => Some(MemberKind::Label),
        "BallotTitle" => Some(MemberKind::Label),
        "BallotSubTitle" => Some(MemberKind::Label),
        "ElectionDistrictId" => Some(MemberKind::One(Family::Unit)),
        "HasRotation" => Some(MemberKind::Flag),
        "VoteVariation" => Some(MemberKind::Word),
        "OtherVoteVariation" => Some(MemberKind::Word),
        "ContestSelection" => Some(MemberKind::Keyed(Family::Selection)),
        "OtherCounts" => Some(MemberKind::Outside),
        "ExternalIdentifier" => Some(MemberKind::Identifiers),
        _ => None,
    }
}

#[tactic(auto, using(crate::proofs::Texts::apart))]
fn candidate_contest_kind(name: &str) -> Option<MemberKind>
    ensures { result ≡ kind_in_rows candidate_contest_rows name.now }
{
    match name {
        "VotesAllowed" => Some(MemberKind::Whole),
        "NumberElected" => Some(MemberKind::Whole),
        "NumberRunoff" => Some(MemberKind::Whole),
        "OfficeIds" => Some(MemberKind::Many(Family::Office)),
        "PrimaryPartyIds" => Some(MemberKind::Many(Family::Party)),
        _ => contest_kind(name),
    }
}

#[tactic(auto, using(crate::proofs::Texts::apart))]
fn measure_kind(name: &str) -> Option<MemberKind>
    ensures { result ≡ kind_in_rows measure_rows name.now }
{
    match name {
        "SummaryText" => Some(MemberKind::Label),
        "FullText" => Some(MemberKind::Label),
        "ProStatement" => Some(MemberKind::Label),
        "ConStatement" => Some(MemberKind::Label),
        "EffectOfAbstain" => Some(MemberKind::Label),
        "PassageThreshold" => Some(MemberKind::Label),
        "Type" => Some(MemberKind::Word),
        "OtherType" => Some(MemberKind::Word),
        _ => contest_kind(name),
    }
}

#[tactic(auto, using(crate::proofs::Texts::apart))]
fn retention_kind(name: &str) -> Option<MemberKind>
    ensures { result ≡ kind_in_rows retention_rows name.now }
{
    match name {
        "CandidateId" => Some(MemberKind::One(Family::Candidate)),
        "OfficeId" => Some(MemberKind::One(Family::Office)),
        _ => measure_kind(name),
    }
}

#[tactic(auto, using(crate::proofs::Texts::apart))]
fn selection_kind(name: &str) -> Option<MemberKind>
    ensures { result ≡ kind_in_rows selection_rows name.now }
{
    match name {
        "SequenceOrder" => Some(MemberKind::Whole),
        "ExternalIdentifier" => Some(MemberKind::Identifiers),
        "VoteCounts" => Some(MemberKind::Outside),
        _ => None,
    }
}

#[tactic(auto, using(crate::proofs::Texts::apart))]
fn candidate_selection_kind(name: &str) -> Option<MemberKind>
    ensures { result ≡ kind_in_rows candidate_selection_rows name.now }
{
    match name {
        "CandidateIds" => Some(MemberKind::Many(Family::Candidate)),
        "EndorsementPartyIds" => Some(MemberKind::Many(Family::Party)),
        "IsWriteIn" => Some(MemberKind::Flag),
        _ => selection_kind(name),
    }
}

#[tactic(auto, using(crate::proofs::Texts::apart))]
fn measure_selection_kind(name: &str) -> Option<MemberKind>
    ensures { result ≡ kind_in_rows measure_selection_rows name.now }
{
    match name {
        "Selection" => Some(MemberKind::Label),
        _ => selection_kind(name),
    }
}

#[tactic(auto, using(crate::proofs::Texts::apart))]
fn party_selection_kind(name: &str) -> Option<MemberKind>
    ensures { result ≡ kind_in_rows party_selection_rows name.now }
{
    match name {
        "PartyIds" => Some(MemberKind::Many(Family::Party)),
        _ => selection_kind(name),
    }
}

#[tactic(auto, using(crate::proofs::Texts::apart))]
fn style_kind(name: &str) -> Option<MemberKind>
    ensures { result ≡ kind_in_rows style_rows name.now }
{
    match name {
        "GpUnitIds" => Some(MemberKind::Many(Family::Unit)),
        "PartyIds" => Some(MemberKind::Many(Family::Party)),
        "OrderedContent" => Some(MemberKind::Content),
        "ExternalIdentifier" => Some(MemberKind::Identifiers),
        _ => None,
    }
}

#[tactic(auto, using(crate::proofs::Texts::apart))]
fn ordered_contest_kind(name: &str) -> Option<MemberKind>
    ensures { result ≡ kind_in_rows ordered_contest_rows name.now }
{
    match name {
        "ContestId" => Some(MemberKind::One(Family::Contest)),
        "OrderedContestSelectionIds" => Some(MemberKind::Ordered),
        _ => None,
    }
}

#[tactic(auto, using(crate::proofs::Texts::apart))]
fn ordered_header_kind(name: &str) -> Option<MemberKind>
    ensures { result ≡ kind_in_rows ordered_header_rows name.now }
{
    match name {
        "HeaderId" => Some(MemberKind::One(Family::Header)),
        "OrderedContent" => Some(MemberKind::Content),
        _ => None,
    }
}

#[tactic(auto, using(crate::proofs::Texts::apart))]
fn identifier_kind(name: &str) -> Option<MemberKind>
    ensures { result ≡ kind_in_rows identifier_rows name.now }
{
    match name {
        "Type" => Some(MemberKind::Word),
        "Value" => Some(MemberKind::Word),
        "OtherType" => Some(MemberKind::Word),
        _ => None,
    }
}

#[tactic(auto, using(crate::proofs::Texts::apart))]
fn label_kind(name: &str) -> Option<MemberKind>
    ensures { result ≡ kind_in_rows label_rows name.now }
{
    match name {
        "Text" => Some(MemberKind::Languages),
        _ => None,
    }
}

#[tactic(auto, using(crate::proofs::Texts::apart))]
fn language_kind(name: &str) -> Option<MemberKind>
    ensures { result ≡ kind_in_rows language_rows name.now }
{
    match name {
        "Language" => Some(MemberKind::Word),
        "Content" => Some(MemberKind::Word),
        _ => None,
    }
}
