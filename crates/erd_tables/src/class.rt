//! Classes, families and roles, and the `@type` texts of the classes.
ghost use Rattle.std.specs.Prelude.{◌≡◌};
ghost use Rattle.erd_tables.specs.Classes.{text_of_class, class_of_text, family_of_class, role_of_class, class_in_role, NamesItsClass};

/// A class of a pre-election report in NIST SP 1500-100 version 2. The profile (docs/PROFILE.md) covers these 22 classes.
#[derive(Clone, Copy, Debug, PartialEq, Eq, PartialOrd, Ord, Hash)]
pub enum Class {
    /// The report: the root of the JSON value.
    ElectionReport,
    /// An election: an entry of `Election` of the report.
    Election,
    /// A geographic or political unit, such as a precinct: an entry of `GpUnit` of the report.
    ReportingUnit,
    /// A party: an entry of `Party` of the report.
    Party,
    /// A coalition of parties: an entry of `Party` of the report. The class extends Party.
    Coalition,
    /// A person: an entry of `Person` of the report.
    Person,
    /// An office: an entry of `Office` of the report.
    Office,
    /// A header for ballots: an entry of `Header` of the report.
    Header,
    /// A candidate: an entry of `Candidate` of an election.
    Candidate,
    /// A contest between candidates: an entry of `Contest` of an election.
    CandidateContest,
    /// A contest on a ballot measure: an entry of `Contest` of an election.
    BallotMeasureContest,
    /// A contest on whether an office holder stays in office: an entry of `Contest` of an election. The class extends
    /// BallotMeasureContest.
    RetentionContest,
    /// A contest between parties: an entry of `Contest` of an election.
    PartyContest,
    /// A choice of candidates: an entry of `ContestSelection` of a contest.
    CandidateSelection,
    /// An answer to a ballot measure: an entry of `ContestSelection` of a contest.
    BallotMeasureSelection,
    /// A choice of parties: an entry of `ContestSelection` of a contest.
    PartySelection,
    /// A ballot style: an entry of `BallotStyle` of an election.
    BallotStyle,
    /// A contest on a ballot: an entry of `OrderedContent` of a BallotStyle or an OrderedHeader.
    OrderedContest,
    /// A header on a ballot, with what is below it: an entry of `OrderedContent` of a BallotStyle or an OrderedHeader.
    OrderedHeader,
    /// An identifier of an object: an entry of `ExternalIdentifier`.
    ExternalIdentifier,
    /// A text in one or more languages: the value of a label.
    InternationalizedText,
    /// A text in one language: an entry of `Text` of an InternationalizedText.
    LanguageString,
}

/// A family of objects that an `@id` can name. Each reference of the member table is to an object of one family. Families
/// come from the profile (docs/PROFILE.md): the standard has none.
#[derive(Clone, Copy, Debug, PartialEq, Eq, PartialOrd, Ord, Hash)]
pub enum Family {
    /// Class ReportingUnit.
    Unit,
    /// Classes Party and Coalition.
    Party,
    /// Class Person.
    Person,
    /// Class Office.
    Office,
    /// Class Header.
    Header,
    /// Class Candidate.
    Candidate,
    /// Classes CandidateContest, BallotMeasureContest, RetentionContest and PartyContest.
    Contest,
    /// Class BallotStyle.
    Style,
    /// Classes CandidateSelection, BallotMeasureSelection and PartySelection.
    Selection,
}

/// What an object is in a report. Each class has one role, and each place of a report admits the classes of one role. Roles
/// come from the profile (docs/PROFILE.md): the standard has none.
#[derive(Clone, Copy, Debug, PartialEq, Eq)]
pub enum Role {
    /// The report: class ElectionReport.
    Report,
    /// An election: class Election.
    Election,
    /// An object of the family.
    OfFamily(Family),
    /// A contest or a header on a ballot: classes OrderedContest and OrderedHeader.
    Content,
    /// An external identifier: class ExternalIdentifier.
    Identifier,
    /// A label in one or more languages: class InternationalizedText.
    Label,
    /// A text in one language: class LanguageString.
    Language,
}

/// Returns the class that an `@type` text names, or `None` if it names none of the 22. The one text that names a class is
/// `ElectionResults.` followed by the name of the class, byte for byte.
///
/// ```
/// assert_eq!(rt; class_of("ElectionResults.Party"), Some(Class::Party));
/// assert_eq!(rt; class_of("Party"), None);
/// ```
pub fn class_of(text: &str) -> Option<Class>
    ensures value { result ≡ class_of_text text.now }
    ensures exact { NamesItsClass text.now result }
{
    class_from_text(text)
}

#[tactic(auto, using(crate::proofs::Texts::apart))]
fn class_from_text(text: &str) -> Option<Class>
    ensures { result ≡ class_of_text text.now }
{
    match text {
        "ElectionResults.ElectionReport" => Some(Class::ElectionReport),
        "ElectionResults.Election" => Some(Class::Election),
        "ElectionResults.ReportingUnit" => Some(Class::ReportingUnit),
        "ElectionResults.Party" => Some(Class::Party),
        "ElectionResults.Coalition" => Some(Class::Coalition),
        "ElectionResults.Person" => Some(Class::Person),
        "ElectionResults.Office" => Some(Class::Office),
        "ElectionResults.Header" => Some(Class::Header),
        "ElectionResults.Candidate" => Some(Class::Candidate),
        "ElectionResults.CandidateContest" => Some(Class::CandidateContest),
        "ElectionResults.BallotMeasureContest" => Some(Class::BallotMeasureContest),
        "ElectionResults.RetentionContest" => Some(Class::RetentionContest),
        "ElectionResults.PartyContest" => Some(Class::PartyContest),
        "ElectionResults.CandidateSelection" => Some(Class::CandidateSelection),
        "ElectionResults.BallotMeasureSelection" => Some(Class::BallotMeasureSelection),
        "ElectionResults.PartySelection" => Some(Class::PartySelection),
        "ElectionResults.BallotStyle" => Some(Class::BallotStyle),
        "ElectionResults.OrderedContest" => Some(Class::OrderedContest),
        "ElectionResults.OrderedHeader" => Some(Class::OrderedHeader),
        "ElectionResults.ExternalIdentifier" => Some(Class::ExternalIdentifier),
        "ElectionResults.InternationalizedText" => Some(Class::InternationalizedText),
        "ElectionResults.LanguageString" => Some(Class::LanguageString),
        _ => None,
    }
}

/// Returns the `@type` text of a class: `ElectionResults.` followed by the name of the class.
///
/// ```
/// assert_eq!(rt; type_text(Class::Party), "ElectionResults.Party");
/// ```
pub fn type_text(class: Class) -> &'static str
    ensures { result.now ≡ text_of_class class }
{
    match class {
        Class::ElectionReport => "ElectionResults.ElectionReport",
        Class::Election => "ElectionResults.Election",
        Class::ReportingUnit => "ElectionResults.ReportingUnit",
        Class::Party => "ElectionResults.Party",
        Class::Coalition => "ElectionResults.Coalition",
        Class::Person => "ElectionResults.Person",
        Class::Office => "ElectionResults.Office",
        Class::Header => "ElectionResults.Header",
        Class::Candidate => "ElectionResults.Candidate",
        Class::CandidateContest => "ElectionResults.CandidateContest",
        Class::BallotMeasureContest => "ElectionResults.BallotMeasureContest",
        Class::RetentionContest => "ElectionResults.RetentionContest",
        Class::PartyContest => "ElectionResults.PartyContest",
        Class::CandidateSelection => "ElectionResults.CandidateSelection",
        Class::BallotMeasureSelection => "ElectionResults.BallotMeasureSelection",
        Class::PartySelection => "ElectionResults.PartySelection",
        Class::BallotStyle => "ElectionResults.BallotStyle",
        Class::OrderedContest => "ElectionResults.OrderedContest",
        Class::OrderedHeader => "ElectionResults.OrderedHeader",
        Class::ExternalIdentifier => "ElectionResults.ExternalIdentifier",
        Class::InternationalizedText => "ElectionResults.InternationalizedText",
        Class::LanguageString => "ElectionResults.LanguageString",
    }
}

/// Returns the role of the objects of a class.
///
/// ```
/// assert_eq!(rt; role_of(Class::Coalition), Role::OfFamily(Family::Party));
/// ```
pub fn role_of(class: Class) -> Role
    ensures { result ≡ role_of_class class }
{
    match class {
        Class::ElectionReport => Role::Report,
        Class::Election => Role::Election,
        Class::ReportingUnit => Role::OfFamily(Family::Unit),
        Class::Party | Class::Coalition => Role::OfFamily(Family::Party),
        Class::Person => Role::OfFamily(Family::Person),
        Class::Office => Role::OfFamily(Family::Office),
        Class::Header => Role::OfFamily(Family::Header),
        Class::Candidate => Role::OfFamily(Family::Candidate),
        Class::CandidateContest
        | Class::BallotMeasureContest
        | Class::RetentionContest
        | Class::PartyContest => Role::OfFamily(Family::Contest),
        Class::CandidateSelection | Class::BallotMeasureSelection | Class::PartySelection => {
            Role::OfFamily(Family::Selection)
        }
        Class::BallotStyle => Role::OfFamily(Family::Style),
        Class::OrderedContest | Class::OrderedHeader => Role::Content,
        Class::ExternalIdentifier => Role::Identifier,
        Class::InternationalizedText => Role::Label,
        Class::LanguageString => Role::Language,
    }
}

/// Returns the family of the objects of a class, or `None` if no `@id` can name objects of the class.
///
/// ```
/// assert_eq!(rt; family_of(Class::Coalition), Some(Family::Party));
/// assert_eq!(rt; family_of(Class::Election), None);
/// ```
pub fn family_of(class: Class) -> Option<Family>
    ensures { result ≡ family_of_class class }
{
    match role_of(class) {
        Role::OfFamily(family) => Some(family),
        _ => None,
    }
}

/// Returns the class that an `@type` text names if the objects of that class have the role, otherwise `None`.
///
/// ```
/// let candidate = Role::OfFamily(Family::Candidate);
/// assert_eq!(rt; class_in(candidate, "ElectionResults.Candidate"), Some(Class::Candidate));
/// assert_eq!(rt; class_in(candidate, "ElectionResults.Party"), None);
/// ```
pub fn class_in(role: Role, text: &str) -> Option<Class>
    ensures { result ≡ class_in_role role text.now }
{
    let usual = usual_class(role);
    if text == type_text(usual) {
        return Some(usual);
    }
    let class = class_of(text)?;
    if role_of(class) == role {
        Some(class)
    } else {
        None
    }
}

/// Returns the class that most objects with the role have, so its text is compared first.
fn usual_class(role: Role) -> Class
    ensures { role_of_class result ≡ role }
{
    match role {
        Role::Report => Class::ElectionReport,
        Role::Election => Class::Election,
        Role::OfFamily(Family::Unit) => Class::ReportingUnit,
        Role::OfFamily(Family::Party) => Class::Party,
        Role::OfFamily(Family::Person) => Class::Person,
        Role::OfFamily(Family::Office) => Class::Office,
        Role::OfFamily(Family::Header) => Class::Header,
        Role::OfFamily(Family::Candidate) => Class::Candidate,
        Role::OfFamily(Family::Contest) => Class::CandidateContest,
        Role::OfFamily(Family::Style) => Class::BallotStyle,
        Role::OfFamily(Family::Selection) => Class::CandidateSelection,
        Role::Content => Class::OrderedContest,
        Role::Identifier => Class::ExternalIdentifier,
        Role::Label => Class::InternationalizedText,
        Role::Language => Class::LanguageString,
    }
}
