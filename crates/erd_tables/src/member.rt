//! The member table: what is asked of a member, by the class of its object and by its name.
ghost use Rattle.std.specs.Prelude.{◌≡◌, map};
ghost use Rattle.erd_tables.specs.Table.{is_envelope_name, is_reference_name, kind_of_unlisted, kind_of_member, required_names, is_required};

use crate::class::{Class, Family, family_of};
use crate::row_kinds::{envelope_kind, kind_in_table};

/// What the member table (docs/PROFILE.md) asks of a member.
#[derive(Clone, Copy, Debug, PartialEq, Eq)]
pub enum MemberKind {
    /// `@type`.
    ClassText,
    /// `@id` of an object of a family: a JSON string.
    Identity,
    /// A JSON string.
    Word,
    /// A JSON string or an InternationalizedText object.
    Label,
    /// `true` or `false`.
    Flag,
    /// A whole number.
    Whole,
    /// A reference to an object of the family: a JSON string.
    One(Family),
    /// A set of references to objects of the family: an array of JSON strings.
    Many(Family),
    /// A set of ExternalIdentifier objects: an array.
    Identifiers,
    /// A set of LanguageString objects: an array.
    Languages,
    /// An array of objects of the family.
    Keyed(Family),
    /// The array of the report's elections.
    Elections,
    /// What is on a ballot, in order: an array of OrderedContest and OrderedHeader objects.
    Content,
    /// References to selections, in order: an array of JSON strings.
    Ordered,
    /// A member outside the profile. Only `[]` is allowed, which means the same as absence.
    Outside,
    /// A name that the table does not list for the class, and that ends in `Id` or `Ids`. It is refused (reason 6).
    StrangeReference,
    /// An identity where none is allowed, such as `@id` of an object of no family. It is refused (reason 7).
    StrangeIdentity,
    /// Any other member that the table does not list: any JSON value within the rules for carried members.
    Carried,
}

/// Returns what the table asks of the member of this name in an object of the class. If the class has no row for the name,
/// that is `ClassText`, `Identity`, `StrangeIdentity`, `StrangeReference` or `Carried`.
///
/// ```
/// assert_eq!(rt; member_kind(Class::Candidate, "PartyId"), MemberKind::One(Family::Party));
/// assert_eq!(rt; member_kind(Class::Candidate, "Nickname"), MemberKind::Carried);
/// ```
pub fn member_kind(class: Class, name: &str) -> MemberKind
    ensures { result ≡ kind_of_member class name.now }
{
    match kind_in_table(class, name) {
        Some(kind) => kind,
        None => kind_unlisted(class, name),
    }
}

/// Returns `true` if and only if the member of this name in a report belongs to its envelope. The envelope says how the file
/// came about, and is not part of what the report means. docs/PROFILE.md lists its members.
///
/// ```
/// assert!(rt; is_envelope("Issuer"));
/// assert!(rt; !is_envelope("Status"));
/// ```
pub fn is_envelope(name: &str) -> bool
    ensures { result ≡ is_envelope_name name.now }
{
    envelope_kind(name).is_some()
}

/// Returns `true` if and only if a name ends in `Id` or `Ids`, as the names of references do in the standard. Case matters.
///
/// ```
/// assert!(rt; is_reference_form("PartyIds"));
/// assert!(rt; !is_reference_form("PartyID"));
/// ```
pub fn is_reference_form(name: &str) -> bool
    ensures { result ≡ is_reference_name name.now }
{
    let name = name.as_bytes();
    name.ends_with(b"Id") || name.ends_with(b"Ids")
}

fn kind_unlisted(class: Class, name: &str) -> MemberKind
    ensures { result ≡ kind_of_unlisted class name.now }
{
    if name == "@type" {
        MemberKind::ClassText
    } else if name == "@id" {
        match family_of(class) {
            Some(_) => MemberKind::Identity,
            None => MemberKind::StrangeIdentity,
        }
    } else if is_reference_form(name) {
        MemberKind::StrangeReference
    } else {
        MemberKind::Carried
    }
}

/// Returns the names of the members that an object of the class must have besides `@type`, in byte order.
/// `ExternalIdentifier` is never one of them: an object that needs one and has none is refused for reason 12.
///
/// ```
/// assert!(rt; required(Class::LanguageString).contains(&"Content"));
/// ```
pub fn required(class: Class) -> &'static [&'static str]
    ensures { map (λ s. s.now) result.now ≡ required_names class }
{
    match class {
        Class::ElectionReport => &["Election", "Status"],
        Class::Election => &["ElectionScopeId", "EndDate", "Name", "StartDate", "Type"],
        Class::ReportingUnit => &["Type"],
        Class::Party => &["Name"],
        Class::Coalition => &["Name"],
        Class::Person => &[],
        Class::Office => &["Name"],
        Class::Header => &["Name"],
        Class::Candidate => &["BallotName"],
        Class::CandidateContest => &["ElectionDistrictId", "Name", "VotesAllowed"],
        Class::BallotMeasureContest => &["ElectionDistrictId", "Name"],
        Class::RetentionContest => &["CandidateId", "ElectionDistrictId", "Name"],
        Class::PartyContest => &["ElectionDistrictId", "Name"],
        Class::CandidateSelection => &[],
        Class::BallotMeasureSelection => &["Selection"],
        Class::PartySelection => &["PartyIds"],
        Class::BallotStyle => &["GpUnitIds"],
        Class::OrderedContest => &["ContestId"],
        Class::OrderedHeader => &["HeaderId"],
        Class::ExternalIdentifier => &["Type", "Value"],
        Class::InternationalizedText => &["Text"],
        Class::LanguageString => &["Content", "Language"],
    }
}

/// Returns `true` if and only if `required` lists the name for the class.
///
/// ```
/// assert!(rt; is_required_member(Class::Header, "Name"));
/// assert!(rt; !is_required_member(Class::Header, "Color"));
/// ```
pub fn is_required_member(class: Class, name: &str) -> bool
    ensures { result ≡ is_required class name.now }
{
    required(class).contains(&name)
}
