//! Differences between reports, and the lines that describe them.

ghost use Rattle.std.specs.Prelude.{◌≡◌, string_bytes, option_copied, IfOk};
ghost use Rattle.erd_compare.specs.Words.{string, view, Member, difference_line, how_text, key_as_json, key_text, part_text};

use erd_meaning::Key;
use erd_tables::Text;
use serde_json::Value;
use std::alloc::{AllocError, Global};

/// A part of a report: the report itself, its elections, or one of the eight families of objects with keys. Parts are
/// compared in this order.
#[derive(Clone, Copy, Debug, PartialEq, Eq, PartialOrd, Ord)]
pub enum Part {
    /// The report itself. It has no key.
    Report,
    /// The units, which are ReportingUnit objects.
    Unit,
    /// The parties, which are Party and Coalition objects.
    Party,
    /// The persons, which are Person objects.
    Person,
    /// The offices, which are Office objects.
    Office,
    /// The headers, which are Header objects.
    Header,
    /// The elections. The only election of a report may have no key.
    Election,
    /// The candidates, which are Candidate objects.
    Candidate,
    /// The contests, of any of the four classes of contest.
    Contest,
    /// The ballot styles, which are BallotStyle objects.
    Style,
}

/// How two reports differ at a part and, if the object there has one, at a key.
#[derive(Debug, Drop)]
pub enum How {
    /// Only the left report has the object.
    OnlyLeft,
    /// Only the right report has the object.
    OnlyRight,
    /// The two objects have different classes.
    OtherClass,
    /// The objects have the same class and differ in the member with this name. If the keys of the elections that hold them
    /// differ, `ElectionId` is such a name.
    Member(Text),
}

impl How {
    /// Returns that two objects differ in the member with this name.
    pub(crate) fn in_member(alloc: Global, name: &str) -> Result<How, AllocError>
        ensures { IfOk result (λ how. how ≡ Member name.now) }
    {
        let name = String::from_str(alloc, name)?;
        Ok(How::Member(Text::of(name)))
    }
}

/// A difference between two reports.
#[derive(Debug, Drop)]
pub struct Difference {
    /// The part of the report that differs.
    pub part: Part,
    /// The key of the object that differs. It is `None` for the report and for an election without external identifiers.
    pub key: Option<Key>,
    /// How the reports differ there.
    pub how: How,
}

impl Difference {
    /// Returns the line that describes the difference, without a line feed: the part in lower case; if there is a key, a
    /// space and the compact JSON array of its three texts; a colon and a space; then `only left`, `only right`, `other
    /// class`, or `member ` and the name of the member as a JSON string.
    ///
    /// # Errors
    ///
    /// `AllocError` if out of memory.
    ///
    /// ```
    /// assert_eq!(rt; difference.line(alloc)?.as_str(), "election: member \"Name\"");
    /// ```
    pub fn line(&self, alloc: Global) -> Result<String, AllocError>
        ensures { IfOk result (λ line. string_bytes line ≡ difference_line self.now) }
    {
        let part = part_words(self.part);
        let key = key_words(alloc, self.key.as_ref())?;
        let how = how_words(alloc, &self.how)?;
        format!(in alloc; "{part}{key}: {how}")
    }
}

/// Returns the word for a part.
pub(crate) fn part_words(part: Part) -> &'static str
    ensures { result.now ≡ part_text part }
{
    match part {
        Part::Report => "report",
        Part::Unit => "unit",
        Part::Party => "party",
        Part::Person => "person",
        Part::Office => "office",
        Part::Header => "header",
        Part::Election => "election",
        Part::Candidate => "candidate",
        Part::Contest => "contest",
        Part::Style => "style",
    }
}

/// Returns a space and the key as JSON, or the empty text if there is no key.
fn key_words(alloc: Global, key: Option<&Key>) -> Result<String, AllocError>
    ensures { IfOk result (λ words. string_bytes words ≡ key_text (option_copied key.entry)) }
{
    match key {
        Some(key) => {
            let json = key_value(alloc, key)?.to_string(alloc)?;
            format!(in alloc; " {json}")
        }
        None => Ok(String::new(alloc)),
    }
}

/// Returns the words for how two reports differ. The name of a member is written as JSON.
fn how_words(alloc: Global, how: &How) -> Result<String, AllocError>
    ensures { IfOk result (λ words. string_bytes words ≡ how_text how.now) }
{
    match how {
        How::OnlyLeft => String::from_str(alloc, "only left"),
        How::OnlyRight => String::from_str(alloc, "only right"),
        How::OtherClass => String::from_str(alloc, "other class"),
        How::Member(name) => {
            let json = string_value(alloc, name)?.to_string(alloc)?;
            format!(in alloc; "member {json}")
        }
    }
}

/// Returns the three texts of a key as a JSON array.
pub(crate) fn key_value(alloc: Global, key: &Key) -> Result<Value, AllocError>
    ensures { IfOk result (λ value. view value ≡ key_as_json key.now) }
{
    let kind = string_value(alloc, &key.kind)?;
    let other = string_value(alloc, &key.other)?;
    let value = string_value(alloc, &key.value)?;
    let texts = vec![in alloc; kind, other, value]?;
    Ok(Value::Array(texts))
}

/// Returns a text as a JSON value.
fn string_value(alloc: Global, text: &Text) -> Result<Value, AllocError>
    ensures { IfOk result (λ value. view value ≡ string text.now) }
{
    let copy = String::from_str(alloc, text.as_str())?;
    Ok(Value::String(copy))
}
