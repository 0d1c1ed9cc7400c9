//! Edits of reports.
use crate::tests::vectors::{
    ONE_UNIT, ONE_UNIT_CANONICAL, OTHER_ENVELOPE, OTHER_VENDOR, SMALL_BALLOT,
    SMALL_BALLOT_CANONICAL,
};
use serde_json::Value;
use std::alloc::{AllocError, Global};
use std::test::Fail;

// A text and its replacement. Both may have marks.
pub type Edit = (&'static str, &'static str);

// The text that edits begin with. A table names it, so that what is proved of a table does not hold the text once for each row.
#[derive(Clone, Copy)]
pub enum Base {
    OneUnit,
    OneUnitCanonical,
    OtherEnvelope,
    OtherVendor,
    SmallBallot,
    SmallBallotCanonical,
    Text(&'static str),
}

impl Base {
    fn text(self) -> &'static str {
        match self {
            Base::OneUnit => ONE_UNIT,
            Base::OneUnitCanonical => ONE_UNIT_CANONICAL,
            Base::OtherEnvelope => OTHER_ENVELOPE,
            Base::OtherVendor => OTHER_VENDOR,
            Base::SmallBallot => SMALL_BALLOT,
            Base::SmallBallotCanonical => SMALL_BALLOT_CANONICAL,
            Base::Text(text) => text,
        }
    }
}

// The value of this text.
pub fn value_of(alloc: Global, text: &str) -> Result<Value, Fail> {
    Ok(Value::from_str(alloc, text)?)
}

// A text, and edits of it.
pub type Edited = (Base, &'static [Edit]);

// Texts without edits.
pub const UNIT_REPORT: Edited = (Base::OneUnit, &[]);

pub const UNIT_FORM: Edited = (Base::OneUnitCanonical, &[]);

pub const BALLOT: Edited = (Base::SmallBallot, &[]);

pub const BALLOT_FORM: Edited = (Base::SmallBallotCanonical, &[]);

pub const VENDOR_BALLOT: Edited = (Base::OtherVendor, &[]);

// The text with its edits.
pub fn made(alloc: Global, (base, edits): (Base, &[Edit])) -> Result<String, Fail> {
    let text = spelled(alloc, base.text())?;
    changed(alloc, text.as_str(), edits)
}

// The text with the first `from` of each edit replaced, one edit after another.
pub fn changed(alloc: Global, text: &str, edits: &[Edit]) -> Result<String, Fail> {
    let mut whole = String::from_str(alloc, text)?;
    for (from, to) in edits {
        let from = spelled(alloc, from)?;
        let to = spelled(alloc, to)?;
        whole = edited(alloc, whole.as_str(), from.as_str(), to.as_str())?;
    }
    Ok(whole)
}

// The text with the first `from` replaced.
pub fn edited(alloc: Global, text: &str, from: &str, to: &str) -> Result<String, Fail> {
    let (before, after) = text.split_once(from).ok_or("no such text")?;
    Ok(format!(in alloc; "{before}{to}{after}")?)
}

// The text with its marks filled. `%` stands for the prefix of class names, and `#U1&` for one identifier of the type
// `local-level` with the value `U1`.
pub fn spelled(alloc: Global, text: &str) -> Result<String, AllocError> {
    let text = text.replace(
        alloc,
        '#',
        "\"ExternalIdentifier\":[{\"@type\":\"%ExternalIdentifier\",\"Type\":\"local-level\",\"Value\":\"",
    )?;
    let text = text.replace(alloc, '&', "\"}]")?;
    text.replace(alloc, '%', "ElectionResults.")
}
