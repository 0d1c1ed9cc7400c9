//! Faults, the reasons for them, and the lines that report them.
ghost use Rattle.std.specs.Prelude.{◌≡◌, ◌==◌, ◌++◌, length, slice_get, string_bytes, IfOk};
ghost use Rattle.std.specs.Option.{option_copied};
ghost use Rattle.std.specs.Slice.Iter.{iter_rest};
ghost use Rattle.std.specs.Iterator.Adapters.{IterYieldsInOrder};
ghost use Rattle.erd_tables.specs.Faults.{fault_line, missing_name, reason_text};

use crate::place::{Place, pointer};
use crate::text::Text;
use std::alloc::{AllocError, Global};
use std::marker::Model;
use std::slice::Iter;

/// Why a report is refused. The variants are the reasons 1 to 18 of docs/PROFILE.md, in this order.
#[derive(Debug, Drop)]
pub enum Reason {
    /// The value is not of the JSON kind that the member table asks for.
    WrongKind,
    /// The object lacks the required member of this name.
    MissingMember(Text),
    /// The text of `@type` names no class that is allowed at this place.
    WrongClassText,
    /// The number is not whole. Numbers in whole-number members and in carried values must be whole.
    NotWhole,
    /// The member is outside the profile and is not an empty array.
    OutsideProfile,
    /// The name of the member ends in `Id` or `Ids`, as those of references do, but the member table does not list it.
    UnknownReference,
    /// The member is an identity or a reference where none is allowed.
    CarriedIdentity,
    /// `Status` is a text other than `pre-election`.
    NotPreElection,
    /// `Election` is an empty array. A report needs at least one election.
    ElectionCount,
    /// The array is empty, and must have an entry.
    EmptyArray,
    /// The entry is equal to an earlier entry of its set.
    Repeated,
    /// The object needs a key and has no external identifier.
    NoIdentifier,
    /// The object has the same key as an earlier object of its family, or as an earlier election if it is one.
    TwinIdentifier,
    /// The object has the same `@id` as an earlier object of any family.
    DuplicateId,
    /// No object has the `@id` that the reference names.
    Unresolved,
    /// The object with the `@id` that the reference names is of another family.
    WrongFamily,
    /// The reference names a selection of another contest than the one that `ContestId` beside it names.
    SelectionOfOtherContest,
    /// The selection has the same name as an earlier selection of its contest.
    TwinSelection,
}

impl Reason {
    /// Returns the words for the reason, as the line of a fault has them. Those for a missing member end with a space, and its
    /// name follows.
    ///
    /// ```
    /// assert_eq!(rt; Reason::DuplicateId.words(), "@id used twice");
    /// ```
    pub fn words(&self) -> &'static str
        ensures { result.now ++ missing_name self.now ≡ reason_text self.now }
    {
        match self {
            Reason::WrongKind => "wrong kind",
            Reason::MissingMember(_) => "missing member ",
            Reason::WrongClassText => "wrong class",
            Reason::NotWhole => "not a whole number",
            Reason::OutsideProfile => "outside the profile",
            Reason::UnknownReference => "unknown reference",
            Reason::CarriedIdentity => "carried identity",
            Reason::NotPreElection => "not pre-election",
            Reason::ElectionCount => "wrong number of elections",
            Reason::EmptyArray => "empty array",
            Reason::Repeated => "repeated",
            Reason::NoIdentifier => "no external identifier",
            Reason::TwinIdentifier => "identifier used twice",
            Reason::DuplicateId => "@id used twice",
            Reason::Unresolved => "unresolved reference",
            Reason::WrongFamily => "reference to another family",
            Reason::SelectionOfOtherContest => "selection of another contest",
            Reason::TwinSelection => "selection name used twice",
        }
    }

    /// Returns the name of the missing member, or the empty text for another reason.
    ///
    /// ```
    /// assert_eq!(rt; Reason::DuplicateId.missing_member(), "");
    /// ```
    pub fn missing_member(&self) -> &str
        ensures { result.now ≡ missing_name self.now }
    {
        match self {
            Reason::MissingMember(name) => name.as_str(),
            _ => "",
        }
    }
}

/// A fault of a report: a place, and what is wrong there.
#[derive(Debug, Drop)]
pub struct Fault {
    /// The place of the value that has the fault. docs/PROFILE.md says for each reason which value that is.
    pub place: Place,
    /// What is wrong at the place.
    pub reason: Reason,
}

impl Fault {
    /// Returns the line for the fault, without a line end: the JSON Pointer of its place (RFC 6901), a colon, a space, and
    /// the words for its reason. The words are those of docs/PROFILE.md. Apart from `~0` and `~1` in the pointer, names are
    /// written as they are, even if they contain a line feed.
    ///
    /// # Errors
    ///
    /// `AllocError` if out of memory.
    ///
    /// ```
    /// assert_eq!(rt; fault.line(alloc)?.as_str(), "/GpUnit/10: @id used twice");
    /// ```
    pub fn line(&self, alloc: Global) -> Result<String, AllocError>
        ensures { IfOk result (λ line. string_bytes line ≡ fault_line self.now) }
    {
        let mut line = pointer(alloc, &self.place)?;
        line.push_str(": ")?;
        line.push_str(self.reason.words())?;
        line.push_str(self.reason.missing_member())?;
        Ok(line)
    }
}

/// A list of faults. The function that returns one says which faults it has and in which order.
#[derive(Debug, Drop)]
pub struct FaultList {
    faults: Vec<Fault>,
}

impl Model for FaultList {
    ghost use Rattle.std.specs.Prelude.{List};
    ghost use Rattle.erd_tables.specs.declared.fault.Fault.{Fault};

    ghost Value = { List Fault };

    ghost view = { λ l. l.faults.items };
}

impl FaultList {
    /// Returns the list of these faults, in the same order.
    ///
    /// ```
    /// let list = FaultList::of(vec![in alloc; fault]?);
    /// ```
    pub fn of(faults: Vec<Fault>) -> FaultList
        ensures { result ≡ faults.items }
    {
        FaultList { faults }
    }

    /// Returns the number of faults.
    ///
    /// ```
    /// assert_eq!(rt; list.len(), 1);
    /// ```
    pub fn len(&self) -> usize
        ensures { result ≡ length self.now }
    {
        self.faults.len()
    }

    /// Returns `true` if and only if the list has no faults.
    ///
    /// ```
    /// assert!(rt; !list.is_empty());
    /// ```
    pub fn is_empty(&self) -> bool
        ensures { result ≡ (length self.now == 0) }
    {
        self.faults.is_empty()
    }

    /// Returns an iterator over the faults, in the order of the list.
    ///
    /// ```
    /// for fault in list.iter() {
    ///     assert_eq!(rt; fault.place.len(), 2);
    /// }
    /// ```
    pub fn iter(&self) -> Iter<'_, Fault>
        ensures rest { iter_rest result ≡ self.now }
        ensures runs { IterYieldsInOrder Fault }
    {
        self.faults.iter()
    }

    /// Returns the fault at the position, counted from 0, or `None` if there is none.
    ///
    /// ```
    /// assert!(rt; list.get(1).is_none());
    /// ```
    pub fn get(&self, index: usize) -> Option<&Fault>
        ensures { option_copied result ≡ slice_get self.now index }
    {
        self.faults.get(index)
    }
}
