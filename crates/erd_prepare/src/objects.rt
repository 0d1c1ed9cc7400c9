//! The objects of a report by their `@id`s, with the key of each and what stands around it.
use crate::known_objects::{KnownObject, known_objects};
use crate::triple::{Triple, triple_of};
use erd_check::values::entries_of;
use erd_tables::class::{Family, Role};
use serde_json::Value;
use std::alloc::{AllocError, Global};
use std::collections::{BTreeMap, BTreeSet};

/// The most bytes that are put in front of a code. What is longer tells nothing, so that no file grows by more than that for each
/// object.
pub(crate) const MOST_BYTES_IN_FRONT: usize = 300;

/// An object of a class of the table, with what is known of it in its report.
#[derive(Drop)]
pub(crate) struct PlacedObject<'a> {
    /// The object.
    pub(crate) known: KnownObject<'a>,
    /// Its key: the least of its triples.
    pub(crate) key: Option<Triple<'a>>,
    /// How many keys of the report are less than its key. Without a key it is the number of all keys.
    pub(crate) key_rank: usize,
    /// How many codes of the report's keys are less than the code of its key.
    pub(crate) code_rank: usize,
    /// The number of the election that it stands in, or the last one before it.
    pub(crate) election: Option<usize>,
    /// The number of the contest that it stands in, or the last one before it.
    pub(crate) contest: Option<usize>,
}

impl<'a> PlacedObject<'a> {
    /// Returns the code in the key, or the empty text.
    pub(crate) fn code(&self) -> &'a str {
        match self.key {
            Some(key) => key.code,
            None => "",
        }
    }

    /// Returns the member of this name.
    pub(crate) fn member(&self, name: &str) -> Option<&'a Value> {
        self.known.members.get(name)
    }

    /// Returns the text in the member of this name, or the empty text.
    pub(crate) fn text_at(&self, name: &str) -> &'a str {
        match self.known.members.get(name) {
            Some(Value::String(text)) => text.as_str(),
            _ => "",
        }
    }

    /// Returns the entries of `ExternalIdentifier`.
    pub(crate) fn identifiers(&self) -> &'a [Value] {
        identifiers_of(&self.known)
    }

    /// Returns whether there is no entry of `ExternalIdentifier`.
    pub(crate) fn has_no_identifier(&self) -> bool {
        match self.known.members.get("ExternalIdentifier") {
            None | Some(Value::Null) => true,
            Some(Value::Array(entries)) => entries.is_empty(),
            Some(_) => false,
        }
    }

    /// Returns whether the object is of the family.
    pub(crate) fn is_of(&self, family: Family) -> bool {
        self.known.role == Role::OfFamily(family)
    }
}

/// The objects of a report, each before those inside it.
#[derive(Drop)]
pub(crate) struct Objects<'a> {
    /// The objects.
    pub(crate) all: Vec<PlacedObject<'a>>,
    /// The number of the first object of any family with each `@id`.
    by_id: BTreeMap<&'a str, usize>,
}

impl<'a> Objects<'a> {
    /// Returns the objects of a report.
    ///
    /// # Errors
    ///
    /// `AllocError` if out of memory.
    pub(crate) fn of(alloc: Global, report: &'a Value) -> Result<Objects<'a>, AllocError> {
        let known = known_objects(alloc, report)?;
        let ranks = Ranks::of(alloc, &known)?;
        let mut objects = Objects {
            all: Vec::new(alloc),
            by_id: BTreeMap::new(alloc),
        };
        let mut election = None;
        let mut contest = None;
        for object in known {
            let number = objects.all.len();
            match object.role {
                Role::Election => election = Some(number),
                Role::OfFamily(Family::Contest) => contest = Some(number),
                _ => {}
            }
            objects.add_id(&object, number)?;
            let key = key_of(&object);
            objects.all.push(PlacedObject {
                known: object,
                key,
                key_rank: ranks.of_key(key),
                code_rank: ranks.of_code(key),
                election,
                contest,
            })?;
        }
        Ok(objects)
    }

    fn add_id(&mut self, object: &KnownObject<'a>, number: usize) -> Result<(), AllocError> {
        if !matches!(object.role, Role::OfFamily(_)) {
            return Ok(());
        }
        if let Some(Value::String(id)) = object.members.get("@id") {
            let id = id.as_str();
            if !self.by_id.contains_key(&id) {
                self.by_id.insert(id, number)?;
            }
        }
        Ok(())
    }

    /// Returns the object with this number.
    pub(crate) fn at(&self, number: usize) -> Option<&PlacedObject<'a>> {
        self.all.get(number)
    }

    /// Returns the number of the object of the family that a reference names, if there is one.
    pub(crate) fn named(&self, reference: &'a str, family: Family) -> Option<usize> {
        let number = self.by_id.get(&reference).copied()?;
        let object = self.all.get(number)?;
        if object.is_of(family) {
            Some(number)
        } else {
            None
        }
    }

    /// Returns the codes of the objects of the family that a member names, by their ranks, without the empty one.
    fn codes_named(
        &self,
        alloc: Global,
        member: Option<&'a Value>,
        family: Family,
    ) -> Result<BTreeMap<usize, &'a str>, AllocError> {
        let mut codes = BTreeMap::new(alloc);
        for text in texts_of(alloc, member)? {
            if let Some(object) = self.named(text, family).and_then(|number| self.at(number)) {
                if !object.code().is_empty() {
                    codes.insert(object.code_rank, object.code())?;
                }
            }
        }
        Ok(codes)
    }

    /// Returns the codes of the objects of the family that a member names, with `+` between them: each once and rising, without
    /// the empty one. Of more than `most` bytes it is empty.
    ///
    /// # Errors
    ///
    /// `AllocError` if out of memory.
    pub(crate) fn joined_codes(
        &self,
        alloc: Global,
        member: Option<&'a Value>,
        family: Family,
        most: usize,
    ) -> Result<String, AllocError> {
        let mut joined = String::new(alloc);
        for code in self.codes_named(alloc, member, family)?.values() {
            if joined.len().saturating_add(code.len()) > most {
                return Ok(String::new(alloc));
            }
            if !joined.is_empty() {
                joined.push_str("+")?;
            }
            joined.push_str(code)?;
        }
        Ok(joined)
    }
}

/// Returns the texts in a member with one reference or several.
pub(crate) fn texts_of<'a>(
    alloc: Global,
    member: Option<&'a Value>,
) -> Result<Vec<&'a str>, AllocError> {
    let mut texts = Vec::new(alloc);
    match member {
        Some(Value::String(text)) => texts.push(text.as_str())?,
        Some(Value::Array(items)) => {
            for item in items {
                if let Value::String(text) = item {
                    texts.push(text.as_str())?;
                }
            }
        }
        _ => {}
    }
    Ok(texts)
}

/// The keys of a report, and the codes in them, in their order.
#[derive(Drop)]
struct Ranks<'a> {
    keys: BTreeMap<Triple<'a>, usize>,
    codes: BTreeMap<&'a str, usize>,
}

impl<'a> Ranks<'a> {
    fn of(alloc: Global, known: &Vec<KnownObject<'a>>) -> Result<Ranks<'a>, AllocError> {
        let mut keys = BTreeSet::new(alloc);
        let mut codes = BTreeSet::new(alloc);
        for object in known {
            if let Some(key) = key_of(object) {
                keys.insert(key)?;
                codes.insert(key.code)?;
            }
        }
        let mut ranks = Ranks {
            keys: BTreeMap::new(alloc),
            codes: BTreeMap::new(alloc),
        };
        for (rank, key) in keys.iter().enumerate() {
            ranks.keys.insert(*key, rank)?;
        }
        for (rank, code) in codes.iter().enumerate() {
            ranks.codes.insert(*code, rank)?;
        }
        Ok(ranks)
    }

    fn of_key(&self, key: Option<Triple<'a>>) -> usize {
        match key {
            Some(key) => self.keys.get(&key).copied().unwrap_or(0),
            None => self.keys.len(),
        }
    }

    fn of_code(&self, key: Option<Triple<'a>>) -> usize {
        match key {
            Some(key) => self.codes.get(&key.code).copied().unwrap_or(0),
            None => self.codes.len(),
        }
    }
}

/// Returns the least triple of an object, if it has any.
fn key_of<'a>(object: &KnownObject<'a>) -> Option<Triple<'a>> {
    let mut key = None;
    for entry in identifiers_of(object) {
        if let Some(triple) = triple_of(entry) {
            if key.is_none_or(|least| triple < least) {
                key = Some(triple);
            }
        }
    }
    key
}

fn identifiers_of<'a>(object: &KnownObject<'a>) -> &'a [Value] {
    match object.members.get("ExternalIdentifier") {
        Some(identifiers) => entries_of(identifiers),
        None => &[],
    }
}
