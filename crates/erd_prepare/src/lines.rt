//! The lines of a report that a voter can mark: those that nothing tells apart, and where they stand on the ballots.
use crate::objects::{Objects, PlacedObject, texts_of};
use erd_tables::class::{Class, Family, type_text};
use serde_json::Value;
use std::alloc::{AllocError, Global};
use std::collections::{BTreeMap, BTreeSet};

/// Where a line stands on the ballots.
#[derive(Clone, Copy, PartialEq, Eq, PartialOrd, Ord)]
pub(crate) struct Listing {
    /// How many keys are less than that of the first style that lists the line.
    style: usize,
    /// How many lines the style lists before it.
    place: usize,
}

/// A line that no ballot lists, behind all others.
const UNLISTED: Listing = Listing {
    style: usize::MAX,
    place: 0,
};

/// Some lines by their places on the ballots, each line by the number of its object.
#[derive(Drop)]
pub(crate) struct Ordered {
    /// The lines that have a place of their own, in the order of the places.
    pub(crate) told: Vec<usize>,
    /// The lines that share one.
    pub(crate) untold: Vec<usize>,
}

/// The lines of a report.
#[derive(Drop)]
pub(crate) struct Lines<'a> {
    /// The objects of the report.
    pub(crate) objects: Objects<'a>,
    /// Where each line stands, by its `@id`.
    listings: BTreeMap<&'a str, Listing>,
}

impl<'a> Lines<'a> {
    /// Returns the lines of a report.
    ///
    /// # Errors
    ///
    /// `AllocError` if out of memory.
    pub(crate) fn of(alloc: Global, report: &'a Value) -> Result<Lines<'a>, AllocError> {
        let objects = Objects::of(alloc, report)?;
        let listings = listings_of(alloc, &objects)?;
        Ok(Lines { objects, listings })
    }

    /// Returns the groups of lines that have one name in their contest (docs/PROFILE.md), each of two lines or more.
    ///
    /// # Errors
    ///
    /// `AllocError` if out of memory.
    pub(crate) fn twins(&self, alloc: Global) -> Result<Vec<Vec<usize>>, AllocError> {
        let mut groups: BTreeMap<String, Vec<usize>> = BTreeMap::new(alloc);
        for (number, object) in self.objects.all.iter().enumerate() {
            if object.is_of(Family::Selection) {
                let name = self.name_of(alloc, number, object)?;
                add_number(alloc, name, number, &mut groups)?;
            }
        }
        let mut twins = Vec::new(alloc);
        for (_, group) in groups {
            if group.len() > 1 {
                twins.push(group)?;
            }
        }
        Ok(twins)
    }

    /// Returns a text that two lines share if they are in one contest and have one name.
    fn name_of(
        &self,
        alloc: Global,
        number: usize,
        line: &PlacedObject<'a>,
    ) -> Result<String, AllocError> {
        let contest = line.contest.unwrap_or(number);
        let class = type_text(line.known.class);
        let order = number_at(alloc, line.member("SequenceOrder"))?;
        let sort = is_write_in(line);
        let keys = self.keys_of(alloc, line)?;
        let label = label_of(alloc, line)?;
        format!(in alloc;
            "{} {} {} {} {} {}\n{}",
            contest, class, order, sort, line.key_rank, keys, label
        )
    }

    /// Returns the keys of the candidates or parties of a line, each once. A reference that names nothing stays a text.
    fn keys_of(&self, alloc: Global, line: &PlacedObject<'a>) -> Result<String, AllocError> {
        let (name, family) = if line.known.class == Class::PartySelection {
            ("PartyIds", Family::Party)
        } else {
            ("CandidateIds", Family::Candidate)
        };
        let mut keys = BTreeSet::new(alloc);
        for text in texts_of(alloc, line.member(name))? {
            keys.insert(self.key_of(alloc, text, family)?)?;
        }
        let mut joined = String::new(alloc);
        for key in &keys {
            joined.push_str(key.as_str())?;
            joined.push_str(",")?;
        }
        Ok(joined)
    }

    fn key_of(&self, alloc: Global, text: &'a str, family: Family) -> Result<String, AllocError> {
        match self
            .objects
            .named(text, family)
            .and_then(|number| self.objects.at(number))
        {
            Some(object) => format!(in alloc; "#{}", object.key_rank),
            None => Value::try_from_str(alloc, text)?.to_string(alloc),
        }
    }

    /// Returns these lines by their places on the ballots. One line alone that no ballot lists comes last.
    ///
    /// # Errors
    ///
    /// `AllocError` if out of memory.
    pub(crate) fn in_order(
        &self,
        alloc: Global,
        lines: &Vec<usize>,
    ) -> Result<Ordered, AllocError> {
        let mut places: BTreeMap<Listing, Vec<usize>> = BTreeMap::new(alloc);
        for line in lines {
            add_number(alloc, self.listing_of(*line), *line, &mut places)?;
        }
        let mut ordered = Ordered {
            told: Vec::new(alloc),
            untold: Vec::new(alloc),
        };
        for (_, there) in places {
            let is_told = there.len() == 1;
            for line in there {
                if is_told {
                    ordered.told.push(line)?;
                } else {
                    ordered.untold.push(line)?;
                }
            }
        }
        Ok(ordered)
    }

    fn listing_of(&self, line: usize) -> Listing {
        let Some(object) = self.objects.at(line) else {
            return UNLISTED;
        };
        match object.member("@id") {
            Some(Value::String(id)) => self.listings.get(&id.as_str()).copied().unwrap_or(UNLISTED),
            _ => UNLISTED,
        }
    }
}

/// Returns whether a line is for a candidate whose name the voter writes.
pub(crate) fn is_write_in(line: &PlacedObject) -> bool {
    matches!(line.member("IsWriteIn"), Some(Value::Bool(true)))
}

/// Adds a number to those below a key.
pub(crate) fn add_number<K: Ord + Drop>(
    alloc: Global,
    key: K,
    number: usize,
    numbers: &mut BTreeMap<K, Vec<usize>>,
) -> Result<(), AllocError> {
    if let Some(before) = numbers.get_mut(&key) {
        before.push(number)?;
        return Ok(());
    }
    let mut first = Vec::new(alloc);
    first.push(number)?;
    numbers.insert(key, first)?;
    Ok(())
}

/// Returns where each line stands first, by its `@id`: in the first style, by its key, that lists it.
fn listings_of<'a>(
    alloc: Global,
    objects: &Objects<'a>,
) -> Result<BTreeMap<&'a str, Listing>, AllocError> {
    let mut listings = BTreeMap::new(alloc);
    let mut next = None;
    for object in &objects.all {
        if object.is_of(Family::Style) {
            next = first_of_style(object);
        } else if object.known.class == Class::OrderedContest {
            if let Some(first) = next {
                let lines = texts_of(alloc, object.member("OrderedContestSelectionIds"))?;
                next = Some(add_listings(&lines, first, &mut listings)?);
            }
        }
    }
    Ok(listings)
}

/// Returns the first place in a style that has a key.
fn first_of_style(style: &PlacedObject) -> Option<Listing> {
    match style.key {
        Some(_) => Some(Listing {
            style: style.key_rank,
            place: 0,
        }),
        None => None,
    }
}

/// Adds lines that stand in a row, and returns the place behind them.
fn add_listings<'a>(
    lines: &Vec<&'a str>,
    first: Listing,
    listings: &mut BTreeMap<&'a str, Listing>,
) -> Result<Listing, AllocError> {
    let mut next = first;
    for line in lines {
        if listings.get(line).copied().is_none_or(|least| next < least) {
            listings.insert(*line, next)?;
        }
        next.place = next.place.saturating_add(1);
    }
    Ok(next)
}

/// Returns the text of a number, or the empty text.
fn number_at(alloc: Global, member: Option<&Value>) -> Result<String, AllocError> {
    match member {
        Some(Value::Number(number)) => Value::Number(*number).to_string(alloc),
        _ => Ok(String::new(alloc)),
    }
}

/// Returns what the label of a line for or against a measure says, or the empty text.
fn label_of(alloc: Global, line: &PlacedObject) -> Result<String, AllocError> {
    if line.known.class != Class::BallotMeasureSelection {
        return Ok(String::new(alloc));
    }
    match line.member("Selection") {
        Some(Value::Object(members)) => match members.get("Text") {
            Some(Value::Array(entries)) => sorted_texts(alloc, entries),
            _ => Ok(String::new(alloc)),
        },
        Some(label) => label.to_string(alloc),
        None => Ok(String::new(alloc)),
    }
}

/// Returns the texts of the entries of a list that are objects, rising.
fn sorted_texts(alloc: Global, entries: &Vec<Value>) -> Result<String, AllocError> {
    let mut texts = Vec::new(alloc);
    for entry in entries {
        if entry.is_object() {
            texts.push(entry.to_string(alloc)?)?;
        }
    }
    texts.sort()?;
    let mut joined = String::new(alloc);
    for text in &texts {
        joined.push_str(text.as_str())?;
        joined.push_str(",")?;
    }
    Ok(joined)
}
