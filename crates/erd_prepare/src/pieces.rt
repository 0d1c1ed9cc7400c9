//! The texts that go in front of codes.
use crate::areas::{AreaSort, Areas, Around, with};
use crate::names::text_of_label;
use crate::objects::{Objects, PlacedObject, texts_of};
use crate::ways::Piece;
use erd_tables::class::Family;
use serde_json::Value;
use std::alloc::{AllocError, Global};
use std::collections::BTreeMap;

/// The most bytes of the codes of all units of one style.
const MOST_BYTES_OF_UNITS: usize = 100_000;

/// The objects of a report, with what goes in front of the codes of some of them.
#[derive(Drop)]
pub(crate) struct Fronts<'a> {
    /// The objects of the report.
    pub(crate) objects: Objects<'a>,
    /// What the step puts in front of the code of an object, by its number.
    pub(crate) put: BTreeMap<usize, String>,
    counties: Areas<'a>,
    /// The contests that a candidate is in, and the candidates that a person is.
    users: BTreeMap<usize, Around>,
}

impl<'a> Fronts<'a> {
    /// Returns the objects of a report, with nothing in front of any code.
    ///
    /// # Errors
    ///
    /// `AllocError` if out of memory.
    pub(crate) fn of(alloc: Global, report: &'a Value) -> Result<Fronts<'a>, AllocError> {
        let objects = Objects::of(alloc, report)?;
        let counties = Areas::of(alloc, AreaSort::County, &objects)?;
        let users = users_in(alloc, &objects)?;
        Ok(Fronts {
            objects,
            put: BTreeMap::new(alloc),
            counties,
            users,
        })
    }

    /// Returns the text of these pieces of an object, each with `-` behind it. A piece that the object lacks adds nothing.
    ///
    /// # Errors
    ///
    /// `AllocError` if out of memory.
    pub(crate) fn front_of(
        &self,
        alloc: Global,
        way: &[Piece],
        number: usize,
    ) -> Result<String, AllocError> {
        let mut front = String::new(alloc);
        let Some(object) = self.objects.at(number) else {
            return Ok(front);
        };
        for piece in way {
            let text = self.piece_of(alloc, *piece, number, object)?;
            if !text.is_empty() {
                front.push_str(text.as_str())?;
                front.push_str("-")?;
            }
        }
        Ok(front)
    }

    fn piece_of(
        &self,
        alloc: Global,
        piece: Piece,
        number: usize,
        object: &PlacedObject<'a>,
    ) -> Result<String, AllocError> {
        match piece {
            Piece::Date => String::from_str(alloc, object.text_at("StartDate")),
            Piece::Name => String::from_str(alloc, name_of(object)),
            Piece::Election => self.code_at(alloc, object.election),
            Piece::Contest | Piece::Candidate => self.code_at(alloc, self.user_of(number)),
            Piece::County => String::from_str(alloc, self.county_of(alloc, object)?),
            Piece::District => self.codes_at(alloc, object, "ElectionDistrictId", Family::Unit),
            Piece::Units => self.codes_at(alloc, object, "GpUnitIds", Family::Unit),
            Piece::Party => { self.codes_at(alloc, object, party_member(object), Family::Party) }
        }
    }

    /// Returns the code of an object, with what the step puts in front of it.
    fn code_at(&self, alloc: Global, number: Option<usize>) -> Result<String, AllocError> {
        let mut code = String::new(alloc);
        if let Some(number) = number {
            if let Some(front) = self.put.get(&number) {
                code.push_str(front.as_str())?;
            }
            if let Some(object) = self.objects.at(number) {
                code.push_str(object.code())?;
            }
        }
        Ok(code)
    }

    fn codes_at(
        &self,
        alloc: Global,
        object: &PlacedObject<'a>,
        name: &str,
        family: Family,
    ) -> Result<String, AllocError> {
        let member = object.member(name);
        self.objects
            .joined_codes(alloc, member, family, MOST_BYTES_OF_UNITS)
    }

    /// Returns the only contest of a candidate, or the only candidate of a person.
    fn user_of(&self, number: usize) -> Option<usize> {
        match self.users.get(&number).copied() {
            Some(Around::One(user)) => Some(user),
            _ => None,
        }
    }

    /// Returns the code of the county that all units of a style are in.
    fn county_of(&self, alloc: Global, style: &PlacedObject<'a>) -> Result<&'a str, AllocError> {
        let mut around = None;
        for text in texts_of(alloc, style.member("GpUnitIds"))? {
            if let Some(unit) = self.objects.named(text, Family::Unit) {
                match self.counties.around(unit) {
                    Some(county) => around = Some(with(around, county)),
                    None => return Ok(""),
                }
            }
        }
        match around {
            Some(Around::One(county)) => Ok(self.counties.code(county)),
            _ => Ok(""),
        }
    }
}

/// Returns the member that names the parties of an object.
fn party_member(object: &PlacedObject) -> &'static str {
    if is_there(object.member("PrimaryPartyIds")) {
        "PrimaryPartyIds"
    } else if is_there(object.member("PartyIds")) {
        "PartyIds"
    } else {
        "PartyId"
    }
}

fn is_there(member: Option<&Value>) -> bool {
    match member {
        Some(value) => !value.is_null(),
        None => false,
    }
}

/// Returns the name of a candidate, or the empty text.
fn name_of<'a>(candidate: &PlacedObject<'a>) -> &'a str {
    match candidate.member("BallotName") {
        Some(label) => text_of_label(label).unwrap_or(""),
        None => "",
    }
}

/// Returns the contests that each candidate is in, and the candidates that each person is.
fn users_in<'a>(
    alloc: Global,
    objects: &Objects<'a>,
) -> Result<BTreeMap<usize, Around>, AllocError> {
    let mut users = BTreeMap::new(alloc);
    for (number, object) in objects.all.iter().enumerate() {
        if object.is_of(Family::Candidate) {
            let persons = texts_of(alloc, object.member("PersonId"))?;
            add_user(&persons, Family::Person, number, objects, &mut users)?;
        } else {
            let contest = object.contest.unwrap_or(number);
            let several = texts_of(alloc, object.member("CandidateIds"))?;
            add_user(&several, Family::Candidate, contest, objects, &mut users)?;
            let one = texts_of(alloc, object.member("CandidateId"))?;
            add_user(&one, Family::Candidate, contest, objects, &mut users)?;
        }
    }
    Ok(users)
}

/// Adds a user to each object of the family that these references name.
fn add_user<'a>(
    references: &Vec<&'a str>,
    family: Family,
    user: usize,
    objects: &Objects<'a>,
    users: &mut BTreeMap<usize, Around>,
) -> Result<(), AllocError> {
    for reference in references {
        if let Some(number) = objects.named(reference, family) {
            let around = with(users.get(&number).copied(), user);
            users.insert(number, around)?;
        }
    }
    Ok(())
}
