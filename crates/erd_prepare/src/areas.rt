//! The counties and towns of a report, and which of them each unit is in: by what they are composed of, or by an identifier
//! that the unit has from its county or town.
use crate::objects::{MOST_BYTES_IN_FRONT, Objects, PlacedObject, texts_of};
use crate::triple::{Triple, triple_of};
use erd_tables::class::Family;
use std::alloc::{AllocError, Global};
use std::collections::{BTreeMap, BTreeSet};

/// A sort of areas.
#[derive(Clone, Copy, PartialEq, Eq)]
pub(crate) enum AreaSort {
    /// Counties.
    County,
    /// Towns: cities, boroughs, villages, townships and other municipalities.
    Town,
}

/// The areas around a unit, as far as they matter.
#[derive(Clone, Copy, PartialEq, Eq)]
pub(crate) enum Around {
    /// This one.
    One(usize),
    /// Two or more.
    Several,
}

/// The areas of a sort.
#[derive(Drop)]
pub(crate) struct Areas<'a> {
    /// The areas that a unit is inside of.
    inside: BTreeMap<usize, Around>,
    by_triple: BTreeMap<Triple<'a>, Around>,
    owned: BTreeSet<(usize, Triple<'a>)>,
    /// The only area of a unit.
    around: BTreeMap<usize, usize>,
    codes: BTreeMap<usize, &'a str>,
}

impl AreaSort {
    /// Returns whether a unit is an area of this sort.
    fn has(self, unit: &PlacedObject) -> bool {
        let sort = unit.text_at("Type");
        match self {
            AreaSort::County => sort == "county",
            AreaSort::Town => {
                sort == "borough"
                    || sort == "city"
                    || sort == "municipality"
                    || sort == "town"
                    || sort == "township"
                    || sort == "village"
            }
        }
    }
}

impl<'a> Areas<'a> {
    /// Returns the areas of a report.
    ///
    /// # Errors
    ///
    /// `AllocError` if out of memory.
    pub(crate) fn of(
        alloc: Global,
        sort: AreaSort,
        objects: &Objects<'a>,
    ) -> Result<Areas<'a>, AllocError> {
        let mut areas = Areas {
            inside: BTreeMap::new(alloc),
            by_triple: BTreeMap::new(alloc),
            owned: BTreeSet::new(alloc),
            around: BTreeMap::new(alloc),
            codes: BTreeMap::new(alloc),
        };
        for (number, unit) in objects.all.iter().enumerate() {
            if unit.is_of(Family::Unit) && sort.has(unit) {
                areas.add_inside(alloc, number, objects)?;
                areas.add_triples(number, unit)?;
                areas.codes.insert(number, code_of(unit))?;
            }
        }
        for (number, unit) in objects.all.iter().enumerate() {
            if unit.is_of(Family::Unit) {
                if let Some(area) = areas.found(number, unit) {
                    areas.around.insert(number, area)?;
                }
            }
        }
        Ok(areas)
    }

    /// Tells each unit inside an area, at any depth, that it is in this area.
    fn add_inside(
        &mut self,
        alloc: Global,
        area: usize,
        objects: &Objects<'a>,
    ) -> Result<(), AllocError> {
        let mut left = Vec::new(alloc);
        left.push(area)?;
        for _ in 0..u64::MAX {
            let Some(unit) = left.pop().and_then(|number| objects.at(number)) else {
                return Ok(());
            };
            for text in texts_of(alloc, unit.member("ComposingGpUnitIds"))? {
                if let Some(inner) = objects.named(text, Family::Unit) {
                    if inner != area && is_new(self.inside.get(&inner).copied(), area) {
                        let around = with(self.inside.get(&inner).copied(), area);
                        self.inside.insert(inner, around)?;
                        left.push(inner)?;
                    }
                }
            }
        }
        Ok(())
    }

    fn add_triples(&mut self, area: usize, unit: &PlacedObject<'a>) -> Result<(), AllocError> {
        for entry in unit.identifiers() {
            if let Some(triple) = triple_of(entry) {
                let around = with(self.by_triple.get(&triple).copied(), area);
                self.by_triple.insert(triple, around)?;
                self.owned.insert((area, triple))?;
            }
        }
        Ok(())
    }

    fn found(&self, number: usize, unit: &PlacedObject<'a>) -> Option<usize> {
        match self.inside.get(&number).copied() {
            Some(Around::One(area)) => Some(area),
            Some(Around::Several) => None,
            None => self.named_by(number, unit),
        }
    }

    /// Returns the number of the only area that the unit with a number is in, if there is one.
    pub(crate) fn around(&self, unit: usize) -> Option<usize> {
        self.around.get(&unit).copied()
    }

    /// Returns the code of an area: that of its least identifier of the type `fips`, or else the one in its key. A code that is
    /// too long to be put in front of another one is the empty text.
    pub(crate) fn code(&self, area: usize) -> &'a str {
        self.codes.get(&area).copied().unwrap_or("")
    }

    /// Returns whether the area, if there is one, has the identifier too.
    pub(crate) fn has(&self, area: Option<usize>, triple: Triple<'a>) -> bool {
        match area {
            Some(area) => self.owned.contains(&(area, triple)),
            None => false,
        }
    }

    /// Returns the only other area that has an identifier of the unit.
    fn named_by(&self, number: usize, unit: &PlacedObject<'a>) -> Option<usize> {
        let mut around = None;
        for entry in unit.identifiers() {
            if let Some(triple) = triple_of(entry) {
                around = joined(around, self.by_triple.get(&triple).copied());
            }
        }
        match around {
            Some(Around::One(area)) if area != number => Some(area),
            _ => None,
        }
    }
}

/// Returns whether an area would be a first or a second one.
fn is_new(around: Option<Around>, area: usize) -> bool {
    match around {
        None => true,
        Some(Around::One(other)) => other != area,
        Some(Around::Several) => false,
    }
}

/// Returns what is around with one more area.
pub(crate) fn with(around: Option<Around>, area: usize) -> Around {
    match around {
        None => Around::One(area),
        Some(Around::One(other)) if other == area => Around::One(area),
        Some(_) => Around::Several,
    }
}

/// Returns what is around by two lists of areas.
fn joined(around: Option<Around>, more: Option<Around>) -> Option<Around> {
    match more {
        None => around,
        Some(Around::One(area)) => Some(with(around, area)),
        Some(Around::Several) => Some(Around::Several),
    }
}

fn code_of<'a>(area: &PlacedObject<'a>) -> &'a str {
    let mut least = None;
    for entry in area.identifiers() {
        if let Some(triple) = triple_of(entry) {
            if triple.kind == "fips" && least.is_none_or(|least| triple < least) {
                least = Some(triple);
            }
        }
    }
    let code = match least {
        Some(triple) => triple.code,
        None => area.code(),
    };
    if code.len() > MOST_BYTES_IN_FRONT {
        ""
    } else {
        code
    }
}
