//! Codes that several objects of a family have: what tells the objects apart goes in front.
ghost use Rattle.std.specs.Prelude.{◌≡◌, [], Some, IfOk};
ghost use Rattle.serde_json.specs.View.{view};
ghost use Rattle.erd_prepare.specs.Steps.{IsStepDone};

use crate::engine::Done;
use crate::left::{LeftReason, Planned, carry_out_planned};
use crate::objects::MOST_BYTES_IN_FRONT;
use crate::pieces::Fronts;
use crate::plan::Edit;
use crate::triple::{Triple, triple_of};
use crate::ways::{CODED, Piece, ways_of};
use erd_tables::class::Role;
use serde_json::Value;
use std::alloc::{AllocError, Global};
use std::collections::BTreeMap;

/// A key whose code may have something in front.
type FrontedKey<'a> = (&'a str, &'a str, String);

/// How many objects have each key.
type Times<'a> = BTreeMap<FrontedKey<'a>, usize>;

/// An object with a key.
#[derive(Clone, Copy)]
struct Keyed<'a> {
    number: usize,
    key: Triple<'a>,
    /// Whether another object of the family has the key.
    is_twin: bool,
}

/// What goes in front of the code of an object, and its key afterwards.
#[derive(Drop)]
struct Front<'a> {
    text: String,
    key: FrontedKey<'a>,
}

/// Puts what tells objects apart in front of the codes of a family in which several objects have one key: of the ways of the
/// family the first by which each of those gets a key that no object of the family had before, and no other one has afterwards.
/// Every object of the family gets it, not only those whose key recurs, as far as it has such a party, district and so on.
/// Where no way tells all of them apart, the last one is taken, and those are left that it does not tell apart. If no `@id`
/// recurs, the order of the sets does not matter.
///
/// # Errors
///
/// `AllocError` if out of memory.
pub fn tell_codes_apart(alloc: Global, report: &Value) -> Result<Done, AllocError>
    ensures done { IfOk result (IsStepDone (view report.now)) }
{
    carry_out_planned(alloc, plan_codes(alloc, report)?, report)
}

/// Returns what is to be done about these codes, and which objects are left.
///
/// # Errors
///
/// `AllocError` if out of memory.
fn plan_codes(alloc: Global, report: &Value) -> Result<Planned, AllocError> {
    let mut fronts = Fronts::of(alloc, report)?;
    let mut planned = Planned::new(alloc);
    for role in CODED {
        plan_family(alloc, role, &mut fronts, &mut planned)?;
    }
    Ok(planned)
}

/// Plans what goes in front of the codes of objects with the role, if several of these have one key.
fn plan_family<'a>(
    alloc: Global,
    role: Role,
    fronts: &mut Fronts<'a>,
    planned: &mut Planned,
) -> Result<(), AllocError> {
    let before = times_of(alloc, role, fronts)?;
    let family = family_of(alloc, role, fronts, &before)?;
    if !family.iter().any(|keyed| keyed.is_twin) {
        return Ok(());
    }
    match chosen(alloc, role, fronts, &family, &before)? {
        Some(chosen) => {
            let after = times_after(alloc, &chosen)?;
            for (keyed, front) in family.iter().zip(chosen.iter()) {
                if is_told(front, &before, &after) {
                    put(alloc, *keyed, front, fronts, planned)?;
                } else if keyed.is_twin || !front.text.is_empty() {
                    leave(*keyed, fronts, planned)?;
                }
            }
        }
        None => {
            for keyed in &family {
                if keyed.is_twin {
                    leave(*keyed, fronts, planned)?;
                }
            }
        }
    }
    Ok(())
}

/// Returns how many objects with the role have each key.
fn times_of<'a>(alloc: Global, role: Role, fronts: &Fronts<'a>) -> Result<Times<'a>, AllocError> {
    let mut times = BTreeMap::new(alloc);
    for object in &fronts.objects.all {
        if let (true, Some(key)) = (object.known.role == role, object.key) {
            count(fronted_key(alloc, "", key)?, &mut times)?;
        }
    }
    Ok(times)
}

/// Returns the objects with the role that have keys.
fn family_of<'a>(
    alloc: Global,
    role: Role,
    fronts: &Fronts<'a>,
    before: &Times<'a>,
) -> Result<Vec<Keyed<'a>>, AllocError> {
    let mut family = Vec::new(alloc);
    for (number, object) in fronts.objects.all.iter().enumerate() {
        if let (true, Some(key)) = (object.known.role == role, object.key) {
            let times = before.get(&fronted_key(alloc, "", key)?).copied();
            family.push(Keyed {
                number,
                key,
                is_twin: times.is_some_and(|times| times > 1),
            })?;
        }
    }
    Ok(family)
}

/// Returns what goes in front by the first way that tells all twins apart, or else by the last way. Returns `None` if that is too
/// long.
fn chosen<'a>(
    alloc: Global,
    role: Role,
    fronts: &Fronts<'a>,
    family: &Vec<Keyed<'a>>,
    before: &Times<'a>,
) -> Result<Option<Vec<Front<'a>>>, AllocError> {
    let mut last = None;
    for way in ways_of(role) {
        last = fronts_by(alloc, way, fronts, family)?;
        if let Some(by_way) = &last {
            if tells_all(alloc, by_way, family, before)? {
                return Ok(last);
            }
        }
    }
    Ok(last)
}

/// Returns what goes in front by a way, or `None` if it has more than three hundred bytes for each object.
fn fronts_by<'a>(
    alloc: Global,
    way: &[Piece],
    fronts: &Fronts<'a>,
    family: &Vec<Keyed<'a>>,
) -> Result<Option<Vec<Front<'a>>>, AllocError> {
    let mut left = MOST_BYTES_IN_FRONT.saturating_mul(family.len());
    let mut by_way = Vec::new(alloc);
    for keyed in family {
        let text = fronts.front_of(alloc, way, keyed.number)?;
        match left.checked_sub(text.len()) {
            Some(rest) => left = rest,
            None => return Ok(None),
        }
        let key = fronted_key(alloc, text.as_str(), keyed.key)?;
        by_way.push(Front { text, key })?;
    }
    Ok(Some(by_way))
}

/// Returns whether each twin gets a key that no object had before, and no other one has afterwards.
fn tells_all<'a>(
    alloc: Global,
    by_way: &Vec<Front<'a>>,
    family: &Vec<Keyed<'a>>,
    before: &Times<'a>,
) -> Result<bool, AllocError> {
    let after = times_after(alloc, by_way)?;
    for (keyed, front) in family.iter().zip(by_way.iter()) {
        if keyed.is_twin && !is_told(front, before, &after) {
            return Ok(false);
        }
    }
    Ok(true)
}

fn times_after<'a>(alloc: Global, by_way: &Vec<Front<'a>>) -> Result<Times<'a>, AllocError> {
    let mut times = BTreeMap::new(alloc);
    for front in by_way {
        let (kind, other, code) = &front.key;
        count((*kind, *other, code.clone()?), &mut times)?;
    }
    Ok(times)
}

fn count<'a>(key: FrontedKey<'a>, times: &mut Times<'a>) -> Result<(), AllocError> {
    let before = times.get(&key).copied().unwrap_or(0);
    times.insert(key, before.saturating_add(1))?;
    Ok(())
}

fn is_told<'a>(front: &Front<'a>, before: &Times<'a>, after: &Times<'a>) -> bool {
    after.get(&front.key).copied() == Some(1) && !before.contains_key(&front.key)
}

fn fronted_key<'a>(
    alloc: Global,
    front: &str,
    key: Triple<'a>,
) -> Result<FrontedKey<'a>, AllocError> {
    let mut code = String::from_str(alloc, front)?;
    code.push_str(key.code)?;
    Ok((key.kind, key.other, code))
}

/// Plans a text in front of each identifier of the type of an object's key.
fn put<'a>(
    alloc: Global,
    keyed: Keyed<'a>,
    front: &Front<'a>,
    fronts: &mut Fronts<'a>,
    planned: &mut Planned,
) -> Result<(), AllocError> {
    if let Some(object) = fronts.objects.at(keyed.number) {
        for (index, entry) in object.identifiers().iter().enumerate() {
            if let Some(triple) = triple_of(entry) {
                if triple.kind == keyed.key.kind && triple.other == keyed.key.other {
                    let place = format!(in alloc;
                        "{}/ExternalIdentifier/{}/Value",
                        object.known.place, index
                    )?;
                    let code = format!(in alloc; "{}{}", front.text, triple.code)?;
                    let code = Edit::Write(Value::String(code));
                    planned.plan.edits.insert(place, code)?;
                }
            }
        }
    }
    fronts.put.insert(keyed.number, front.text.clone()?)?;
    Ok(())
}

fn leave<'a>(
    keyed: Keyed<'a>,
    fronts: &Fronts<'a>,
    planned: &mut Planned,
) -> Result<(), AllocError> {
    match fronts.objects.at(keyed.number) {
        Some(object) => planned.leave(object.known.place.clone()?, LeftReason::NothingTells),
        None => Ok(()),
    }
}
