//! Several candidates of write-in lines in one contest who have one code, as where each is called "Write-in".
ghost use Rattle.std.specs.Prelude.{◌≡◌, [], Some, IfOk};
ghost use Rattle.serde_json.specs.View.{view};
ghost use Rattle.erd_prepare.specs.Steps.{IsStepDone};

use crate::areas::{Around, with};
use crate::engine::Done;
use crate::left::{LeftReason, Planned, carry_out_planned};
use crate::lines::{Lines, add_number, is_write_in};
use crate::objects::{Objects, PlacedObject, texts_of};
use crate::plan::Edit;
use crate::triple::{Triple, triple_of};
use erd_tables::class::Family;
use serde_json::Value;
use std::alloc::{AllocError, Global};
use std::collections::{BTreeMap, BTreeSet};

/// The keys of the candidates of each contest, with the number of the contest's object.
type Taken<'a> = BTreeSet<(usize, &'a str, &'a str, String)>;

/// Numbers the candidates of one contest who have one key and each of whom one write-in line alone names, in the order of these
/// lines on the ballots: the number goes behind the code, from 1 on in each contest. Those are left whose lines share a place
/// there. If no `@id` recurs, the order of the sets does not matter.
///
/// # Errors
///
/// `AllocError` if out of memory.
pub fn number_write_in_candidates(alloc: Global, report: &Value) -> Result<Done, AllocError>
    ensures done { IfOk result (IsStepDone (view report.now)) }
{
    let planned = plan_write_in_candidates(alloc, report)?;
    carry_out_planned(alloc, planned, report)
}

fn plan_write_in_candidates(alloc: Global, report: &Value) -> Result<Planned, AllocError> {
    let lines = Lines::of(alloc, report)?;
    let mut planned = Planned::new(alloc);
    let taken = taken_in(alloc, &lines.objects)?;
    let namers = namers_in(alloc, &lines.objects)?;
    for ((contest, _), group) in groups_of(alloc, &lines, &namers)? {
        if group.len() > 1 {
            number_group(alloc, &lines, &group, (contest, &taken), &mut planned)?;
        }
    }
    Ok(planned)
}

/// Returns the keys of the candidates whom the lines of each contest name.
fn taken_in<'a>(alloc: Global, objects: &Objects<'a>) -> Result<Taken<'a>, AllocError> {
    let mut taken = BTreeSet::new(alloc);
    for (number, object) in objects.all.iter().enumerate() {
        let contest = object.contest.unwrap_or(number);
        for text in texts_of(alloc, object.member("CandidateIds"))? {
            if let Some(key) = key_named(objects, text) {
                let code = String::from_str(alloc, key.code)?;
                taken.insert((contest, key.kind, key.other, code))?;
            }
        }
    }
    Ok(taken)
}

/// Returns the key of the candidate whom a reference names.
fn key_named<'a>(objects: &Objects<'a>, reference: &'a str) -> Option<Triple<'a>> {
    let candidate = objects.named(reference, Family::Candidate)?;
    objects.at(candidate)?.key
}

/// Returns the objects that name each candidate.
fn namers_in<'a>(
    alloc: Global,
    objects: &Objects<'a>,
) -> Result<BTreeMap<usize, Around>, AllocError> {
    let mut namers = BTreeMap::new(alloc);
    for (number, object) in objects.all.iter().enumerate() {
        let several = texts_of(alloc, object.member("CandidateIds"))?;
        add_namer(&several, number, objects, &mut namers)?;
        let one = texts_of(alloc, object.member("CandidateId"))?;
        add_namer(&one, number, objects, &mut namers)?;
    }
    Ok(namers)
}

fn add_namer<'a>(
    references: &Vec<&'a str>,
    namer: usize,
    objects: &Objects<'a>,
    namers: &mut BTreeMap<usize, Around>,
) -> Result<(), AllocError> {
    for reference in references {
        if let Some(candidate) = objects.named(reference, Family::Candidate) {
            let around = with(namers.get(&candidate).copied(), namer);
            namers.insert(candidate, around)?;
        }
    }
    Ok(())
}

/// Returns the write-in lines by their contest and the key of their only candidate, whom no other line names.
fn groups_of<'a>(
    alloc: Global,
    lines: &Lines<'a>,
    namers: &BTreeMap<usize, Around>,
) -> Result<BTreeMap<(usize, usize), Vec<usize>>, AllocError> {
    let mut groups = BTreeMap::new(alloc);
    for (number, object) in lines.objects.all.iter().enumerate() {
        if object.is_of(Family::Selection) && is_write_in(object) {
            if let Some(candidate) = only_candidate(alloc, lines, object)? {
                let is_own = namers.get(&candidate).copied() == Some(Around::One(number));
                if let (true, Some(rank)) = (is_own, keys_before(lines, candidate)) {
                    let contest = object.contest.unwrap_or(number);
                    add_number(alloc, (contest, rank), number, &mut groups)?;
                }
            }
        }
    }
    Ok(groups)
}

/// Returns the only candidate of a line.
fn only_candidate<'a>(
    alloc: Global,
    lines: &Lines<'a>,
    line: &PlacedObject<'a>,
) -> Result<Option<usize>, AllocError> {
    let named = texts_of(alloc, line.member("CandidateIds"))?;
    if named.len() != 1 {
        return Ok(None);
    }
    Ok(match named.first().copied() {
        Some(reference) => lines.objects.named(reference, Family::Candidate),
        None => None,
    })
}

/// Returns how many keys are less than that of a candidate who has one.
fn keys_before<'a>(lines: &Lines<'a>, candidate: usize) -> Option<usize> {
    let object = lines.objects.at(candidate)?;
    match object.key {
        Some(_) => Some(object.key_rank),
        None => None,
    }
}

/// Plans the numbers of the candidates of these lines, who have one key.
fn number_group<'a>(
    alloc: Global,
    lines: &Lines<'a>,
    group: &Vec<usize>,
    contest: (usize, &Taken<'a>),
    planned: &mut Planned,
) -> Result<(), AllocError> {
    let ordered = lines.in_order(alloc, group)?;
    let mut number = 0;
    for line in &ordered.told {
        if let Some(candidate) = candidate_of(alloc, lines, *line)? {
            if let Some(key) = candidate.key {
                number = free_after(alloc, key, number, contest)?;
                put_number(alloc, candidate, key, number, planned)?;
            }
        }
    }
    for line in &ordered.untold {
        if let Some(candidate) = candidate_of(alloc, lines, *line)? {
            planned.leave(candidate.known.place.clone()?, LeftReason::NothingTells)?;
        }
    }
    Ok(())
}

fn candidate_of<'a, 'l>(
    alloc: Global,
    lines: &'l Lines<'a>,
    line: usize,
) -> Result<Option<&'l PlacedObject<'a>>, AllocError> {
    let Some(object) = lines.objects.at(line) else {
        return Ok(None);
    };
    Ok(match only_candidate(alloc, lines, object)? {
        Some(candidate) => lines.objects.at(candidate),
        None => None,
    })
}

/// Returns the next number that makes a code behind that of the key which no candidate of the contest has.
fn free_after<'a>(
    alloc: Global,
    key: Triple<'a>,
    number: u64,
    contest: (usize, &Taken<'a>),
) -> Result<u64, AllocError> {
    let mut free = number;
    for _ in 0..u64::MAX {
        free = free.saturating_add(1);
        let code = format!(in alloc; "{}-{}", key.code, free)?;
        if !contest.1.contains(&(contest.0, key.kind, key.other, code)) {
            break;
        }
    }
    Ok(free)
}

/// Plans the number behind each identifier of the type of the candidate's key.
fn put_number<'a>(
    alloc: Global,
    candidate: &PlacedObject<'a>,
    key: Triple<'a>,
    number: u64,
    planned: &mut Planned,
) -> Result<(), AllocError> {
    for (index, entry) in candidate.identifiers().iter().enumerate() {
        if triple_of(entry) == Some(key) {
            let place = format!(in alloc;
                "{}/ExternalIdentifier/{}/Value",
                candidate.known.place, index
            )?;
            let code = format!(in alloc; "{}-{}", key.code, number)?;
            planned.plan.add(place, Edit::Write(Value::String(code)))?;
        }
    }
    Ok(())
}
