//! What errors print, and the lists that they hold.
use erd_canon::{LineFault, Refusal, Side};
use erd_check::CheckError;
use erd_tables::{Fault, FaultList, Place, Reason, Step, Text};
use std::alloc::{AllocError, Global};
use std::fmt::Display;
use std::process::Abort;
use std::test::Fail;

// One fault at the place `/2`.
fn one_fault(alloc: Global) -> Result<FaultList, AllocError> {
    let place = Place::of(vec![in alloc; Step::At(2)]?);
    let reason = Reason::WrongKind;
    Ok(FaultList::of(vec![in alloc; Fault { place, reason }]?))
}

// Whether the error prints this text.
fn says(alloc: Global, error: &impl Display, wanted: &str) -> Result<bool, AllocError> {
    Ok(error.to_string(alloc)?.as_str() == wanted)
}

const ONE_FAULT: &str = "the report has faults: 1";

fn texts_of_checks(alloc: Global) -> Result<bool, AllocError> {
    Ok(
        says(alloc, &CheckError::Faults(one_fault(alloc)?), ONE_FAULT)?
            && says(alloc, &CheckError::Memory, "no memory")?,
    )
}

fn texts_of_refusals(alloc: Global) -> Result<bool, AllocError> {
    Ok(
        says(alloc, &Refusal::Faults(one_fault(alloc)?), ONE_FAULT)?
            && says(alloc, &Refusal::NotJson, "not JSON")?
            && says(alloc, &Refusal::Memory, "no memory")?,
    )
}

fn texts_of_sides(alloc: Global) -> Result<bool, AllocError> {
    let left = Side::Left(Refusal::Faults(one_fault(alloc)?));
    Ok(
        says(alloc, &left, "left: the report has faults: 1")?
            && says(alloc, &Side::Right(Refusal::NotJson), "right: not JSON")?
            && says(alloc, &Side::Memory, "no memory")?,
    )
}

fn texts_of_lines(alloc: Global) -> Result<bool, AllocError> {
    let usage = LineFault::Usage(Text::of(String::from_str(alloc, "Usage: erd")?));
    let help = LineFault::Help(Text::of(String::from_str(alloc, "a\nb")?));
    Ok(
        says(alloc, &usage, "Usage: erd")?
            && says(alloc, &help, "a\nb")?
            && says(alloc, &LineFault::Memory, "no memory")?,
    )
}

#[test]
fn texts_of_errors(rt: HostRuntime) -> Result<(), Fail> {
    let alloc = rt.alloc();
    assert!(rt; texts_of_checks(alloc)? && texts_of_refusals(alloc)?);
    assert!(rt; texts_of_sides(alloc)? && texts_of_lines(alloc)?);
    Ok(())
}

fn has_no_fault(list: &FaultList) -> bool {
    list.is_empty() && list.iter().next().is_none()
}

fn has_one_fault(list: &FaultList, fault: &Fault) -> bool {
    !list.is_empty()
        && list.iter().count() == 1
        && !fault.place.is_empty()
        && fault.place.iter().count() == 1
}

fn first_fault(rt: &impl Abort, alloc: Global, list: &FaultList) -> Result<(), Fail> {
    let fault = list.iter().next().ok_or("no fault")?;
    assert!(rt; has_one_fault(list, fault));
    assert!(rt; fault.line(alloc)?.as_str() == "/2: wrong kind");
    Ok(())
}

#[test]
fn lists_in_turn(rt: HostRuntime) -> Result<(), Fail> {
    let alloc = rt.alloc();
    assert!(rt; has_no_fault(&FaultList::of(Vec::new(alloc))));
    first_fault(&rt, alloc, &one_fault(alloc)?)
}
