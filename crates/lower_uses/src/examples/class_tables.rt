//! Examples of `erd_tables`.
use erd_tables::{
    Class, Family, Fault, FaultList, MemberKind, PerFamily, Place, Reason, Role, Step, Text,
    class_in, class_of, family_of, is_envelope, is_reference_form, is_required_member, member_kind,
    pointer, required, role_of, type_text,
};
use std::alloc::{AllocError, Global};
use std::process::Abort;
use std::test::Fail;

fn has_classes() -> bool {
    class_of("ElectionResults.Party") == Some(Class::Party)
        && class_of("Party") == None
        && type_text(Class::Party) == "ElectionResults.Party"
        && role_of(Class::Coalition) == Role::OfFamily(Family::Party)
        && family_of(Class::Coalition) == Some(Family::Party)
        && family_of(Class::Election) == None
}

fn has_classes_in_roles() -> bool {
    let candidate = Role::OfFamily(Family::Candidate);
    class_in(candidate, "ElectionResults.Candidate") == Some(Class::Candidate)
        && class_in(candidate, "ElectionResults.Party") == None
}

fn has_members() -> bool {
    member_kind(Class::Candidate, "PartyId") == MemberKind::One(Family::Party)
        && member_kind(Class::Candidate, "Nickname") == MemberKind::Carried
        && is_envelope("Issuer")
        && !is_envelope("Status")
        && is_reference_form("PartyIds")
        && !is_reference_form("PartyID")
}

fn has_required_members() -> bool {
    required(Class::LanguageString).contains(&"Content")
        && is_required_member(Class::Header, "Name")
        && !is_required_member(Class::Header, "Color")
}

fn has_reasons() -> bool {
    Reason::DuplicateId.words() == "@id used twice" && Reason::DuplicateId.missing_member() == ""
}

#[test]
fn tables(rt: HostRuntime) {
    assert!(rt;
        has_classes()
            && has_classes_in_roles()
            && has_reasons()
            && has_members()
            && has_required_members()
    );
}

#[test]
fn values_of_families(rt: HostRuntime) -> Result<(), Fail> {
    let are_parties = PerFamily::of(|family| Ok(family == Family::Party))?;
    assert!(rt; *are_parties.get(Family::Party) && !*are_parties.get(Family::Person));
    Ok(())
}

#[test]
fn texts(rt: HostRuntime) -> Result<(), Fail> {
    let alloc = rt.alloc();
    let name = Text::of(String::from_str(alloc, "GpUnit")?);
    assert!(rt; name.as_str() == "GpUnit");
    Ok(())
}

#[test]
fn shared_texts(rt: HostRuntime) -> Result<(), Fail> {
    let alloc = rt.alloc();
    let name = Text::shared(alloc, "GpUnit")?;
    assert!(rt; name.try_clone(alloc)?.as_str() == "GpUnit");
    Ok(())
}

// The place of the eleventh unit.
fn place_of_unit(alloc: Global) -> Result<Place, AllocError> {
    let name = Text::of(String::from_str(alloc, "GpUnit")?);
    let place = Place::of(vec![in alloc; Step::Name(name), Step::At(10)]?);
    Ok(place)
}

// What the place has.
fn has_steps(place: &Place) -> bool {
    place.len() == 2
        && place.iter().count() == 2
        && !place.is_empty()
        && matches!(place.step(1), Some(Step::At(10)))
}

fn pointer_of(rt: &impl Abort, alloc: Global, place: &Place) -> Result<(), Fail> {
    assert!(rt; pointer(alloc, &place)?.as_str() == "/GpUnit/10");
    Ok(())
}

#[test]
fn places(rt: HostRuntime) -> Result<(), Fail> {
    let alloc = rt.alloc();
    let place = place_of_unit(alloc)?;
    assert!(rt; has_steps(&place));
    pointer_of(&rt, alloc, &place)
}

// One fault, whose place has two steps.
fn fault_of_unit(alloc: Global) -> Result<Fault, AllocError> {
    Ok(Fault {
        place: place_of_unit(alloc)?,
        reason: Reason::DuplicateId,
    })
}

#[test]
fn fault_lines(rt: HostRuntime) -> Result<(), Fail> {
    let alloc = rt.alloc();
    let fault = fault_of_unit(alloc)?;
    assert!(rt; fault.line(alloc)?.as_str() == "/GpUnit/10: @id used twice");
    Ok(())
}

// Whether the list has one fault.
fn has_one_fault(list: &FaultList) -> bool {
    !list.is_empty() && list.get(1).is_none() && list.len() == 1
}

fn faults_in_turn(rt: &impl Abort, list: &FaultList) {
    for fault in list.iter() {
        assert!(rt; fault.place.len() == 2);
    }
}

#[test]
fn fault_lists(rt: HostRuntime) -> Result<(), Fail> {
    let alloc = rt.alloc();
    let fault = fault_of_unit(alloc)?;
    let list = FaultList::of(vec![in alloc; fault]?);
    assert!(rt; has_one_fault(&list));
    faults_in_turn(&rt, &list);
    Ok(())
}
