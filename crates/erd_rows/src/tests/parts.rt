//! Calls on parts of reports, with each request for memory refused in turn.
use crate::tests::answers::{Answer, has_text, right_if};
use crate::tests::edits::value_of;
use crate::tests::in_order::numbers_in_order;
use crate::tests::keys::key;
use crate::tests::refusing::each_refused;
use crate::tests::vectors::SMALL_BALLOT;
use erd_check::ValueSet;
use erd_check::path::{Path, push_fault};
use erd_meaning::{Key, key_of};
use erd_normal::CompactText;
use erd_tables::{Place, Reason, Step, Text, pointer};
use serde_json::Value;
use std::alloc::{AllocError, Global};
use std::test::Fail;

#[test]
fn refused_pointer(rt: HostRuntime) -> Result<(), Fail> {
    let alloc = rt.alloc();
    let name = Text::of(String::from_str(alloc, "GpUnit")?);
    let place = Place::of(vec![in alloc; Step::Name(name), Step::At(10)]?);
    each_refused(alloc, "pointer", |alloc| {
        has_text(pointer(alloc, &place), "/GpUnit/10")
    })
}

// Whether a fault is added to a list, or the list is unchanged.
fn pushed(alloc: Global) -> Answer {
    let mut list = Vec::new(alloc);
    let path = Path::Entry(&Path::Member(&Path::Root, "GpUnit"), 10);
    match push_fault(alloc, &path, Reason::WrongKind, &mut list) {
        Ok(()) => right_if(list.len() == 1),
        Err(_) if list.is_empty() => Answer::WantsMemory,
        Err(_) => Answer::Wrong,
    }
}

#[test]
fn refused_push_fault(rt: HostRuntime) -> Result<(), Fail> {
    each_refused(rt.alloc(), "push_fault", pushed)
}

// Whether the copy of the key is equal to it.
fn copied(alloc: Global, key: &Key) -> Answer {
    match key.try_clone(alloc) {
        Ok(copy) => right_if(copy == *key),
        Err(_) => Answer::WantsMemory,
    }
}

// Whether the object has this key.
fn keyed(alloc: Global, object: &Value, wanted: &Key) -> Answer {
    match key_of(alloc, object, None) {
        Ok(Some(found)) => right_if(found == *wanted),
        Ok(None) => Answer::Wrong,
        Err(_) => Answer::WantsMemory,
    }
}

#[test]
fn refused_keys(rt: HostRuntime) -> Result<(), Fail> {
    let alloc = rt.alloc();
    let object = value_of(
        alloc,
        r#"{"ExternalIdentifier":[{"Type":"b","OtherType":"","Value":"1"}]}"#,
    )?;
    let wanted = key(alloc, "b//1")?;
    refused_key(alloc, &object, &wanted)
}

fn refused_key(alloc: Global, object: &Value, wanted: &Key) -> Result<(), Fail> {
    each_refused(alloc, "try_clone", |alloc| copied(alloc, wanted))?;
    each_refused(alloc, "key_of", |alloc| keyed(alloc, object, wanted))
}

// The keys, two of which are equal, with numbers.
fn numbered(alloc: Global, low: &Key, high: &Key) -> Result<Vec<(Key, usize)>, AllocError> {
    let mut pairs = Vec::new(alloc);
    for (key, number) in [(high, 1), (low, 2), (high, 3)] {
        pairs.push((key.try_clone(alloc)?, number))?;
    }
    Ok(pairs)
}

// The numbers of the keys in their order.
fn sorted(alloc: Global, low: &Key, high: &Key) -> Result<Vec<usize>, AllocError> {
    numbers_in_order(alloc, numbered(alloc, low, high)?)
}

// Whether the keys are sorted, each with its number.
fn are_sorted(alloc: Global, low: &Key, high: &Key) -> Answer {
    match sorted(alloc, low, high) {
        Ok(numbers) => right_if(numbers.as_slice() == [2, 1, 3].as_slice()),
        Err(_) => Answer::WantsMemory,
    }
}

#[test]
fn refused_order(rt: HostRuntime) -> Result<(), Fail> {
    let alloc = rt.alloc();
    let low = key(alloc, "a//2")?;
    let high = key(alloc, "b//1")?;
    refused_orders(alloc, &low, &high)
}

fn refused_orders(alloc: Global, low: &Key, high: &Key) -> Result<(), Fail> {
    each_refused(alloc, "in_order", |alloc| are_sorted(alloc, low, high))
}

// Whether the set of the entries has the entry, which is one of them.
fn has_entry(alloc: Global, entries: &[Value], entry: &Value) -> Answer {
    match ValueSet::of(alloc, entries) {
        Ok(set) => right_if(set.has(entry)),
        Err(_) => Answer::WantsMemory,
    }
}

// Whether the set has the entry, or is unchanged.
fn inserted(alloc: Global, entry: &Value) -> Answer {
    let mut set = ValueSet::new(alloc);
    match set.insert(entry) {
        Ok(()) => right_if(set.has(entry)),
        Err(_) if set.has(entry) => Answer::Wrong,
        Err(_) => Answer::WantsMemory,
    }
}

// Whether the value has this compact text.
fn compact(alloc: Global, value: &Value, wanted: &CompactText) -> Answer {
    match CompactText::of(alloc, value) {
        Ok(text) => right_if(text == *wanted),
        Err(_) => Answer::WantsMemory,
    }
}

// The value 1, and the value of this text.
fn two_entries(alloc: Global, text: &str) -> Result<Vec<Value>, Fail> {
    let mut entries = Vec::new(alloc);
    entries.push(value_of(alloc, "1")?)?;
    entries.push(value_of(alloc, text)?)?;
    Ok(entries)
}

fn refused_sets(alloc: Global, entries: &[Value], value: &Value) -> Result<(), Fail> {
    each_refused(
        alloc,
        "ValueSet::of",
        |alloc| has_entry(alloc, entries, value),
    )?;
    each_refused(alloc, "ValueSet::insert", |alloc| inserted(alloc, value))
}

fn refused_texts(alloc: Global, value: &Value) -> Result<(), Fail> {
    let wanted = CompactText::of(alloc, value)?;
    each_refused(
        alloc,
        "CompactText::of",
        |alloc| compact(alloc, value, &wanted),
    )
}

#[test]
fn refused_values(rt: HostRuntime) -> Result<(), Fail> {
    let alloc = rt.alloc();
    let entries = two_entries(alloc, SMALL_BALLOT)?;
    let value = value_of(alloc, SMALL_BALLOT)?;
    refused_sets(alloc, entries.as_slice(), &value)?;
    refused_texts(alloc, &value)
}
