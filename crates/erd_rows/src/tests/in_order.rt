//! The order of keys and of compact texts.
use crate::tests::edits::value_of;
use crate::tests::keys::key;
use erd_meaning::Key;
use erd_normal::{CompactText, SetOrder, in_order};
use std::alloc::{AllocError, Global};
use std::process::Abort;
use std::test::Fail;

// The numbers of these pairs in the order of their first parts.
pub fn numbers_in_order<K: SetOrder + Drop>(
    alloc: Global,
    pairs: Vec<(K, usize)>,
) -> Result<Vec<usize>, AllocError> {
    let mut numbers = Vec::new(alloc);
    for pair in in_order(alloc, pairs)?.iter() {
        numbers.push(pair.1)?;
    }
    Ok(numbers)
}

// A copy of the key of this identifier.
fn copied_key(alloc: Global, identifier: &str) -> Result<Key, AllocError> {
    key(alloc, identifier)?.try_clone(alloc)
}

// These keys with their positions.
fn numbered_keys(alloc: Global, keys: &[&str]) -> Result<Vec<(Key, usize)>, AllocError> {
    let mut pairs = Vec::new(alloc);
    for (index, identifier) in keys.iter().enumerate() {
        pairs.push((copied_key(alloc, identifier)?, index))?;
    }
    Ok(pairs)
}

// The positions of these keys in their order.
fn positions_in_order(alloc: Global, keys: &[&str]) -> Result<Vec<usize>, AllocError> {
    numbers_in_order(alloc, numbered_keys(alloc, keys)?)
}

// Keys, and their positions in their order.
const ORDERED: &[(&[&str], &[usize])] = &[
    (&["b//1", "a//2"], &[1, 0]),
    (
        &[
            "b//9", "a/x/1", "b//10", "a//2", "a/x/1", "/z/3", "a/x/", "a/x/1",
        ],
        &[5, 3, 6, 1, 4, 7, 2, 0],
    ),
    (&[], &[]),
];

fn all_are_ordered(
    rt: &impl Abort,
    alloc: Global,
    table: &[(&[&str], &[usize])],
) -> Result<(), Fail> {
    for (keys, wanted) in table {
        let found = positions_in_order(alloc, keys)?;
        assert!(rt; found.as_slice() == *wanted);
    }
    Ok(())
}

// Keys are ordered part by part, by bytes. Pairs with equal keys keep their order and their number.
#[test]
fn keys_in_order(rt: HostRuntime) -> Result<(), Fail> {
    all_are_ordered(&rt, rt.alloc(), ORDERED)
}

// Values in the order of their compact texts, which is that of their bytes.
const RISING: [&str; 13] = [
    r#""""#,
    r#" "A""#,
    r#""a""#,
    r#""\uffff""#,
    r#""\ud800\udc00""#,
    "-1",
    "10",
    "9",
    "[]",
    "false",
    "null",
    r#"{ "a": 1, "b": 2 }"#,
    r#"{"b":0}"#,
];

fn compact(alloc: Global, text: &str) -> Result<CompactText, Fail> {
    Ok(CompactText::of(alloc, &value_of(alloc, text)?)?)
}

// Compares the text at this position with each one.
fn is_among(rt: &impl Abort, alloc: Global, index: usize, texts: &[&str]) -> Result<(), Fail> {
    let one = compact(alloc, texts.get(index).ok_or("no such text")?)?;
    for (other_index, other) in texts.iter().enumerate() {
        let other = compact(alloc, other)?;
        assert!(rt;
            one.order(&other) == index.cmp(&other_index),
            "{index} and {other_index}"
        );
    }
    Ok(())
}

fn all_rise(rt: &impl Abort, alloc: Global, texts: &[&str]) -> Result<(), Fail> {
    for index in 0..texts.len() {
        is_among(rt, alloc, index, texts)?;
    }
    Ok(())
}

#[test]
fn compact_texts_in_order(rt: HostRuntime) -> Result<(), Fail> {
    all_rise(&rt, rt.alloc(), &RISING)
}
