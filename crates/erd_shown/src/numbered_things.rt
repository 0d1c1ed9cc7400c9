//! Numbers in place of things. Each thing is looked up once. From then on numbers are compared, so it takes no longer if things
//! take long to compare.
ghost use Rattle.std.specs.Prelude.{IfOk};
ghost use Rattle.std.specs.Ordering.{eq_by_cmp};
ghost use Rattle.erd_shown.specs.code.NumbersGiven.{AreNumbered, IsNumbered, AreAllNumbered};

use crate::counts::one_more;
use std::alloc::{AllocError, Global};
use std::collections::BTreeMap;

/// The numbers that things have, and the number that the next new thing gets.
#[derive(Drop)]
pub(crate) struct Numbering<K: Ord + Copy> {
    numbers: BTreeMap<K, usize>,
    next: usize,
}

/// Returns two lists with numbers in place of their things. Two things have the same number if and only if they are equal.
pub(crate) fn numbered<K: Ord + Copy>(
    alloc: Global,
    left: &[K],
    right: &[K],
) -> Result<(Vec<usize>, Vec<usize>), AllocError>
    ensures { IfOk result (λ found. AreNumbered (eq_by_cmp K.cmp) left.now right.now found.0.items found.1.items) }
{
    let mut numbering = Numbering {
        numbers: BTreeMap::new(alloc),
        next: 0,
    };
    let ones = numbers_of(alloc, left, &mut numbering)?;
    let others = numbers_of(alloc, right, &mut numbering)?;
    Ok((ones, others))
}

/// Returns the numbers of things. A thing that has none gets the next one.
fn numbers_of<K: Ord + Copy>(
    alloc: Global,
    things: &[K],
    numbering: &mut Numbering<K>,
) -> Result<Vec<usize>, AllocError>
    ensures { IfOk result (λ found. AreAllNumbered (eq_by_cmp K.cmp) things.now numbering.old.numbers.entries numbering.old.next
        numbering.new.numbers.entries numbering.new.next found.items) }
{
    let mut found = Vec::with_capacity(alloc, things.len())?;
    for thing in things {
        found.push(number_of(*thing, numbering)?)?;
    }
    Ok(found)
}

/// Returns the number of a thing. If it has none, it gets the next one.
fn number_of<K: Ord + Copy>(thing: K, numbering: &mut Numbering<K>) -> Result<usize, AllocError>
    ensures { IfOk result (λ number. IsNumbered (eq_by_cmp K.cmp) thing numbering.old.numbers.entries numbering.old.next
        numbering.new.numbers.entries numbering.new.next number) }
{
    match numbering.numbers.get(&thing).copied() {
        Some(number) => Ok(number),
        None => {
            let number = numbering.next;
            numbering.next = one_more(number)?;
            numbering.numbers.insert(thing, number)?;
            Ok(number)
        }
    }
}
