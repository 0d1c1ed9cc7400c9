ghost use Rattle.std.specs.Prelude.{IfOk};
ghost use Rattle.std.specs.Ordering.{eq_by_cmp};
ghost use Rattle.erd_shown.specs.Partners.{partners};
ghost use Rattle.erd_shown.specs.Rows.{AreRows};

use crate::numbered_things::numbered;
use crate::partners::partners_of;
use crate::rows::{Row, rows_of};
use std::alloc::{AllocError, Global};

/// Returns two lists beside each other: each thing of either stands in one row, in its order. A thing that a list has several
/// times is told apart by the number of the occurrence. As many as can stay where they are; the others move.
///
/// That the fewest move is tested, and no contract promises it.
///
/// # Errors
///
/// `AllocError` if out of memory.
///
/// ```
/// let rows = rows_between(alloc, &[1, 2, 3], &[2, 3, 1])?;
/// assert_eq!(rt; rows.first(), Some(&Row::MovedAway(0, 2)));
/// assert_eq!(rt; rows.get(1), Some(&Row::Both(1, 0)));
/// assert_eq!(rt; rows.get(3), Some(&Row::MovedHere(0, 2)));
/// ```
pub fn rows_between<K: Ord + Copy>(
    alloc: Global,
    left: &[K],
    right: &[K],
) -> Result<Vec<Row>, AllocError>
    ensures { IfOk result (λ rows. AreRows (partners (eq_by_cmp K.cmp) left.now right.now) (partners (eq_by_cmp K.cmp) right.now left.now) rows.items) }
{
    let (ones, others) = numbered(alloc, left, right)?;
    let here = partners_of(alloc, &ones, &others)?;
    let there = partners_of(alloc, &others, &ones)?;
    let stays = staying(alloc, &here)?;
    rows_of(alloc, &here, &there, &stays)
}

/// Returns which lines of the left list stay: those of a longest run whose partners rise. Nothing rests on it but how few move.
fn staying(alloc: Global, partners: &[Option<usize>]) -> Result<Vec<bool>, AllocError> {
    let mut ends = Vec::new(alloc);
    let mut earlier = Vec::new(alloc);
    for (index, partner) in partners.iter().enumerate() {
        let before = match *partner {
            Some(there) => put_end(&mut ends, index, there)?,
            None => None,
        };
        earlier.push(before)?;
    }
    marked(alloc, &ends, &earlier)
}

/// Puts a line at the end of the longest run that it can end, and returns the line before it in that run. For each length there
/// is the run that ends lowest, as the partner of its last line and that line.
fn put_end(
    ends: &mut Vec<(usize, usize)>,
    index: usize,
    there: usize,
) -> Result<Option<usize>, AllocError> {
    let length = ends.partition_point(|end| end.0 < there);
    let before = match length.checked_sub(1) {
        Some(shorter) => ends.get(shorter).map(|end| end.1),
        None => None,
    };
    match ends.get_mut(length) {
        Some(end) => *end = (there, index),
        None => ends.push((there, index))?,
    }
    Ok(before)
}

/// Returns whether each line is in the longest run, which is followed from its end.
fn marked(
    alloc: Global,
    ends: &[(usize, usize)],
    earlier: &[Option<usize>],
) -> Result<Vec<bool>, AllocError> {
    let mut stays = Vec::new(alloc);
    for _ in earlier {
        stays.push(false)?;
    }
    let mut next = ends.last().map(|end| end.1);
    for _ in ends {
        if let Some(index) = next {
            if let Some(stay) = stays.get_mut(index) {
                *stay = true;
            }
            next = earlier.get(index).copied().flatten();
        }
    }
    Ok(stays)
}
