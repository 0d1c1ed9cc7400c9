//! What goes to the disposal of a run: each tree that is read, and each report that is accepted. No clause can say what a cell
//! holds, so it is counted here.
use crate::tests::edits::{Base, made};
use erd_canon::{
    Disposal, ReadFrom, WriteTo, run_canon_disposing, run_check_disposing, run_compare_disposing,
};
use std::alloc::Global;
use std::cell::Cell;
use std::process::Abort;
use std::test::Fail;

// Counts the trees and the reports that it is given, and frees them.
#[derive(Drop)]
struct Counting {
    values: Cell<usize>,
}

impl Counting {
    fn new() -> Counting {
        Counting {
            values: Cell::new(0),
        }
    }

    // Whether it was given so many.
    fn has(&self, values: usize) -> bool {
        self.values.get() == values
    }
}

impl Disposal for Counting {
    fn dispose<T: Drop>(&self, _value: T) {
        self.values.set(self.values.get().wrapping_add(1));
    }
}

const NOT_JSON: Base = Base::Text("{");

// JSON, and no report.
const REFUSED: Base = Base::Text("[]");

// A report, with how many trees and reports of it are disposed of: of an accepted one both, of a refused one its tree.
const ONE_FILE: &[(Base, usize)] = &[(Base::OneUnit, 2), (REFUSED, 1), (NOT_JSON, 0)];

// Two reports, with how many trees and reports of them are disposed of. Of two that have the same bytes one is judged.
const TWO_FILES: &[(Base, Base, usize)] = &[
    (Base::OneUnit, Base::SmallBallot, 4),
    (Base::OneUnit, Base::OneUnitCanonical, 4),
    (Base::OneUnit, Base::OneUnit, 2),
    (Base::OneUnit, REFUSED, 3),
    (Base::OneUnit, NOT_JSON, 2),
    (REFUSED, Base::OneUnit, 1),
    (NOT_JSON, Base::OneUnit, 0),
];

fn check(alloc: Global, report: &str, disposal: &Counting) {
    let mut reader = ReadFrom::of(report.as_bytes());
    let mut out = WriteTo::of(Vec::new(alloc));
    let _ = run_check_disposing(alloc, &mut reader, &mut out, None, disposal);
}

fn canon(alloc: Global, report: &str, disposal: &Counting) {
    let mut reader = ReadFrom::of(report.as_bytes());
    let mut out = WriteTo::of(Vec::new(alloc));
    let mut err = WriteTo::of(Vec::new(alloc));
    let _ = run_canon_disposing(alloc, &mut reader, &mut out, &mut err, None, disposal);
}

fn compare(alloc: Global, left: &str, right: &str, disposal: &Counting) {
    let mut left = ReadFrom::of(left.as_bytes());
    let mut right = ReadFrom::of(right.as_bytes());
    let mut out = WriteTo::of(Vec::new(alloc));
    let _ = run_compare_disposing(alloc, &mut left, &mut right, &mut out, None, disposal);
}

fn hold(rt: &impl Abort, disposal: &Counting, wanted: usize, report: &str) {
    assert!(rt; disposal.has(wanted), "{report}");
}

fn of_one(rt: &impl Abort, alloc: Global, report: &str, wanted: usize) {
    let checked = Counting::new();
    check(alloc, report, &checked);
    hold(rt, &checked, wanted, report);
    let written = Counting::new();
    canon(alloc, report, &written);
    hold(rt, &written, wanted, report);
}

fn of_two(rt: &impl Abort, alloc: Global, left: &str, right: &str, wanted: usize) {
    let compared = Counting::new();
    compare(alloc, left, right, &compared);
    hold(rt, &compared, wanted, right);
}

#[test]
fn disposed_of_one_file(rt: HostRuntime) -> Result<(), Fail> {
    for (report, wanted) in ONE_FILE {
        let report = made(rt.alloc(), (*report, &[]))?;
        of_one(&rt, rt.alloc(), report.as_str(), *wanted);
    }
    Ok(())
}

#[test]
fn disposed_of_two_files(rt: HostRuntime) -> Result<(), Fail> {
    for (left, right, wanted) in TWO_FILES {
        let left = made(rt.alloc(), (*left, &[]))?;
        let right = made(rt.alloc(), (*right, &[]))?;
        of_two(&rt, rt.alloc(), left.as_str(), right.as_str(), *wanted);
    }
    Ok(())
}
