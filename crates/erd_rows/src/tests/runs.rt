//! Runs of the engines over any devices. A test that calls an engine by these costs less to prove than one of its own.
use erd_canon::{
    Outcome, ReadFrom, RunFault, WriteTo, run_canon, run_canon_with, run_check, run_check_with,
    run_compare, run_compare_with,
};
use std::alloc::Global;
use std::io::{Read, Write};

// A preference, and whether the engine that takes one is called, or its namesake without one.
#[derive(Clone, Copy)]
pub struct Under<'a> {
    pub prefer: Option<&'a str>,
    pub takes_preference: bool,
}

pub const PLAIN: Under<'static> = Under {
    prefer: None,
    takes_preference: false,
};

// What a run for lines leaves.
#[derive(Drop)]
pub struct CheckRun<R, O> {
    pub answer: Result<Outcome, RunFault>,
    pub reader: ReadFrom<R>,
    pub out: WriteTo<O>,
}

pub fn check_run<R: Read, O: Write>(
    alloc: Global,
    under: Under,
    reader: R,
    out: O,
) -> CheckRun<R, O> {
    let mut reader = ReadFrom::of(reader);
    let mut out = WriteTo::of(out);
    let answer = if under.takes_preference {
        run_check_with(alloc, &mut reader, &mut out, under.prefer)
    } else {
        run_check(alloc, &mut reader, &mut out)
    };
    CheckRun {
        answer,
        reader,
        out,
    }
}

// What a run for the canonical form leaves.
#[derive(Drop)]
pub struct CanonRun<R, O, E> {
    pub answer: Result<Outcome, RunFault>,
    pub reader: ReadFrom<R>,
    pub out: WriteTo<O>,
    pub err: WriteTo<E>,
}

pub fn canon_run<R: Read, O: Write, E: Write>(
    alloc: Global,
    under: Under,
    reader: R,
    out: O,
    err: E,
) -> CanonRun<R, O, E> {
    let mut reader = ReadFrom::of(reader);
    let mut out = WriteTo::of(out);
    let mut err = WriteTo::of(err);
    let answer = if under.takes_preference {
        run_canon_with(alloc, &mut reader, &mut out, &mut err, under.prefer)
    } else {
        run_canon(alloc, &mut reader, &mut out, &mut err)
    };
    CanonRun {
        answer,
        reader,
        out,
        err,
    }
}

// What a comparison leaves.
#[derive(Drop)]
pub struct CompareRun<L, R, O> {
    pub answer: Result<Outcome, RunFault>,
    pub left: ReadFrom<L>,
    pub right: ReadFrom<R>,
    pub out: WriteTo<O>,
}

pub fn compare_run<L: Read, R: Read, O: Write>(
    alloc: Global,
    under: Under,
    left: L,
    right: R,
    out: O,
) -> CompareRun<L, R, O> {
    let mut left = ReadFrom::of(left);
    let mut right = ReadFrom::of(right);
    let mut out = WriteTo::of(out);
    let answer = if under.takes_preference {
        run_compare_with(alloc, &mut left, &mut right, &mut out, under.prefer)
    } else {
        run_compare(alloc, &mut left, &mut right, &mut out)
    };
    CompareRun {
        answer,
        left,
        right,
        out,
    }
}
