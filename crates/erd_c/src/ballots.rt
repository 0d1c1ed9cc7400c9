//! The calls for ballots.

ghost use Rattle.std.specs.Prelude.{IfOk, length, max};
ghost use Rattle.std.specs.Option.{option_copied};
ghost use Rattle.erd_canon.specs.BallotAnswers.{IsBallotDifferencesData, IsBallotsBesideData, IsBallotsData};
ghost use Rattle.erd_canon.specs.declared.data.ballots.BallotsAsked.TheVariants.{Ballot, Heads};
ghost use Rattle.erd_c.specs.Told.{IsCall};

use crate::answers::Answer;
use crate::call_result::{Told, given, tell};
use erd_canon::{
    BallotsAsked, ballot_differences_data_with, ballots_beside_data_with, ballots_data_with,
};
use std::alloc::Global;

/// Lists the ballots of a report, and answers with JSON.
///
/// The text is the compact JSON that `erd_canon::ballots_data_with` answers for `BallotsAsked::Heads`, with no line end.
#[unsafe(no_mangle)]
pub extern "C" fn erd_tell_ballots(
    alloc: Global,
    bytes: &[u8],
    prefers: bool,
    prefer: &[u8],
    room: &mut [u8],
) -> Told
    ensures { IsCall (λ π. IsBallotsData Heads π bytes.now) prefers prefer.now (length bytes.now) result room.old room.new }
{
    match given(prefers, prefer, bytes.len()) {
        Ok(prefer) => tell(ballots(alloc, bytes, prefer, BallotsAsked::Heads), room),
        Err(told) => told,
    }
}

/// Tells one ballot of a report, and answers with JSON.
///
/// The text is the compact JSON that `erd_canon::ballots_data_with` answers for `BallotsAsked::Ballot`, with no line end.
#[unsafe(no_mangle)]
pub extern "C" fn erd_tell_ballot(
    alloc: Global,
    bytes: &[u8],
    position: usize,
    prefers: bool,
    prefer: &[u8],
    room: &mut [u8],
) -> Told
    ensures { IsCall (λ π. IsBallotsData (Ballot position) π bytes.now) prefers prefer.now (length bytes.now) result room.old room.new }
{
    match given(prefers, prefer, bytes.len()) {
        Ok(prefer) => tell(
            ballots(alloc, bytes, prefer, BallotsAsked::Ballot(position)),
            room,
        ),
        Err(told) => told,
    }
}

/// Tells which ballots are not the same in two reports, and answers with JSON.
///
/// The text is the compact JSON that `erd_canon::ballot_differences_data_with` answers, with no line end.
#[unsafe(no_mangle)]
pub extern "C" fn erd_tell_ballot_differences(
    alloc: Global,
    left: &[u8],
    right: &[u8],
    prefers: bool,
    prefer: &[u8],
    room: &mut [u8],
) -> Told
    ensures { IsCall (λ π. IsBallotDifferencesData π left.now right.now) prefers prefer.now (max (length left.now) (length right.now))
        result room.old room.new }
{
    match given(prefers, prefer, left.len().max(right.len())) {
        Ok(prefer) => tell(differences(alloc, left, right, prefer), room),
        Err(told) => told,
    }
}

/// Which ballots of two reports stand beside each other: the positions of their styles.
#[repr(C)]
#[derive(Drop)]
pub struct Positions {
    /// The position of the style in the left report.
    pub left: usize,
    /// The position of the style in the right report.
    pub right: usize,
    /// Whether the call has a preferred type of identifier.
    pub prefers: bool,
}

/// Tells the ballots of two reports beside each other, and answers with JSON.
///
/// The text is the compact JSON that `erd_canon::ballots_beside_data_with` answers, with no line end.
#[unsafe(no_mangle)]
pub extern "C" fn erd_tell_ballots_beside(
    alloc: Global,
    left: &[u8],
    right: &[u8],
    prefer: &[u8],
    at: &Positions,
    room: &mut [u8],
) -> Told
    ensures { IsCall (λ π. IsBallotsBesideData at.now.left at.now.right π left.now right.now) at.now.prefers prefer.now
        (max (length left.now) (length right.now)) result room.old room.new }
{
    match given(at.prefers, prefer, left.len().max(right.len())) {
        Ok(prefer) => tell(beside(alloc, left, right, prefer, at), room),
        Err(told) => told,
    }
}

/// Tells what is asked of the ballots of the bytes of a report. Returns the outcome and the JSON text.
fn ballots(alloc: Global, bytes: &[u8], prefer: Option<&str>, asked: BallotsAsked) -> Answer
    ensures { IfOk result (λ answer. IsBallotsData asked (option_copied prefer.entry) bytes.now answer.0 answer.1.items) }
{
    let answer = ballots_data_with(alloc, bytes, prefer, asked)?;
    Ok((answer.outcome, answer.text.into_bytes()))
}

/// Tells which ballots are not the same in the bytes of two reports. Returns the outcome and the JSON text.
fn differences(alloc: Global, left: &[u8], right: &[u8], prefer: Option<&str>) -> Answer
    ensures { IfOk result (λ answer. IsBallotDifferencesData (option_copied prefer.entry) left.now right.now answer.0 answer.1.items) }
{
    let answer = ballot_differences_data_with(alloc, left, right, prefer)?;
    Ok((answer.outcome, answer.text.into_bytes()))
}

/// Tells the ballots of the styles at two positions of the bytes of two reports beside each other. Returns the outcome and the
/// JSON text.
fn beside(alloc: Global, left: &[u8], right: &[u8], prefer: Option<&str>, at: &Positions) -> Answer
    ensures { IfOk result (λ answer. IsBallotsBesideData at.now.left at.now.right (option_copied prefer.entry) left.now right.now
        answer.0 answer.1.items) }
{
    let answer = ballots_beside_data_with(alloc, left, at.left, right, at.right, prefer)?;
    Ok((answer.outcome, answer.text.into_bytes()))
}
