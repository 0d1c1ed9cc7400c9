//! The list of differences with what each report has there, piece by piece.
ghost use Rattle.std.specs.Prelude.{ℕ, List, ◌≡◌, ◌∷◌, IfErr, IfOk, OnOk, length, option_copied};
ghost use Rattle.erd_canon.specs.Words.{listing_outcome, view, RefusedSide};
ghost use Rattle.erd_canon.specs.BallotAnswers.{AreBothTold};
ghost use Rattle.erd_canon.specs.ValuedAnswers.{IsValuesList, IsValuesPiece, TellsValues};
ghost use Rattle.erd_canon.specs.code.Fronts.{AppendsEntries, IsReached};
ghost use Rattle.erd_canon.specs.code.ValuedTexts.{Anything, TellsEntries, valued_size, valued_text};
ghost use Rattle.erd_compare.specs.declared.detailed.DetailedDifference.{DetailedDifference};

use crate::bytes::comparison::{left_tree_of, right_tree_of};
use crate::bytes::refusal::{Refusal, Side};
use crate::data::compare::outcome_of;
use crate::data::piece::{Piece, PieceAnswer, Told};
use crate::data::pieces::refused_side;
use crate::data::valued::{Sides, push_valued};
use erd_compare::{DetailedDifference, detailed_differences};
use erd_meaning::{Report, accept_with};
use std::alloc::{AllocError, Global};

/// Lists the differences of the bytes of two reports, as `differences_data_piece` does, each with what the two reports have
/// there.
///
/// The object of a difference has a member `values`, with a member `left` and a member `right`: the value of the member that
/// differs, or the records of the objects if the difference is in no member. A report that has nothing there has no such
/// member. In values, keys stand in place of references. A difference in the selections of a contest or in the content of a
/// ballot has no member `values`. `erd_shown::side_value_text` tells more of the values.
///
/// Each entry of a member `selections` has such a member `values` too: what the two contests have at the name of the selection.
/// The values inside one difference are told for the longest run of entries, from the first one on, whose texts of values have
/// at most `enough_bytes` bytes together. The member `values` of all entries behind it is null.
///
/// # Errors
///
/// `AllocError` if out of memory.
///
/// ```
/// let answer = differences_values_piece(alloc, one, other, None, &piece)?;
/// assert_eq!(rt; answer.text.as_slice(), NAMES.as_bytes());
/// ```
pub fn differences_values_piece(
    alloc: Global,
    left: &[u8],
    right: &[u8],
    prefer: Option<&str>,
    piece: &Piece,
) -> Result<PieceAnswer, AllocError>
    ensures { IfOk result (λ answer. IsValuesPiece (option_copied prefer.entry) left.now right.now piece.now answer.outcome answer.told answer.text.items) }
{
    match values_of_both(alloc, left, right, prefer, piece) {
        Ok(answer) => Ok(answer),
        Err(side) => refused_side(alloc, &side, piece),
    }
}

/// Lists all differences of the bytes of two reports with what the two reports have there, as `differences_values_piece` does.
///
/// # Errors
///
/// `AllocError` if out of memory. No list in memory is longer than a piece of any size.
pub(crate) fn differences_values(
    alloc: Global,
    left: &[u8],
    right: &[u8],
    prefer: Option<&str>,
) -> Result<PieceAnswer, AllocError>
    ensures { IfOk result (λ answer. IsValuesList (option_copied prefer.entry) left.now right.now answer.outcome answer.text.items) }
{
    let piece = Piece {
        first: 0,
        most: usize::MAX,
        enough_bytes: usize::MAX,
    };
    let answer = differences_values_piece(alloc, left, right, prefer, &piece)?;
    if answer.told.count != answer.told.all {
        return Err(AllocError);
    }
    Ok(answer)
}

/// Returns the piece of the differences of two reports with their values. The reports are refused for the same reasons, and in
/// the same order, as by `compare_bytes_with`.
///
/// # Errors
///
/// As `compare_bytes_with`.
fn values_of_both(
    alloc: Global,
    left: &[u8],
    right: &[u8],
    prefer: Option<&str>,
    piece: &Piece,
) -> Result<PieceAnswer, Side>
    ensures told { IfOk result (λ answer. AreBothTold (TellsValues (option_copied prefer.entry) piece.now answer.told) (option_copied prefer.entry) left.now
        right.now answer.outcome answer.text.items) }
    ensures refused { IfErr result (RefusedSide (option_copied prefer.entry) left.now right.now) }
{
    let left_tree = left_tree_of(alloc, left)?;
    let left_report = match accept_with(alloc, &left_tree, prefer) {
        Ok(report) => report,
        Err(error) => return Err(Side::Left(Refusal::from(error))),
    };
    let right_tree = right_tree_of(alloc, right)?;
    let right_report = match accept_with(alloc, &right_tree, prefer) {
        Ok(report) => report,
        Err(error) => return Err(Side::Right(Refusal::from(error))),
    };
    match values_between(alloc, &left_report, &right_report, piece) {
        Ok(answer) => Ok(answer),
        Err(_) => Err(Side::Memory),
    }
}

/// Returns the piece of the differences of two accepted reports with their values.
fn values_between(
    alloc: Global,
    left: &Report,
    right: &Report,
    piece: &Piece,
) -> Result<PieceAnswer, AllocError>
    requires one_preference { left.now.prefer ≡ right.now.prefer }
    ensures { IfOk result (λ answer. TellsValues left.now.prefer piece.now answer.told (view left.now.tree) (view right.now.tree)
        answer.outcome answer.text.items) }
{
    let found = detailed_differences(alloc, left, right, piece.first, piece.enough_bytes)?;
    let sides = Sides {
        left,
        right,
        most_bytes: piece.enough_bytes,
    };
    listed(alloc, &sides, &found, piece)
}

/// Returns the answer for two accepted reports with these differences.
fn listed(
    alloc: Global,
    sides: &Sides,
    found: &[DetailedDifference],
    piece: &Piece,
) -> Result<PieceAnswer, AllocError>
    ensures outcome { IfOk result (λ answer. answer.outcome ≡ listing_outcome found.now) }
    ensures text { IfOk result (λ answer. TellsEntries sides.now piece.now found.now answer.told answer.text.items) }
{
    let mut text = Vec::new(alloc);
    text.push(b'[')?;
    let count = push_entries(alloc, sides, found, piece, &mut text)?;
    text.push(b']')?;
    Ok(PieceAnswer {
        outcome: outcome_of(found),
        text,
        told: Told {
            count,
            all: found.len(),
        },
    })
}

/// Appends the objects of a piece of the differences, and returns how many they are. Only the text of the piece and that of one
/// object are in memory at a time.
fn push_entries(
    alloc: Global,
    sides: &Sides,
    found: &[DetailedDifference],
    piece: &Piece,
    text: &mut Vec<u8>,
) -> Result<usize, AllocError>
    ensures { IfOk result (λ count. AppendsEntries (valued_size sides.now) (valued_text sides.now) Anything piece.now found.now
        (record { count = count; all = length found.now }) text.old.items text.new.items) }
{
    let mut ahead = *piece;
    for difference in found {
        pass_entry(alloc, sides, difference, piece, &mut ahead, text)?;
    }
    Ok(piece.most - ahead.most)
}

/// Passes the next difference of a list: appends its object if what is ahead of the piece has room for it.
fn pass_entry(
    alloc: Global,
    sides: &Sides,
    difference: &DetailedDifference,
    piece: &Piece,
    ahead: &mut Piece,
    text: &mut Vec<u8>,
) -> Result<(), AllocError>
    ensures { OnOk result ((entries : List DetailedDifference) (before : List ℕ) (rest : List DetailedDifference)
        → IsReached (valued_size sides.now) (valued_text sides.now) Anything piece.now entries before text.old.items ahead.old (difference.now ∷ rest)
        → IsReached (valued_size sides.now) (valued_text sides.now) Anything piece.now entries before text.new.items ahead.new rest) }
{
    if ahead.first > 0 {
        ahead.first -= 1;
        return Ok(());
    }
    if ahead.most == 0 || ahead.enough_bytes == 0 {
        return Ok(());
    }
    let size = push_valued(alloc, sides, difference, ahead.most < piece.most, text)?;
    ahead.most -= 1;
    ahead.enough_bytes = ahead.enough_bytes.saturating_sub(size);
    Ok(())
}
