//! The library for C. Each call takes the bytes of reports, a preferred type of identifier or none, and room for a text. It
//! does what a command of the program does, and returns the command's exit status and text.
//!
//! `prefer` is the preferred type of identifier. It is used only if the flag `prefers` is true. The result says how long the text
//! is, and the text is written to the front of `room` if it fits. `wanted` says which entries of a list the text is to have, and
//! is told how many it has and how many there are.
#![tactic(auto)]

ghost use Rattle.std.specs.Prelude.{length, max};
ghost use Rattle.erd_canon.specs.DataAnswers.{IsCheckedData, IsComparedData};
ghost use Rattle.erd_canon.specs.Pieces.{IsCheckLines, IsCheckPiece, IsCompareLines, IsComparePiece, IsFormLines, IsFormPiece, IsListLines, IsListPiece};
ghost use Rattle.erd_canon.specs.Pieces.{IsPieceText};
ghost use Rattle.erd_canon.specs.Run.{IsChecked, IsCompared};
ghost use Rattle.erd_canon.specs.ValuedAnswers.{IsValuesPiece};
ghost use Rattle.erd_canon.specs.WordAnswers.{IsWordsPiece};
ghost use Rattle.erd_c.specs.Told.{HasCanonicalText, IsCall, IsPieceCall};

mod answers;
mod ballots;
mod call_result;
mod line;
mod prepared;
mod questions;

use answers::{canonical, checked, checked_data, compared, compared_data};
pub use ballots::{
    Positions, erd_tell_ballot, erd_tell_ballot_differences, erd_tell_ballots,
    erd_tell_ballots_beside,
};
pub use call_result::{Told, Wanted};
use call_result::{given, tell};
pub use line::erd_tell_command_line;
pub use prepared::erd_tell_prepared;
use questions::Question;
use std::alloc::Global;

/// Checks a report, as `erd check` does.
///
/// The text is `accepted`, or one line for each fault, or `not JSON`. Each line is ended by one line feed.
#[unsafe(no_mangle)]
pub extern "C" fn erd_tell_check(
    alloc: Global,
    bytes: &[u8],
    prefers: bool,
    prefer: &[u8],
    room: &mut [u8],
) -> Told
    ensures { IsCall (λ π. IsChecked π bytes.now) prefers prefer.now (length bytes.now) result room.old room.new }
{
    match given(prefers, prefer, bytes.len()) {
        Ok(prefer) => tell(checked(alloc, bytes, prefer), room),
        Err(told) => told,
    }
}

/// Canonicalises a report, as `erd canon` does.
///
/// The text is the canonical form, with no line end; or one line for each fault, or `not JSON`, each line ended by one line
/// feed.
#[unsafe(no_mangle)]
pub extern "C" fn erd_tell_canonical(
    alloc: Global,
    bytes: &[u8],
    prefers: bool,
    prefer: &[u8],
    room: &mut [u8],
) -> Told
    ensures { IsCall (λ π. HasCanonicalText π bytes.now) prefers prefer.now (length bytes.now) result room.old room.new }
{
    match given(prefers, prefer, bytes.len()) {
        Ok(prefer) => tell(canonical(alloc, bytes, prefer), room),
        Err(told) => told,
    }
}

/// Compares the meanings of two reports, as `erd compare` does.
///
/// The text is `same`, or the line of the first difference. If the left report is refused, or else if the right one is, the
/// text is that of `erd_tell_check` for that report, with `left: ` or `right: ` before each line. Each line is ended by one
/// line feed.
#[unsafe(no_mangle)]
pub extern "C" fn erd_tell_compare(
    alloc: Global,
    left: &[u8],
    right: &[u8],
    prefers: bool,
    prefer: &[u8],
    room: &mut [u8],
) -> Told
    ensures { IsCall (λ π. IsCompared π left.now right.now) prefers prefer.now (max (length left.now) (length right.now)) result room.old room.new }
{
    match given(prefers, prefer, left.len().max(right.len())) {
        Ok(prefer) => tell(compared(alloc, left, right, prefer), room),
        Err(told) => told,
    }
}

/// Checks a report, as `erd_tell_check` does, and answers with JSON.
///
/// The text is the compact JSON that `erd_canon::check_data_with` answers, with no line end.
#[unsafe(no_mangle)]
pub extern "C" fn erd_tell_check_data(
    alloc: Global,
    bytes: &[u8],
    prefers: bool,
    prefer: &[u8],
    room: &mut [u8],
) -> Told
    ensures { IsCall (λ π. IsCheckedData π bytes.now) prefers prefer.now (length bytes.now) result room.old room.new }
{
    match given(prefers, prefer, bytes.len()) {
        Ok(prefer) => tell(checked_data(alloc, bytes, prefer), room),
        Err(told) => told,
    }
}

/// Compares the meanings of two reports, as `erd_tell_compare` does, and answers with JSON.
///
/// The text is the compact JSON that `erd_canon::compare_data_with` answers, with no line end.
#[unsafe(no_mangle)]
pub extern "C" fn erd_tell_compare_data(
    alloc: Global,
    left: &[u8],
    right: &[u8],
    prefers: bool,
    prefer: &[u8],
    room: &mut [u8],
) -> Told
    ensures { IsCall (λ π. IsComparedData π left.now right.now) prefers prefer.now (max (length left.now) (length right.now)) result room.old room.new }
{
    match given(prefers, prefer, left.len().max(right.len())) {
        Ok(prefer) => tell(compared_data(alloc, left, right, prefer), room),
        Err(told) => told,
    }
}

/// Checks a report, as `erd_tell_check_data` does, and answers with a piece of the list of faults.
///
/// The text is the compact JSON that `erd_canon::check_data_piece` answers, with no line end.
#[unsafe(no_mangle)]
pub extern "C" fn erd_tell_check_data_piece(
    alloc: Global,
    bytes: &[u8],
    prefer: &[u8],
    wanted: &mut Wanted,
    room: &mut [u8],
) -> Told
    ensures { IsPieceCall (λ π piece outcome. IsPieceText (IsCheckPiece π bytes.now piece outcome))
        prefer.now (length bytes.now) wanted.old wanted.new result room.old room.new }
{
    Question::CheckData(bytes).tell(alloc, prefer, wanted, room)
}

/// Canonicalises a report, as `erd_tell_canonical` does. If the report is refused, the text is that of
/// `erd_tell_check_data_piece`.
#[unsafe(no_mangle)]
pub extern "C" fn erd_tell_canonical_data_piece(
    alloc: Global,
    bytes: &[u8],
    prefer: &[u8],
    wanted: &mut Wanted,
    room: &mut [u8],
) -> Told
    ensures { IsPieceCall (λ π. IsFormPiece π bytes.now)
        prefer.now (length bytes.now) wanted.old wanted.new result room.old room.new }
{
    Question::CanonicalData(bytes).tell(alloc, prefer, wanted, room)
}

/// Compares the meanings of two reports, as `erd_tell_compare_data` does, and answers with a piece of the list of faults if one
/// is refused.
///
/// The text is the compact JSON that `erd_canon::compare_data_piece` answers, with no line end.
#[unsafe(no_mangle)]
pub extern "C" fn erd_tell_compare_data_piece(
    alloc: Global,
    left: &[u8],
    right: &[u8],
    prefer: &[u8],
    wanted: &mut Wanted,
    room: &mut [u8],
) -> Told
    ensures { IsPieceCall (λ π piece outcome. IsPieceText (IsComparePiece π left.now right.now piece outcome))
        prefer.now (max (length left.now) (length right.now)) wanted.old wanted.new result room.old room.new }
{
    Question::CompareData(left, right).tell(alloc, prefer, wanted, room)
}

/// Lists the differences in meaning of two reports, and answers with a piece of the list; or with a piece of the list of faults
/// if one is refused.
///
/// The text is the compact JSON that `erd_canon::differences_data_piece` answers, with no line end.
#[unsafe(no_mangle)]
pub extern "C" fn erd_tell_differences_data(
    alloc: Global,
    left: &[u8],
    right: &[u8],
    prefer: &[u8],
    wanted: &mut Wanted,
    room: &mut [u8],
) -> Told
    ensures { IsPieceCall (λ π piece outcome. IsPieceText (IsListPiece π left.now right.now piece outcome))
        prefer.now (max (length left.now) (length right.now)) wanted.old wanted.new result room.old room.new }
{
    Question::DifferencesData(left, right).tell(alloc, prefer, wanted, room)
}

/// Lists the differences in meaning of two reports, as `erd_tell_differences_data` does, each with what the two reports have
/// there.
///
/// The text is the compact JSON that `erd_canon::differences_values_piece` answers, with no line end.
#[unsafe(no_mangle)]
pub extern "C" fn erd_tell_differences_values(
    alloc: Global,
    left: &[u8],
    right: &[u8],
    prefer: &[u8],
    wanted: &mut Wanted,
    room: &mut [u8],
) -> Told
    ensures { IsPieceCall (λ π. IsValuesPiece π left.now right.now)
        prefer.now (max (length left.now) (length right.now)) wanted.old wanted.new result room.old room.new }
{
    Question::DifferencesValues(left, right).tell(alloc, prefer, wanted, room)
}

/// Lists what ballots print of the objects of a report, and answers with a piece of the list; or with a piece of the list of
/// faults if the report is refused.
///
/// The text is the compact JSON that `erd_canon::words_piece` answers, with no line end.
#[unsafe(no_mangle)]
pub extern "C" fn erd_tell_words(
    alloc: Global,
    bytes: &[u8],
    prefer: &[u8],
    wanted: &mut Wanted,
    room: &mut [u8],
) -> Told
    ensures { IsPieceCall (λ π. IsWordsPiece π bytes.now)
        prefer.now (length bytes.now) wanted.old wanted.new result room.old room.new }
{
    Question::Words(bytes).tell(alloc, prefer, wanted, room)
}

/// Checks a report, as `erd_tell_check` does, and answers with a piece of the list of faults.
///
/// The text is that of `erd_canon::check_text_piece`: each line is ended by one line feed.
#[unsafe(no_mangle)]
pub extern "C" fn erd_tell_check_piece(
    alloc: Global,
    bytes: &[u8],
    prefer: &[u8],
    wanted: &mut Wanted,
    room: &mut [u8],
) -> Told
    ensures { IsPieceCall (λ π. IsCheckLines π bytes.now)
        prefer.now (length bytes.now) wanted.old wanted.new result room.old room.new }
{
    Question::CheckLines(bytes).tell(alloc, prefer, wanted, room)
}

/// Canonicalises a report, as `erd_tell_canonical` does. If the report is refused, the text is that of `erd_tell_check_piece`.
#[unsafe(no_mangle)]
pub extern "C" fn erd_tell_canonical_piece(
    alloc: Global,
    bytes: &[u8],
    prefer: &[u8],
    wanted: &mut Wanted,
    room: &mut [u8],
) -> Told
    ensures { IsPieceCall (λ π. IsFormLines π bytes.now)
        prefer.now (length bytes.now) wanted.old wanted.new result room.old room.new }
{
    Question::CanonicalLines(bytes).tell(alloc, prefer, wanted, room)
}

/// Compares the meanings of two reports, as `erd_tell_compare` does, and answers with a piece of the list of faults if one is
/// refused.
///
/// The text is that of `erd_canon::compare_text_piece`: each line is ended by one line feed.
#[unsafe(no_mangle)]
pub extern "C" fn erd_tell_compare_piece(
    alloc: Global,
    left: &[u8],
    right: &[u8],
    prefer: &[u8],
    wanted: &mut Wanted,
    room: &mut [u8],
) -> Told
    ensures { IsPieceCall (λ π. IsCompareLines π left.now right.now)
        prefer.now (max (length left.now) (length right.now)) wanted.old wanted.new result room.old room.new }
{
    Question::CompareLines(left, right).tell(alloc, prefer, wanted, room)
}

/// Lists the differences in meaning of two reports, and answers with a piece of the list; or with a piece of the list of faults
/// if one is refused.
///
/// The text is that of `erd_canon::differences_text_piece`: each line is ended by one line feed.
#[unsafe(no_mangle)]
pub extern "C" fn erd_tell_differences(
    alloc: Global,
    left: &[u8],
    right: &[u8],
    prefer: &[u8],
    wanted: &mut Wanted,
    room: &mut [u8],
) -> Told
    ensures { IsPieceCall (λ π. IsListLines π left.now right.now)
        prefer.now (max (length left.now) (length right.now)) wanted.old wanted.new result room.old room.new }
{
    Question::DifferencesLines(left, right).tell(alloc, prefer, wanted, room)
}
