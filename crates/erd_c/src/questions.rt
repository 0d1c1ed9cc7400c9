//! What the calls ask for that answer with a piece of a list.

ghost use Rattle.std.specs.Prelude.{◌≡◌, IfOk};
ghost use Rattle.std.specs.Option.{option_copied};
ghost use Rattle.erd_c.specs.Told.{IsPieceCall};
ghost use Rattle.erd_c.specs.code.Questions.{answers_of, longest_of};

use crate::call_result::{Told, Wanted, given, tell_nothing, tell_piece};
use erd_canon::{
    Piece, PieceAnswer, canonical_data_piece, canonical_text_piece, check_data_piece,
    check_text_piece, compare_data_piece, compare_text_piece, differences_data_piece,
    differences_text_piece, differences_values_piece, words_piece,
};
use std::alloc::{AllocError, Global};

/// What is asked of one report, or of the left and the right one, with the answer as data or as lines.
#[derive(Clone, Copy)]
pub(crate) enum Question<'a> {
    CheckData(&'a [u8]),
    CanonicalData(&'a [u8]),
    CompareData(&'a [u8], &'a [u8]),
    DifferencesData(&'a [u8], &'a [u8]),
    DifferencesValues(&'a [u8], &'a [u8]),
    Words(&'a [u8]),
    CheckLines(&'a [u8]),
    CanonicalLines(&'a [u8]),
    CompareLines(&'a [u8], &'a [u8]),
    DifferencesLines(&'a [u8], &'a [u8]),
}

impl<'a> Question<'a> {
    /// Answers as a call of the library does.
    pub(crate) fn tell(
        self,
        alloc: Global,
        prefer: &[u8],
        wanted: &mut Wanted,
        room: &mut [u8],
    ) -> Told
        ensures { IsPieceCall (answers_of self.entry) prefer.now (longest_of self.entry) wanted.old wanted.new result room.old room.new }
    {
        match given(wanted.prefers, prefer, self.longest()) {
            Ok(prefer) => tell_piece(self.answer(alloc, prefer, &wanted.piece()), wanted, room),
            Err(told) => tell_nothing(told, wanted),
        }
    }

    /// Returns the length of the longest report.
    fn longest(self) -> usize
        ensures { result ≡ longest_of self.entry }
    {
        match self {
            Self::CheckData(bytes)
            | Self::CanonicalData(bytes)
            | Self::Words(bytes)
            | Self::CheckLines(bytes)
            | Self::CanonicalLines(bytes) => bytes.len(),
            Self::CompareData(left, right)
            | Self::DifferencesData(left, right)
            | Self::DifferencesValues(left, right)
            | Self::CompareLines(left, right)
            | Self::DifferencesLines(left, right) => left.len().max(right.len()),
        }
    }

    /// Returns the piece of the answer.
    fn answer(
        self,
        alloc: Global,
        prefer: Option<&str>,
        piece: &Piece,
    ) -> Result<PieceAnswer, AllocError>
        ensures { IfOk result (λ it. answers_of self.entry (option_copied prefer.entry) piece.now it.outcome it.told it.text.items) }
    {
        match self {
            Self::CheckData(bytes) => check_data_piece(alloc, bytes, prefer, piece),
            Self::CheckLines(bytes) => check_text_piece(alloc, bytes, prefer, piece),
            Self::CompareData(left, right) => {
                compare_data_piece(alloc, left, right, prefer, piece)
            }
            Self::CompareLines(left, right) => {
                compare_text_piece(alloc, left, right, prefer, piece)
            }
            Self::CanonicalData(bytes) => canonical_data_piece(alloc, bytes, prefer, piece),
            Self::DifferencesData(left, right) => {
                differences_data_piece(alloc, left, right, prefer, piece)
            }
            Self::DifferencesValues(left, right) => {
                differences_values_piece(alloc, left, right, prefer, piece)
            }
            Self::Words(bytes) => words_piece(alloc, bytes, prefer, piece),
            Self::CanonicalLines(bytes) => canonical_text_piece(alloc, bytes, prefer, piece),
            Self::DifferencesLines(left, right) => {
                differences_text_piece(alloc, left, right, prefer, piece)
            }
        }
    }
}
