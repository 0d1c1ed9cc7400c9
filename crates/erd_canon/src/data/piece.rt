ghost use Rattle.std.specs.Prelude.{◌≡◌, string_bytes};
ghost use Rattle.erd_canon.specs.Words.{TellsNone};

use crate::data::check::Answer;
use crate::engines::outcome::Outcome;

/// Which entries of a list of faults or of differences an answer is to have.
///
/// A list of faults can be as long as the square of a report, since the place of each is written in full. So a caller can take
/// the list piece by piece: the next piece has as its `first` how many entries came before.
///
/// ```
/// let piece = Piece { first: 0, most: 1_000, enough_bytes: 1_048_576 };
/// ```
#[derive(Clone, Copy, Debug)]
pub struct Piece {
    /// How many entries of the list are left out at its front.
    pub first: usize,
    /// The most entries that the answer has.
    pub most: usize,
    /// No entry begins once those before it in the answer have so many bytes.
    pub enough_bytes: usize,
}

/// What an answer tells of the list of which it has a piece.
#[derive(Clone, Copy, Debug)]
pub struct Told {
    /// How many entries of the list the answer has.
    pub count: usize,
    /// How many entries the list has.
    pub all: usize,
}

/// The answer of a call that was asked for a piece of a list.
#[derive(Debug, Drop)]
pub struct PieceAnswer {
    /// The outcome, as that of an engine.
    pub outcome: Outcome,
    /// The text, in UTF-8.
    pub text: Vec<u8>,
    /// How many entries of the list the text has, and how many the list has: 0 and 0 if the answer has no list.
    pub told: Told,
}

impl PieceAnswer {
    /// Returns the answer that is no list.
    pub(crate) fn without_list(answer: Answer) -> PieceAnswer
        ensures outcome { result.outcome ≡ answer.outcome }
        ensures text { result.text.items ≡ string_bytes answer.text }
        ensures told { TellsNone result.told }
    {
        PieceAnswer {
            outcome: answer.outcome,
            text: answer.text.into_bytes(),
            told: Told::none(),
        }
    }
}

impl Told {
    /// Returns what is told where there is no list.
    pub(crate) fn none() -> Told
        ensures { TellsNone result }
    {
        Told { count: 0, all: 0 }
    }
}
