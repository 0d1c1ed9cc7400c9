//! The result of a call of the library, in numbers and bytes.

ghost use Rattle.std.specs.Prelude.{◌≡◌, IfOk, IfErr, OnOk, OnErr};
ghost use Rattle.std.specs.Option.{option_copied};
ghost use Rattle.erd_c.specs.Told.{HasNoText, IsPut, IsTelling, IsToldNothing, IsToldOf, IsWrong, piece_of, preference};

use erd_canon::{MOST_BYTES, Outcome, Piece, PieceAnswer, RunFault, Told as PieceTold};
use std::alloc::AllocError;
use std::str;

/// The result of a call.
#[repr(C)]
#[derive(Drop)]
pub struct Told {
    /// The exit status of the command. With 0, 1 and 2 there is a text. 3 means that the preferred type is not UTF-8, or
    /// that a report has more than 67,108,864 bytes. 4 means out of memory.
    pub outcome: u32,
    /// The length of the text in bytes, or 0 if there is none. The text is at the front of the room if it fits, and the rest of
    /// the room is as before. Otherwise the room is as before.
    pub length: usize,
}

/// What a caller wants of an answer that is a list, and what it is told of the list.
#[repr(C)]
#[derive(Drop)]
pub struct Wanted {
    /// How many entries of the list are left out at its front.
    pub first: usize,
    /// The most entries that the text may have.
    pub most: usize,
    /// No entry begins once those before it in the text have so many bytes.
    pub enough_bytes: usize,
    /// Told: how many entries of the list the text has.
    pub told: usize,
    /// Told: how many entries the list has.
    pub all: usize,
    /// Whether the call has a preferred type of identifier.
    pub prefers: bool,
}

impl Wanted {
    /// Returns the piece of the list that is wanted.
    pub(crate) fn piece(&self) -> Piece
        ensures { result ≡ piece_of self.now }
    {
        Piece {
            first: self.first,
            most: self.most,
            enough_bytes: self.enough_bytes,
        }
    }

    /// Tells of a list, and keeps what is wanted.
    pub(crate) fn tell(&mut self, told: &PieceTold)
        ensures { IsToldOf told.now self.old self.new }
    {
        self.told = told.count;
        self.all = told.all;
    }
}

/// Returns the preferred type of identifier, or none. If the type is not UTF-8, or the longest report is too long, the error
/// is the result of the call.
pub(crate) fn given(prefers: bool, prefer: &[u8], longest: usize) -> Result<Option<&str>, Told>
    ensures given { IfOk result (λ text. option_copied text ≡ preference prefers prefer.now) }
    ensures right { OnOk result (¬ IsWrong prefers prefer.now longest) }
    ensures wrong { OnErr result (IsWrong prefers prefer.now longest) }
    ensures told { IfErr result (λ told. (told.outcome ≡ 3) × (told.length ≡ 0)) }
{
    if longest > MOST_BYTES {
        return Err(textless(3));
    }
    if !prefers {
        return Ok(None);
    }
    match str::from_utf8(prefer) {
        Ok(text) => Ok(Some(text)),
        Err(_) => Err(textless(3)),
    }
}

/// Converts the answer of a call on bytes to a result, and puts its text into the room if it fits. The reports are not too
/// long, so the fault is that of memory.
pub(crate) fn tell(answer: Result<(Outcome, Vec<u8>), RunFault>, room: &mut [u8]) -> Told
    ensures answered { IfOk answer (λ it. IsTelling it.0 it.1.items result room.old room.new) }
    ensures faulty { IfErr answer (λ _. (result.outcome ≡ 4) × HasNoText result room.old room.new) }
{
    match answer {
        Ok((outcome, text)) => {
            put(text.as_slice(), room);
            Told {
                outcome: u32::from(outcome.status()),
                length: text.len(),
            }
        }
        Err(_) => textless(4),
    }
}

/// Converts the answer of a call that was asked for a piece of a list, as `tell` does, and tells of the list.
pub(crate) fn tell_piece(
    answer: Result<PieceAnswer, AllocError>,
    wanted: &mut Wanted,
    room: &mut [u8],
) -> Told
    ensures answered { IfOk answer (λ it. IsTelling it.outcome it.text.items result room.old room.new × IsToldOf it.told wanted.old wanted.new) }
    ensures faulty { IfErr answer (λ _. (result.outcome ≡ 4) × HasNoText result room.old room.new × IsToldNothing wanted.old wanted.new) }
{
    match answer {
        Ok(answer) => {
            wanted.tell(&answer.told);
            tell(Ok((answer.outcome, answer.text)), room)
        }
        Err(_) => tell_nothing(textless(4), wanted),
    }
}

/// Tells of no list, and returns the result.
pub(crate) fn tell_nothing(told: Told, wanted: &mut Wanted) -> Told
    ensures result { result ≡ told }
    ensures wanted { IsToldNothing wanted.old wanted.new }
{
    wanted.tell(&PieceTold { count: 0, all: 0 });
    told
}

/// Returns a result without a text.
pub(crate) fn textless(outcome: u32) -> Told
    ensures outcome { result.outcome ≡ outcome }
    ensures length { result.length ≡ 0 }
{
    Told { outcome, length: 0 }
}

/// Puts the text at the front of the room if all of it fits.
pub(crate) fn put(text: &[u8], room: &mut [u8])
    ensures { IsPut text.now room.old room.new }
{
    if text.len() <= room.len() {
        room[..text.len()].copy_from_slice(text);
    }
}
