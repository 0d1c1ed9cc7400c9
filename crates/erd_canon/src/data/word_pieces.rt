//! The list of what ballots print, piece by piece.
ghost use Rattle.std.specs.Prelude.{ℕ, List, ◌≡◌, ◌∷◌, ◌++◌, IfErr, IfOk, OnOk, length, option_copied, string_bytes};
ghost use Rattle.erd_canon.specs.Words.{view, IsShallow, IsTreeOf, RefusedAs};
ghost use Rattle.erd_canon.specs.WordAnswers.{IsWordsPiece, TellsWords};
ghost use Rattle.erd_canon.specs.code.Fronts.{AppendsEntries, IsReached};
ghost use Rattle.erd_canon.specs.code.WordTexts.{AnyObject, worded_size, worded_text};
ghost use Rattle.erd_shown.specs.declared.word_list.WordedObject.{WordedObject};

use crate::bytes::acceptance::Input;
use crate::bytes::refusal::Refusal;
use crate::data::listed::push_comma;
use crate::data::piece::{Piece, PieceAnswer, Told};
use crate::data::pieces::refused;
use crate::engines::outcome::Outcome;
use erd_meaning::{Report, accept_with};
use erd_shown::{WordedObject, worded_objects, worded_text};
use serde_json::Value;
use std::alloc::{AllocError, Global};

/// Lists what ballots print of the objects of the bytes of a report under a preferred type of identifier, or under none, and
/// answers with a piece of the list.
///
/// If the report is accepted, the list has an entry for each unit, party, person, office, header, election, candidate and
/// contest, in this order and by rising keys, and the text is a JSON array. An entry is what `erd_shown::worded_text` returns of
/// it. The entry of a contest has all of its selections, so a single entry can be long. Otherwise the text is what
/// `check_data_piece` answers.
///
/// # Errors
///
/// `AllocError` if out of memory.
///
/// ```
/// let answer = words_piece(alloc, one, Some("fips"), &piece)?;
/// assert_eq!(rt; answer.text.as_slice(), WORDS.as_bytes());
/// ```
pub fn words_piece(
    alloc: Global,
    bytes: &[u8],
    prefer: Option<&str>,
    piece: &Piece,
) -> Result<PieceAnswer, AllocError>
    ensures { IfOk result (λ answer. IsWordsPiece (option_copied prefer.entry) bytes.now piece.now answer.outcome answer.told answer.text.items) }
{
    match words_of(alloc, bytes, prefer, piece) {
        Ok(answer) => Ok(answer),
        Err(refusal) => refused(alloc, &refusal, piece),
    }
}

/// Returns the piece of the list of the bytes, or why the bytes are refused.
fn words_of(
    alloc: Global,
    bytes: &[u8],
    prefer: Option<&str>,
    piece: &Piece,
) -> Result<PieceAnswer, Refusal>
    ensures told { IfOk result (λ answer. IsWordsPiece (option_copied prefer.entry) bytes.now piece.now answer.outcome answer.told answer.text.items) }
    ensures refused { IfErr result (RefusedAs (option_copied prefer.entry) bytes.now) }
{
    let tree = bytes.into_tree(alloc)?;
    words_in(alloc, &tree, prefer, piece)
}

/// Returns the piece of the list of the tree of a report, or why it is refused.
fn words_in(
    alloc: Global,
    tree: &Value,
    prefer: Option<&str>,
    piece: &Piece,
) -> Result<PieceAnswer, Refusal>
    requires nests { IsShallow (view tree.now) }
    ensures told { IfOk result (λ answer. (b : List ℕ) → IsTreeOf b (view tree.now) → IsWordsPiece (option_copied prefer.entry)
        b piece.now answer.outcome answer.told answer.text.items) }
    ensures refused { IfErr result (λ refusal. (b : List ℕ) → IsTreeOf b (view tree.now) → RefusedAs (option_copied prefer.entry) b refusal) }
{
    let report = accept_with(alloc, tree, prefer)?;
    match listed(alloc, &report, piece) {
        Ok(answer) => Ok(answer),
        Err(_) => Err(Refusal::Memory),
    }
}

/// Returns the answer for an accepted report.
fn listed(alloc: Global, report: &Report, piece: &Piece) -> Result<PieceAnswer, AllocError>
    ensures outcome { IfOk result (λ answer. answer.outcome ≡ Outcome.Good) }
    ensures text { IfOk result (λ answer. TellsWords report.now.prefer (view report.now.tree) piece.now answer.told answer.text.items) }
{
    let objects = worded_objects(alloc, report)?;
    let mut text = String::new(alloc);
    text.push('[')?;
    let count = push_entries(alloc, report, &objects, piece, &mut text)?;
    text.push(']')?;
    Ok(PieceAnswer {
        outcome: Outcome::Good,
        text: text.into_bytes(),
        told: Told {
            count,
            all: objects.len(),
        },
    })
}

/// Appends the entries of a piece of the objects, and returns how many they are. Only the text of the piece and that of one entry
/// are in memory at a time.
fn push_entries(
    alloc: Global,
    report: &Report,
    objects: &[WordedObject],
    piece: &Piece,
    text: &mut String,
) -> Result<usize, AllocError>
    ensures { IfOk result (λ count. AppendsEntries (worded_size report.now) (worded_text report.now) AnyObject piece.now objects.now
        (record { count = count; all = length objects.now }) (string_bytes text.old) (string_bytes text.new)) }
{
    let mut ahead = *piece;
    for object in objects {
        pass_entry(alloc, report, object, piece, &mut ahead, text)?;
    }
    Ok(piece.most - ahead.most)
}

/// Passes the next object of the list: appends its entry if what is ahead of the piece has room for it.
fn pass_entry(
    alloc: Global,
    report: &Report,
    object: &WordedObject,
    piece: &Piece,
    ahead: &mut Piece,
    text: &mut String,
) -> Result<(), AllocError>
    ensures { OnOk result ((entries : List WordedObject) (before : List ℕ) (rest : List WordedObject)
        → IsReached (worded_size report.now) (worded_text report.now) AnyObject piece.now entries before (string_bytes text.old) ahead.old (object.now ∷ rest)
        → IsReached (worded_size report.now) (worded_text report.now) AnyObject piece.now entries before (string_bytes text.new) ahead.new rest) }
{
    if ahead.first > 0 {
        ahead.first -= 1;
        return Ok(());
    }
    if ahead.most == 0 || ahead.enough_bytes == 0 {
        return Ok(());
    }
    let size = push_worded(alloc, report, object, ahead.most < piece.most, text)?;
    ahead.most -= 1;
    ahead.enough_bytes = ahead.enough_bytes.saturating_sub(size);
    Ok(())
}

/// Appends the entry of an object, after a comma if it is not the first, and returns how many bytes the entry has.
fn push_worded(
    alloc: Global,
    report: &Report,
    object: &WordedObject,
    later: bool,
    text: &mut String,
) -> Result<usize, AllocError>
    ensures size { IfOk result (λ size. size ≡ worded_size report.now object.now) }
    ensures wrote { OnOk result (string_bytes text.new ≡ string_bytes text.old ++ worded_text report.now later object.now) }
{
    let entry = worded_text(alloc, report, object)?;
    push_comma(later, text)?;
    text.push_str(entry.as_str())?;
    Ok(entry.len())
}
