ghost use Rattle.std.specs.Prelude.{ℕ, List, ◌≡◌, ◌∷◌, ◌++◌, length, string_bytes, IfOk, OnOk};
ghost use Rattle.erd_canon.specs.Words.{iter_rest, IterYieldsInOrder, Data, comma_if, compact_text, HasFittingNumbers, difference_line, detailed_data};
ghost use Rattle.erd_canon.specs.Words.{fault_line, fault_data, whole_line, IsPieceData};
ghost use Rattle.erd_canon.specs.code.Fronts.{AppendsEntries, FitsIn, IsReached, size_in, text_in};
ghost use Rattle.erd_canon.specs.code.RefusalData.{AppendsData};

use crate::data::fault_lines::push_fault_line;
use crate::data::fault_values::fault_value;
use crate::data::notation::Notation;
use crate::data::piece::Piece;
use erd_compare::DetailedDifference;
use erd_tables::Fault;
use std::alloc::{AllocError, Global};
use std::slice::Iter;

/// An entry of a list that a call answers.
pub(crate) trait Listed {
    // The JSON value of the entry.
    ghost value: { Self → Data };
    // The line of the entry, without a line feed.
    ghost line: { Self → List ℕ };

    /// Returns the compact text of the JSON value of the entry. A number in it fits 64 bits.
    fn json(&self, alloc: Global) -> Result<String, AllocError>
        ensures text { IfOk result (λ text. string_bytes text ≡ compact_text (value self.now)) }
        ensures fits { OnOk result (HasFittingNumbers (value self.now)) };

    /// Appends the line of the entry, without a line feed.
    fn push_line(&self, alloc: Global, text: &mut String) -> Result<(), AllocError>
        ensures { OnOk result (string_bytes text.new ≡ string_bytes text.old ++ line self.now) };
}

impl Listed for Fault {
    ghost value = { fault_data };

    ghost line = { fault_line };

    fn json(&self, alloc: Global) -> Result<String, AllocError> {
        fault_value(alloc, self)?.to_string(alloc)
    }

    fn push_line(&self, alloc: Global, text: &mut String) -> Result<(), AllocError> {
        push_fault_line(alloc, self, text)
    }
}

impl Listed for DetailedDifference {
    ghost value = { detailed_data };

    ghost line = { λ d. difference_line d.difference };

    fn json(&self, alloc: Global) -> Result<String, AllocError> {
        self.to_value(alloc)?.to_string(alloc)
    }

    fn push_line(&self, alloc: Global, text: &mut String) -> Result<(), AllocError> {
        let line = self.difference.line(alloc)?;
        text.push_str(line.as_str())
    }
}

/// Appends the JSON array of a piece of the entries, and returns how many they are.
pub(crate) fn push_piece<T: Listed>(
    alloc: Global,
    entries: Iter<'_, T>,
    piece: &Piece,
    text: &mut String,
) -> Result<usize, AllocError>
    requires { IterYieldsInOrder T }
    ensures { IfOk result
        (λ count. AppendsData (IsPieceData T.value piece.now (iter_rest entries.entry) (record { count = count; all = length (iter_rest entries.entry) }))
        (string_bytes text.old) (string_bytes text.new)) }
{
    text.push('[')?;
    let count = push_entries(alloc, &Notation::Json, entries, piece, text)?;
    text.push(']')?;
    Ok(count)
}

/// Appends a piece of the entries, and returns how many they are. Only the text of the piece and that of one entry are in memory
/// at a time.
pub(crate) fn push_entries<T: Listed>(
    alloc: Global,
    notation: &Notation,
    entries: Iter<'_, T>,
    piece: &Piece,
    text: &mut String,
) -> Result<usize, AllocError>
    requires { IterYieldsInOrder T }
    ensures { IfOk result (λ count. AppendsEntries (size_in notation.now T.value T.line) (text_in notation.now T.value T.line) (FitsIn notation.now T.value)
        piece.now (iter_rest entries.entry)
        (record { count = count; all = length (iter_rest entries.entry) }) (string_bytes text.old) (string_bytes text.new)) }
{
    let mut ahead = *piece;
    for entry in entries {
        pass_entry(alloc, notation, entry, piece, &mut ahead, text)?;
    }
    Ok(piece.most - ahead.most)
}

/// Passes the next entry of a list: appends it if what is ahead of the piece has room for it.
fn pass_entry<T: Listed>(
    alloc: Global,
    notation: &Notation,
    entry: &T,
    piece: &Piece,
    ahead: &mut Piece,
    text: &mut String,
) -> Result<(), AllocError>
    ensures { OnOk result ((entries : List T) (before : List ℕ) (rest : List T)
        → IsReached (size_in notation.now T.value T.line) (text_in notation.now T.value T.line) (FitsIn notation.now T.value) piece.now entries before
        (string_bytes text.old) ahead.old (entry.now ∷ rest)
        → IsReached (size_in notation.now T.value T.line) (text_in notation.now T.value T.line) (FitsIn notation.now T.value) piece.now entries before
        (string_bytes text.new) ahead.new rest) }
{
    if ahead.first > 0 {
        ahead.first -= 1;
        return Ok(());
    }
    if ahead.most == 0 || ahead.enough_bytes == 0 {
        return Ok(());
    }
    let size = push_noted(alloc, notation, ahead.most < piece.most, entry, text)?;
    ahead.most -= 1;
    ahead.enough_bytes = ahead.enough_bytes.saturating_sub(size);
    Ok(())
}

/// Appends an entry in this notation, and returns how many bytes it is counted as.
fn push_noted<T: Listed>(
    alloc: Global,
    notation: &Notation,
    later: bool,
    entry: &T,
    text: &mut String,
) -> Result<usize, AllocError>
    ensures size { IfOk result (λ size. size ≡ size_in notation.now T.value T.line entry.now) }
    ensures wrote { OnOk result (string_bytes text.new ≡ string_bytes text.old ++ text_in notation.now T.value T.line later entry.now) }
    ensures fits { OnOk result (FitsIn notation.now T.value entry.now) }
{
    match *notation {
        Notation::Json => push_entry(alloc, later, entry, text),
        Notation::Lines(side) => push_entry_line(alloc, side, entry, text),
    }
}

/// Appends the line of an entry, behind the words for a side, with a line feed, and returns how many bytes that is.
pub(crate) fn push_entry_line<T: Listed>(
    alloc: Global,
    side: &str,
    entry: &T,
    text: &mut String,
) -> Result<usize, AllocError>
    ensures size { IfOk result (λ size. size ≡ length (whole_line side.now (T.line entry.now))) }
    ensures wrote { OnOk result (string_bytes text.new ≡ string_bytes text.old ++ whole_line side.now (T.line entry.now)) }
{
    let before = text.len();
    text.push_str(side)?;
    entry.push_line(alloc, text)?;
    text.push('\n')?;
    Ok(text.len() - before)
}

/// Appends the JSON value of an entry, after a comma if it is not the first, and returns how many bytes the value has.
pub(crate) fn push_entry<T: Listed>(
    alloc: Global,
    later: bool,
    entry: &T,
    text: &mut String,
) -> Result<usize, AllocError>
    ensures size { IfOk result (λ size. size ≡ length (compact_text (T.value entry.now))) }
    ensures wrote { OnOk result (string_bytes text.new ≡ string_bytes text.old ++ (comma_if later ++ compact_text (T.value entry.now))) }
    ensures fits { OnOk result (HasFittingNumbers (T.value entry.now)) }
{
    push_comma(later, text)?;
    let object = entry.json(alloc)?;
    text.push_str(object.as_str())?;
    Ok(object.len())
}

/// Appends a comma if the item that follows is not the first.
pub(crate) fn push_comma(later: bool, text: &mut String) -> Result<(), AllocError>
    ensures { OnOk result (string_bytes text.new ≡ string_bytes text.old ++ comma_if later) }
{
    if later { text.push(',') } else { Ok(()) }
}
