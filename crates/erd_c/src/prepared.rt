//! A report that is prepared by steps.
ghost use Rattle.std.specs.Prelude.{◌≡◌, ◌<◌, ◌⊎◌, ◌++◌, ◌∷◌, Err, List, length, IfErr, IfOk, OnOk};
ghost use Rattle.erd_canon.specs.Limits.{most_bytes};
ghost use Rattle.erd_prepare.specs.declared.step_name.StepName.{StepName};
ghost use Rattle.erd_c.specs.Prepared.{IsChosenBy, IsPrepareCall, IsPreparedText, IsUnpreparedBy, others_asked, prepared_text};

use crate::call_result::{Told, put, textless};
use erd_canon::MOST_BYTES;
use erd_prepare::{Others, PrepareError, PreparedBytes, StepName, prepare_bytes, steps_named};
use std::alloc::{AllocError, Global};
use std::str;

/// Prepares a report: does the steps that the words name, and tells what each of them did. `words` has names of steps or of
/// groups, with commas between them. If `others` is true, it is told too what each other step would do.
///
/// The outcome is 0 if the report is prepared, 2 if the bytes are not JSON, 3 if a word names nothing or the report has more than
/// 67,108,864 bytes, and 4 if out of memory. With 0 there is a text: the JSON array of what was done, a line feed, and the
/// prepared report. The array has no line feed.
///
/// The result says how long the text is, and the text is written to the front of `room` if it fits.
#[unsafe(no_mangle)]
pub extern "C" fn erd_tell_prepared(
    alloc: Global,
    bytes: &[u8],
    words: &[u8],
    others: bool,
    room: &mut [u8],
) -> Told
    ensures { IsPrepareCall bytes.now words.now others result room.old room.new }
{
    match prepared(alloc, bytes, words, others) {
        Ok(text) => {
            put(&text, room);
            Told {
                outcome: 0,
                length: text.len(),
            }
        }
        Err(outcome) => textless(outcome),
    }
}

// What was done as a line of JSON, and the prepared report; or the outcome that says why there is none.
fn prepared(alloc: Global, bytes: &[u8], words: &[u8], others: bool) -> Result<Vec<u8>, u32>
    ensures prepared { IfOk result (λ text. IsPreparedText bytes.now words.now others text.items) }
    ensures refused { IfErr result (IsUnpreparedBy bytes.now words.now) }
    ensures long { most_bytes < length bytes.now → result ≡ Err 3 }
{
    if bytes.len() > MOST_BYTES {
        return Err(3);
    }
    let chosen = steps_of(alloc, words)?;
    match prepare_bytes(alloc, bytes, &chosen, others_asked(others)) {
        Ok(file) => text_of(file),
        Err(PrepareError::NotJson) => Err(2),
        Err(PrepareError::Memory) => Err(4),
    }
}

// Whether it is told what the steps would do that are not chosen.
fn others_asked(others: bool) -> Others
    ensures { result ≡ others_asked others }
{
    if others { Others::Told } else { Others::Untold }
}

// The steps that the words name, or the outcome that says why there are none.
fn steps_of(alloc: Global, words: &[u8]) -> Result<Vec<StepName>, u32>
    ensures chosen { IfOk result (λ steps. IsChosenBy words.now steps.items) }
    ensures unchosen { IfErr result (λ outcome. ((outcome ≡ 3) × ((chosen : List StepName) → ¬ (IsChosenBy words.now chosen))) ⊎ (outcome ≡ 4)) }
{
    let Ok(words) = str::from_utf8(words) else {
        return Err(3);
    };
    match steps_named(alloc, words) {
        Ok(Some(steps)) => Ok(steps),
        Ok(None) => Err(3),
        Err(_) => Err(4),
    }
}

// What was done as a line of JSON, and the report.
fn text_of(file: PreparedBytes) -> Result<Vec<u8>, u32>
    ensures made { IfOk result (λ text. text.items ≡ prepared_text file) }
    ensures refused { IfErr result (λ outcome. outcome ≡ 4) }
{
    let mut text = file.told;
    match joined(&mut text, &file.bytes) {
        Ok(()) => Ok(text),
        Err(_) => Err(4),
    }
}

// Appends a line feed and the bytes.
fn joined(text: &mut Vec<u8>, bytes: &[u8]) -> Result<(), AllocError>
    ensures { OnOk result (text.new.items ≡ text.old.items ++ 10 ∷ bytes.now) }
{
    text.push(b'\n')?;
    text.extend_from_slice(bytes)
}
