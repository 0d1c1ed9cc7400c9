//! The command line of the program, as an answer.

ghost use Rattle.std.specs.Prelude.{◌≡◌, ◌++◌, ◌∷◌, [], map, length, codes, string_bytes, Some, IfOk, MatchOption};
ghost use Rattle.erd_c.specs.Lines.{AreTexts, IsLineCall, IsWordsAnswer, line_number, words_in};
ghost use Rattle.erd_c.specs.Told.{IsPut};

use crate::call_result::{Told, put, textless};
use erd_canon::{LineAnswer, command_line_data};
use std::alloc::{AllocError, Global};
use std::str;

/// Parses the words of a command line, as the program does. The first word is the program's name. Each word is ended by a zero
/// byte, and the last one may be ended by the end of the bytes if it is not empty.
///
/// The outcome says what the text is: 0 for help, 1 for a request, 3 for wrong words, and 4 if out of memory, with no text. For
/// a request the text is the compact JSON that `erd_canon::command_line_data` answers, with no line end. For help and for wrong
/// words it is what the program writes: help to standard output, with status 0, and the other text to standard error, with
/// status 3. A word that is not UTF-8 is wrong.
///
/// The result says how long the text is, and the text is written to the front of `room` if it fits.
#[unsafe(no_mangle)]
pub extern "C" fn erd_tell_command_line(alloc: Global, words: &[u8], room: &mut [u8]) -> Told
    ensures { IsLineCall words.now result room.old room.new }
{
    match line_of(alloc, words) {
        Ok(answer) => tell_line(&answer, room),
        Err(_) => textless(4),
    }
}

// What the program says if a word is not UTF-8.
const NOT_TEXT: &str = "the arguments are not text\n";

// The answer for the words in these bytes.
fn line_of(alloc: Global, bytes: &[u8]) -> Result<LineAnswer, AllocError>
    ensures { IfOk result (λ answer. IsWordsAnswer bytes.now answer.status (string_bytes answer.text)) }
{
    let words = words_in(alloc, bytes)?;
    match texts_of(alloc, words.as_slice())? {
        Some(words) => command_line_data(alloc, words.as_slice()),
        None => not_text(alloc),
    }
}

// The answer for words that are not text.
fn not_text(alloc: Global) -> Result<LineAnswer, AllocError>
    ensures { IfOk result (λ answer. (answer.status ≡ Some 3) × (string_bytes answer.text ≡ codes "the arguments are not text" ++ 10 ∷ [])) }
{
    Ok(LineAnswer {
        status: Some(3),
        text: String::from_str(alloc, NOT_TEXT)?,
    })
}

// The words in these bytes. Each zero byte ends a word, and the end of the bytes ends a word that is not empty.
fn words_in(alloc: Global, bytes: &[u8]) -> Result<Vec<Vec<u8>>, AllocError>
    ensures { IfOk result (λ words. map (λ word. word.items) words.items ≡ words_in bytes.now) }
{
    let mut words = Vec::new(alloc);
    let mut word = Vec::new(alloc);
    for byte in bytes {
        if *byte == 0 {
            words.push(word)?;
            word = Vec::new(alloc);
        } else {
            word.push(*byte)?;
        }
    }
    if !word.is_empty() {
        words.push(word)?;
    }
    Ok(words)
}

// The words as texts, or none if one of them is not UTF-8.
fn texts_of(alloc: Global, words: &[Vec<u8>]) -> Result<Option<Vec<String>>, AllocError>
    ensures { IfOk result (λ found. MatchOption found (¬ AreTexts (map (λ word. word.items) words.now))
        (λ texts. map string_bytes texts.items ≡ map (λ word. word.items) words.now)) }
{
    let mut texts = Vec::new(alloc);
    for word in words {
        match str::from_utf8(word.as_slice()) {
            Ok(text) => texts.push(String::from_str(alloc, text)?)?,
            Err(_) => return Ok(None),
        }
    }
    Ok(Some(texts))
}

// Tells what the answer is by a number and its text by its length, and puts the text into the room if it fits.
fn tell_line(answer: &LineAnswer, room: &mut [u8]) -> Told
    ensures number { result.outcome ≡ line_number answer.now.status }
    ensures count { result.length ≡ length (string_bytes answer.now.text) }
    ensures put { IsPut (string_bytes answer.now.text) room.old room.new }
{
    let text = answer.text.as_bytes();
    put(text, room);
    Told {
        outcome: outcome_of(answer.status),
        length: text.len(),
    }
}

// The number that tells what a text is: the exit status, or 1 for a request.
fn outcome_of(status: Option<u8>) -> u32
    ensures { result ≡ line_number status }
{
    match status {
        Some(status) => u32::from(status),
        None => 1,
    }
}
