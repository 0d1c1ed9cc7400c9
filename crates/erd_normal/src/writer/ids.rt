ghost use Rattle.std.specs.Prelude.{◌≡◌, ◌+◌, ◌≤◌, ◌++◌, length, decimal, option_map, IfOk, IfSome};
ghost use Rattle.erd_normal.specs.Words.{array_string_len, canonical_id, canonical_selection_id, id_prefix};
ghost use Rattle.erd_normal.specs.code.Building.{id_of_rank};

use arrayvec::ArrayString;
use erd_tables::Family;
use itoa::Buffer;
use std::alloc::AllocError;

/// The most bytes of a canonical `@id`: two letters, a hyphen, and two numbers of at most 20 digits.
const MOST_BYTES: usize = 43;

/// The text of a canonical `@id`. It takes no memory but the stack's, since one is made for each reference.
pub(crate) type IdText = ArrayString<MOST_BYTES>;

/// Returns the canonical `@id` of the object with this rank in its family, or `None` if objects of the family have none: styles
/// have none, and selections are named within their contests.
pub(crate) fn optional_id_text(family: Family, rank: usize) -> Result<Option<IdText>, AllocError>
    ensures { IfOk result (λ id. option_map (λ text. text.bytes) id ≡ canonical_id family rank) }
{
    match id_letters(family) {
        Some(letters) => Ok(Some(numbered(letters, rank)?)),
        None => Ok(None),
    }
}

/// Returns the canonical `@id` of the object with this rank in its family. It is empty for styles and selections.
pub(crate) fn id_text(family: Family, rank: usize) -> Result<IdText, AllocError>
    ensures { IfOk result (λ id. id.bytes ≡ id_of_rank family rank) }
{
    match id_letters(family) {
        Some(letters) => numbered(letters, rank),
        None => Ok(IdText::new()),
    }
}

/// Returns the letters with which the canonical `@id`s of a family begin, or `None` if its objects have none.
fn id_letters(family: Family) -> Option<&'static str>
    ensures letters { option_map (λ letters. letters.now) result ≡ id_prefix family }
    ensures short { IfSome result (λ letters. length letters.now ≤ 2) }
{
    match family {
        Family::Unit => Some("gp"),
        Family::Party => Some("pa"),
        Family::Person => Some("pe"),
        Family::Office => Some("of"),
        Family::Header => Some("hd"),
        Family::Candidate => Some("ca"),
        Family::Contest => Some("co"),
        Family::Style | Family::Selection => None,
    }
}

/// Returns the letters with one more than the rank after them.
fn numbered(letters: &str, rank: usize) -> Result<IdText, AllocError>
    requires short { length letters.now ≤ 2 }
    ensures { IfOk result (λ id. id.bytes ≡ letters.now ++ decimal (rank + 1)) }
{
    let count = one_more(rank)?;
    let mut id = IdText::new();
    id.push_str(letters);
    push_number(&mut id, count);
    Ok(id)
}

/// Returns the canonical `@id` of the selection with this rank in the contest with this rank.
pub(crate) fn selection_id_text(contest: usize, rank: usize) -> Result<IdText, AllocError>
    ensures { IfOk result (λ id. id.bytes ≡ canonical_selection_id contest rank) }
{
    let contest = one_more(contest)?;
    let count = one_more(rank)?;
    let mut id = IdText::new();
    id.push_str("cs");
    push_number(&mut id, contest);
    id.push_str("-");
    push_number(&mut id, count);
    Ok(id)
}

/// Adds the decimal digits of a number, of which there are at most 20.
fn push_number(id: &mut IdText, number: usize)
    requires room { array_string_len id.old + 20 ≤ 43 }
    ensures text { id.new.bytes ≡ id.old.bytes ++ decimal number }
    ensures few { array_string_len id.new ≤ array_string_len id.old + 20 }
{
    let mut digits = Buffer::new();
    id.push_str(digits.format(number));
}

/// Returns one more than a rank: canonical `@id`s count from 1.
fn one_more(rank: usize) -> Result<usize, AllocError>
    ensures { IfOk result (λ count. count ≡ rank + 1) }
{
    match rank.checked_add(1) {
        Some(count) => Ok(count),
        // no memory has room for so many objects
        None => Err(AllocError),
    }
}
