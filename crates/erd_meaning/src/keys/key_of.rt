//! The choice of the key of an object among its external identifiers.
ghost use Rattle.std.specs.Prelude.{◌≡◌, option_copied, IfOk};
ghost use Rattle.erd_meaning.specs.Words.{view, key_of};

use crate::keys::key::Key;
use crate::keys::triple::Triple;
use erd_check::values::entries_at;
use serde_json::Value;
use std::alloc::{AllocError, Global};

/// Returns the key of an object: the least of its external identifiers whose `Type` is the preferred text. If no
/// identifier has this `Type`, or no text is preferred, it is the least of all. Returns `None` if the object has no
/// external identifier. The rule is from docs/PROFILE.md, "Keys and selection names".
///
/// # Errors
///
/// `AllocError` if out of memory.
///
/// ```
/// assert_eq!(rt; key_of(alloc, county, None)?, Some(key(alloc, "fips", "20")?));
/// ```
pub fn key_of(
    alloc: Global,
    object: &Value,
    prefer: Option<&str>,
) -> Result<Option<Key>, AllocError>
    ensures { IfOk result (λ key. key ≡ key_of (option_copied prefer.entry) (view object.now)) }
{
    match chosen_triple(object, prefer) {
        Some(chosen) => Ok(Some(chosen.to_key(alloc)?)),
        None => Ok(None),
    }
}

/// Returns the identifier that gives an object its key, if it has one.
pub(crate) fn chosen_triple<'a>(object: &'a Value, prefer: Option<&str>) -> Option<Triple<'a>>
    ensures { result ≡ key_of (option_copied prefer.entry) (view object.now) }
{
    match entries_at(object, "ExternalIdentifier") {
        [] => None,
        [first, rest @ ..] => {
            let mut chosen = Triple::of(first);
            for identifier in rest {
                let triple = Triple::of(identifier);
                if triple.goes_before(&chosen, prefer) {
                    chosen = triple;
                }
            }
            Some(chosen)
        }
    }
}
