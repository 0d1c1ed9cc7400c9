//! The key of an object or of an election.
ghost use Rattle.std.specs.Prelude.{◌≡◌, IfOk};
ghost use Rattle.erd_meaning.specs.Words.{key_cmp};

use erd_tables::Text;
use erd_text::SetOrder;
use std::alloc::{AllocError, Global};
use std::cmp::Ordering;

/// The key of an object or of an election: the three texts of the external identifier that `key_of` chooses. It
/// identifies the object in its family independently of the vendor. Keys are ordered by `kind`, then by `other`, then
/// by `value`.
#[derive(Debug, PartialEq, Eq, PartialOrd, Ord, Hash, Drop)]
pub struct Key {
    /// The `Type` of the identifier.
    pub kind: Text,
    /// The `OtherType` of the identifier, or the empty text if it has none.
    pub other: Text,
    /// The `Value` of the identifier.
    pub value: Text,
}

impl Key {
    /// Returns an equal key with copies of the texts.
    ///
    /// # Errors
    ///
    /// `AllocError` if out of memory.
    ///
    /// ```
    /// assert!(rt; one.try_clone(alloc)? == one);
    /// ```
    pub fn try_clone(&self, alloc: Global) -> Result<Key, AllocError>
        ensures { IfOk result (λ key. key ≡ self.now) }
    {
        let kind = copied(alloc, &self.kind)?;
        let other = copied(alloc, &self.other)?;
        let value = copied(alloc, &self.value)?;
        Ok(Key { kind, other, value })
    }
}

impl SetOrder for Key {
    ghost use Rattle.erd_meaning.specs.code.Orders.{key_cmp_exact, key_cmp_total};

    ghost cmp = { key_cmp };

    ghost total = { key_cmp_total };

    ghost exact = { key_cmp_exact };

    fn order(&self, other: &Key) -> Ordering {
        self.cmp(other)
    }
}

pub(crate) fn copied(alloc: Global, text: &Text) -> Result<Text, AllocError>
    ensures { IfOk result (λ copy. copy ≡ text.now) }
{
    Ok(Text::of(String::from_str(alloc, text.as_str())?))
}
