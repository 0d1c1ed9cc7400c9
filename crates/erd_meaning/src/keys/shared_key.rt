ghost use Rattle.std.specs.Prelude.{◌≡◌, IfOk, refl};
ghost use Rattle.erd_meaning.specs.Words.{eq_by_cmp_equiv, partial_equiv_from_equiv, eq_by_cmp, key_cmp, partial_order_from_total, as_partial_cmp, key_writes};
ghost use Rattle.erd_meaning.specs.code.Orders.{key_cmp_total, equal_keys_alike};

use crate::keys::key::Key;
use crate::keys::triple::Triple;
use std::alloc::{AllocError, Global};
use std::cmp::Ordering;
use std::hash::{Hash, Hasher};
use std::marker::Model;
use std::rc::Rc;

/// A key that is stored once and may have several owners. Contracts see the key.
#[derive(Debug, Drop)]
pub(crate) struct SharedKey {
    key: Rc<Key>,
}

impl Model for SharedKey {
    ghost use Rattle.erd_meaning.specs.Words.{Key};

    ghost Value = { Key };

    ghost view = { λ s. s.key.value };
}

impl SharedKey {
    /// Returns a shared key with one owner.
    pub(crate) fn of(alloc: Global, key: Key) -> Result<SharedKey, AllocError>
        ensures { IfOk result (λ shared. shared ≡ key) }
    {
        Ok(SharedKey {
            key: Rc::new(alloc, key)?,
        })
    }

    /// Returns a shared key with copies of the texts of the triple, if there is one.
    pub(crate) fn of_triple(
        alloc: Global,
        triple: &Option<Triple>,
    ) -> Result<Option<SharedKey>, AllocError>
        ensures { IfOk result (λ shared. shared ≡ triple.now) }
    {
        match triple {
            Some(triple) => Ok(Some(SharedKey::of(alloc, triple.to_key(alloc)?)?)),
            None => Ok(None),
        }
    }

    /// Returns the key.
    pub(crate) fn key(&self) -> &Key
        ensures { result.now ≡ self.now }
    {
        self.key.as_ref()
    }

    /// Returns the same key, which then has one more owner.
    pub(crate) fn try_clone(&self) -> Result<SharedKey, AllocError>
        ensures { IfOk result (λ shared. shared ≡ self.now) }
    {
        Ok(SharedKey {
            key: self.key.clone()?,
        })
    }
}

impl PartialEq for SharedKey {
    ghost eq = { eq_by_cmp key_cmp };

    ghost laws = { partial_equiv_from_equiv (eq_by_cmp_equiv key_cmp_total) };

    fn eq(&self, other: &SharedKey) -> bool {
        self.key().cmp(other.key()).is_eq()
    }
}

impl Eq for SharedKey {
    ghost laws = { eq_by_cmp_equiv key_cmp_total };
}

impl PartialOrd for SharedKey {
    ghost partial_cmp = { as_partial_cmp key_cmp };

    ghost laws = { partial_order_from_total key_cmp_total };

    fn partial_cmp(&self, other: &SharedKey) -> Option<Ordering> {
        Some(self.key().cmp(other.key()))
    }
}

impl Ord for SharedKey {
    ghost cmp = { key_cmp };

    ghost total = { key_cmp_total };

    ghost matches_partial_cmp = { λ a b. refl };

    ghost matches_eq = { λ a b. refl };

    fn cmp(&self, other: &SharedKey) -> Ordering {
        self.key().cmp(other.key())
    }
}

impl Hash for SharedKey {
    ghost hash_input = { key_writes };

    ghost respects_eq = { equal_keys_alike key_writes };

    fn hash<H: Hasher>(&self, state: &mut H) {
        self.key().hash(state);
    }
}
