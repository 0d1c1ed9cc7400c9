ghost use Rattle.std.specs.Prelude.{◌≡◌, [], Bool, IsTrue, not, option_copied, position, slice_get, IfOk, OnErr, OnOk};
ghost use Rattle.std.specs.List.{list_any, position_or_len};
ghost use Rattle.indexmap.specs.IndexSet.{insert_key};
ghost use Rattle.erd_index.specs.Salts.{salted_number, start_of};

use crate::salt::Salt;
use crate::salted::Salted;
use indexmap::{Equivalent, IndexSet};
use std::alloc::{AllocError, Global};
use std::hash::{Hash, Hasher};
use std::marker::Model;

/// What is looked up in a salted set: it stands for a key of the set without being one.
pub trait Sought<K: Eq + Hash>: Copy {
    // What `finds` answers.
    ghost finds: { Self → K → Bool };

    /// Returns the number under the salt of the key that is sought. If no key can be found, it may be any number.
    ///
    /// ```
    /// assert!(rt; sought.number(&salt) == salt.number(&20u64));
    /// ```
    fn number(&self, salt: &Salt) -> u64
        ensures { (k : K) → IsTrue (finds self.now k) → result ≡ salted_number salt.now (K.hash_input k) };

    /// Returns whether this is the key that is sought.
    ///
    /// ```
    /// assert!(rt; sought.finds(&20));
    /// ```
    fn finds(&self, key: &K) -> bool
        ensures { result ≡ finds self.now key.now };

    // It tells keys apart as the set does.
    ghost respects_eq: { (q : Self) (x y : K) → IsTrue (finds q x) → finds q y ≡ K.eq x y };
}

/// What is looked up, with its number.
#[derive(Clone, Copy, Drop)]
struct Numbered<Q> {
    number: u64,
    sought: Q,
}

impl<Q> PartialEq for Numbered<Q> {
    ghost use Rattle.std.specs.Prelude.{◌==◌};
    ghost use Rattle.std.specs.Cmp.{nat_eq_equiv, on_per, partial_equiv_from_equiv};

    ghost eq = { λ a b. a.number == b.number };

    ghost laws = { on_per (λ s. s.number) (partial_equiv_from_equiv nat_eq_equiv) };

    fn eq(&self, other: &Numbered<Q>) -> bool {
        self.number == other.number
    }
}

impl<Q> Eq for Numbered<Q> {
    ghost use Rattle.std.specs.Cmp.{nat_eq_equiv, on_equiv};

    ghost laws = { on_equiv (λ s. s.number) nat_eq_equiv };
}

impl<Q> Hash for Numbered<Q> {
    ghost use Rattle.std.proofs.Common.{rules};
    ghost use Rattle.std.specs.Cmp.Rules.{hashing};
    ghost use Rattle.std.specs.Hash as fed;

    ghost hash_input = { λ s. fed.u64 s.number };

    ghost respects_eq = { Prim.search (hashing, rules) };

    fn hash<H: Hasher>(&self, state: &mut H) {
        self.number.hash(state);
    }
}

impl<K: Eq + Hash, Q: Sought<K>> Equivalent<Salted<K>> for Numbered<Q> {
    ghost use Rattle.std.specs.Prelude.{◌&&◌, ◌==◌};
    ghost use Rattle.erd_index.specs.code.SaltedQueries.{asked_alike, asked_equal};

    ghost equivalent = { λ q k. (q.number == k.number) && Q.finds q.sought k.key };

    ghost respects_hash = { asked_alike Q.finds };

    ghost respects_eq = { asked_equal K.eq Q.finds Q.Sought.respects_eq };

    fn equivalent(&self, key: &Salted<K>) -> bool {
        self.number == key.number && self.sought.finds(&key.key)
    }
}

/// A set whose keys stand in the order in which they came. It hashes them under a salt, so that keys which crowd it are hard
/// to choose. Contracts see the keys, and the hasher that the salt starts.
#[derive(Debug, Drop)]
pub struct SaltedSet<K: Eq + Hash> {
    salt: Salt,
    set: IndexSet<Salted<K>>,
}

impl<K: Eq + Hash> Model for SaltedSet<K> {
    ghost use Rattle.erd_index.specs.Salts.{AreNumbered, SaltedKeys, keys_in, start_of};

    ghost Value = { SaltedKeys K };

    ghost view = { λ s. record {
      start = start_of s.salt;
      keys = keys_in s.set.keys;
    } };

    ghost invariant = { λ s. AreNumbered K.hash_input s.salt s.set.keys };
}

impl<K: Eq + Hash + Drop> SaltedSet<K> {
    /// Returns a set without keys. The salt has no part in what a call returns, only in the time that it takes.
    ///
    /// ```
    /// let mut numbers = SaltedSet::new(alloc, Salt::of(1, 2));
    /// ```
    pub fn new(alloc: Global, salt: Salt) -> SaltedSet<K>
        ensures start { result.start ≡ start_of salt }
        ensures keys { result.keys ≡ [] }
    {
        SaltedSet {
            salt,
            set: IndexSet::new(alloc),
        }
    }

    /// Adds a key, unless the set has an equal one. Returns whether it was added.
    ///
    /// # Errors
    ///
    /// `AllocError` if out of memory.
    ///
    /// ```
    /// assert!(rt; numbers.insert(20)?);
    /// assert!(rt; !numbers.insert(20)?);
    /// ```
    pub fn insert(&mut self, key: K) -> Result<bool, AllocError>
        ensures added { IfOk result (λ added. added ≡ not (list_any (K.eq key) self.old.keys)) }
        ensures keys { OnOk result (self.new.keys ≡ insert_key K.eq self.old.keys key) }
        ensures kept { OnErr result (self.new.keys ≡ self.old.keys) }
        ensures start { self.new.start ≡ self.old.start }
    {
        let number = self.salt.number(&key);
        Ok(self.set.insert(Salted { number, key })?)
    }

    /// Adds a key, unless the set has an equal one. Returns the position that the key has, and whether it was added.
    ///
    /// # Errors
    ///
    /// `AllocError` if out of memory.
    ///
    /// ```
    /// assert_eq!(rt; numbers.insert_full(30)?, (1, true));
    /// assert_eq!(rt; numbers.insert_full(30)?, (1, false));
    /// ```
    pub fn insert_full(&mut self, key: K) -> Result<(usize, bool), AllocError>
        ensures index { IfOk result (λ r. r.0 ≡ position_or_len (K.eq key) self.old.keys) }
        ensures added { IfOk result (λ r. r.1 ≡ not (list_any (K.eq key) self.old.keys)) }
        ensures keys { OnOk result (self.new.keys ≡ insert_key K.eq self.old.keys key) }
        ensures kept { OnErr result (self.new.keys ≡ self.old.keys) }
        ensures start { self.new.start ≡ self.old.start }
    {
        let number = self.salt.number(&key);
        Ok(self.set.insert_full(Salted { number, key })?)
    }

    /// Returns the key at the position, if there is one.
    ///
    /// ```
    /// assert_eq!(rt; numbers.get_index(1), Some(&30));
    /// ```
    pub fn get_index(&self, index: usize) -> Option<&K>
        ensures { option_copied result ≡ slice_get self.now.keys index }
    {
        match self.set.get_index(index) {
            Some(salted) => Some(&salted.key),
            None => None,
        }
    }

    /// Returns the position of the key that is sought, if the set has it.
    ///
    /// ```
    /// assert_eq!(rt; numbers.position(Number(30)), Some(1));
    /// ```
    pub fn position<Q: Sought<K>>(&self, sought: Q) -> Option<usize>
        ensures { result ≡ position (Q.finds sought) self.now.keys }
    {
        let number = sought.number(&self.salt);
        self.set.get_index_of(Numbered { number, sought })
    }
}
