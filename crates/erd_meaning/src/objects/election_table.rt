ghost use Rattle.std.specs.Prelude.{◌≡◌, ◌++◌, ◌∷◌, [], length, option_and_then, option_copied, IfOk, OnErr, OnOk, slice_get};
ghost use Rattle.erd_index.specs.Salts.{start_of};
ghost use Rattle.erd_meaning.specs.Words.{list_any};
ghost use Rattle.erd_meaning.specs.code.ElectionKeys.{is_seen, seen_with};
ghost use Rattle.erd_meaning.specs.code.KeyOrders.{AreDistinct, IsOrder, positioned, seen_keys};
ghost use Rattle.erd_meaning.specs.code.ObjectWalk.{same_key};

use crate::keys::key::Key;
use crate::keys::shared_key::SharedKey;
use crate::keys::triple::Triple;
use crate::objects::order::Order;
use erd_index::{Salt, SaltedSet};
use std::alloc::{AllocError, Global};
use std::fmt;
use std::marker::Model;

/// The keys of the elections of a report, in the order of the elections. An election may have no key. Contracts see the
/// keys, and the hasher that the salt of the index starts.
#[derive(Drop)]
pub(crate) struct ElectionTable<'a> {
    keys: Vec<Option<SharedKey>>,
    seen: SaltedSet<Triple<'a>>,
}

impl<'a> Model for ElectionTable<'a> {
    ghost use Rattle.erd_meaning.specs.code.ElectionKeys.{AreSeen};
    ghost use Rattle.erd_meaning.specs.code.Held.{HeldElections};

    ghost Value = { HeldElections };

    ghost view = { λ t. record {
      start = t.seen.start;
      keys = t.keys.items;
    } };

    ghost invariant = { λ t. AreSeen t.keys.items t.seen.keys };
}

impl<'a> ElectionTable<'a> {
    /// Returns a table without elections.
    pub(crate) fn new(alloc: Global, salt: Salt) -> ElectionTable<'a>
        ensures start { result.start ≡ start_of salt }
        ensures keys { result.keys ≡ [] }
    {
        ElectionTable {
            keys: Vec::new(alloc),
            seen: SaltedSet::new(alloc, salt),
        }
    }

    /// Adds an election with its key, if it has one. Returns whether an earlier election has the same key.
    pub(crate) fn push(
        &mut self,
        alloc: Global,
        key: Option<Triple<'a>>,
    ) -> Result<bool, AllocError>
        ensures pushed { OnOk result (self.new.keys ≡ self.old.keys ++ key.entry ∷ []) }
        ensures start { OnOk result (self.new.start ≡ self.old.start) }
        ensures known { IfOk result (λ known. known ≡ list_any (same_key key.entry) self.old.keys) }
    {
        let shared = SharedKey::of_triple(alloc, &key)?;
        self.keys.reserve(1)?;
        let known = note(&mut self.seen, key)?;
        self.keys.push_reserved(shared);
        Ok(known)
    }

    /// Returns the number of elections.
    fn len(&self) -> usize
        ensures { result ≡ length self.now.keys }
    {
        self.keys.len()
    }

    /// Returns the key of the election at the position, if there is such an election and it has a key.
    pub(crate) fn key_at(&self, index: usize) -> Option<&Key>
        ensures { option_copied result ≡ option_and_then (λ k. k) (slice_get self.now.keys index) }
    {
        match self.keys.get(index)? {
            Some(shared) => Some(shared.key()),
            None => None,
        }
    }

    /// Returns the order of the elections by their keys. No two are equal.
    pub(crate) fn order(&self, alloc: Global) -> Result<Order, AllocError>
        requires distinct { AreDistinct self.now.keys }
        ensures { IfOk result (IsOrder self.now.keys) }
    {
        Order::of(alloc, self.lent_keys(alloc)?)
    }

    /// Returns the keys of the elections with their positions.
    fn lent_keys(&self, alloc: Global) -> Result<Vec<(Option<&Key>, usize)>, AllocError>
        ensures { IfOk result (λ keys. seen_keys keys.items ≡ positioned 0 self.now.keys) }
    {
        let count = self.len();
        let mut keys = Vec::with_capacity(alloc, count)?;
        for index in 0..count {
            keys.push((self.key_at(index), index))?;
        }
        Ok(keys)
    }
}

/// Adds a key, if there is one, to the keys that were seen. Returns whether it was seen before.
fn note<'a>(seen: &mut SaltedSet<Triple<'a>>, key: Option<Triple<'a>>) -> Result<bool, AllocError>
    ensures known { IfOk result (λ known. known ≡ is_seen seen.old.keys key.entry) }
    ensures noted { OnOk result (seen.new.keys ≡ seen_with seen.old.keys key.entry) }
    ensures kept { OnErr result (seen.new.keys ≡ seen.old.keys) }
    ensures start { seen.new.start ≡ seen.old.start }
{
    match key {
        Some(key) => Ok(!seen.insert(key)?),
        None => Ok(false),
    }
}

impl<'a> fmt::Debug for ElectionTable<'a> {
    fn fmt<W: fmt::Write>(&self, f: &mut fmt::Formatter<W>) -> fmt::Result {
        f.debug_list().entries(self.keys.as_slice()).finish()
    }
}
