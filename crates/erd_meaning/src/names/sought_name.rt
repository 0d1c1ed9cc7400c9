ghost use Rattle.erd_meaning.specs.Words.{write, eq_by_cmp, family_chosen, ranked_name_cmp};
ghost use Rattle.std.specs.Hash as fed;
ghost use Rattle.std.specs.Prelude.{◌≡◌, ◌&&◌, ◌==◌, flat_map, fold, map, Some};
ghost use Rattle.erd_meaning.specs.code.RanksAmong.{are_ranks_of, fed_rank, has_keys_among, is_key_among, rank_among, ranked_parts, is_sought};
ghost use Rattle.erd_meaning.specs.code.Shown.{shown};
ghost use Rattle.erd_meaning.specs.code.RankedOrders.{sought_equal};

use crate::keys::key::Key;
use crate::names::ranked_name::RankedName;
use crate::names::selection_name::{SelectionName, compare_numbered};
use crate::objects::ranked_objects::RankedObjects;
use erd_index::{Salt, Sought};
use erd_tables::type_text;
use std::hash::{DefaultHasher, Hash, Hasher};

/// A selection that is looked up in an index of names: the position of its contest, and its name. The ranks in the index are
/// those among `objects`.
#[derive(Clone, Copy, Drop)]
pub(crate) struct SoughtName<'b, 'a> {
    pub(crate) objects: &'b RankedObjects<'a>,
    pub(crate) contest: usize,
    pub(crate) name: &'b SelectionName,
}

impl<'b, 'a> SoughtName<'b, 'a> {
    /// Returns whether the index has the name as this one.
    fn is_name(&self, name: &RankedName<SelectionName>) -> bool
        ensures { result ≡ (has_keys_among (map shown self.now.objects.now.objects) self.now.name.now
            && eq_by_cmp ranked_name_cmp (ranked_parts (map shown self.now.objects.now.objects) self.now.name.now) name.now) }
    {
        if !self.has_ranks(name.ranks()) {
            return false;
        }
        compare_numbered(self.name, name.ranks(), name.name(), name.ranks()).is_eq()
    }

    /// Returns whether each key in the name is that of an object and these are the ranks of the keys.
    fn has_ranks(&self, ranks: &[usize]) -> bool
        ensures { result ≡ are_ranks_of (map shown self.now.objects.now.objects) (family_chosen self.now.name.now.class) self.now.name.now.keys ranks.now }
    {
        let name = self.name;
        let keys = &name.keys;
        if keys.len() != ranks.len() {
            return false;
        }
        for (index, key) in keys.iter().enumerate() {
            if !self.has_rank(key.key(), ranks[index]) {
                return false;
            }
        }
        true
    }

    /// Returns whether the key is that of an object and this is its rank.
    fn has_rank(&self, key: &Key, rank: usize) -> bool
        ensures { result ≡ (is_key_among (map shown self.now.objects.now.objects) (family_chosen self.now.name.now.class) key.now
            && (rank_among (map shown self.now.objects.now.objects) (family_chosen self.now.name.now.class) (Some key.now) == rank)) }
    {
        let name = self.name;
        match self.objects.rank_of(name.class, key) {
            Some(own) => own == rank,
            None => false,
        }
    }

    /// Feeds a hasher the ranks of the keys, and 0 for a key that is of no object.
    fn feed_ranks(&self, hasher: &mut DefaultHasher)
        ensures { hasher.new ≡ fold write hasher.old
            (flat_map fed.usize (map (fed_rank (map shown self.now.objects.now.objects) (family_chosen self.now.name.now.class)) self.now.name.now.keys)) }
    {
        let name = self.name;
        for key in &name.keys {
            self.fed_rank(key.key()).hash(hasher);
        }
    }

    /// Returns the rank of the key, or 0 if the key is of no object.
    fn fed_rank(&self, key: &Key) -> usize
        ensures { result ≡ fed_rank (map shown self.now.objects.now.objects) (family_chosen self.now.name.now.class) key.now }
    {
        let name = self.name;
        self.objects.rank_of(name.class, key).unwrap_or_default()
    }
}

impl<'b, 'a> Sought<(usize, RankedName<SelectionName>)> for SoughtName<'b, 'a> {
    ghost finds = { λ q. is_sought (map shown q.objects.now.objects) q.contest q.name.now };

    ghost respects_eq = { λ q. sought_equal (map shown q.objects.now.objects) q.contest q.name.now };

    fn number(&self, salt: &Salt) -> u64 {
        let name = self.name;
        let mut hasher = salt.hasher();
        self.contest.hash(&mut hasher);
        type_text(name.class).hash(&mut hasher);
        name.keys.len().hash(&mut hasher);
        self.feed_ranks(&mut hasher);
        name.hash_after_keys(&mut hasher);
        hasher.finish()
    }

    fn finds(&self, key: &(usize, RankedName<SelectionName>)) -> bool {
        self.contest == key.0 && self.is_name(&key.1)
    }
}
