use std::hash::{Hash, Hasher};

/// A key of an index, and the number by which the index hashes it: that of the key under the salt of the index.
#[derive(Debug, Clone, Copy, Drop)]
pub struct Salted<K> {
    pub number: u64,
    pub key: K,
}

impl<K: Eq> PartialEq for Salted<K> {
    ghost use Rattle.std.specs.Prelude.{◌&&◌, ◌==◌};
    ghost use Rattle.std.specs.Cmp.{and_per, nat_eq_equiv, on_per, partial_equiv_from_equiv};

    ghost eq = { λ a b. (a.number == b.number) && K.eq a.key b.key };

    ghost laws = { and_per (on_per (λ s. s.number) (partial_equiv_from_equiv nat_eq_equiv)) (on_per (λ s. s.key) (partial_equiv_from_equiv K.Eq.laws)) };

    fn eq(&self, other: &Salted<K>) -> bool {
        self.number == other.number && self.key == other.key
    }
}

impl<K: Eq> Eq for Salted<K> {
    ghost use Rattle.std.specs.Cmp.{and_equiv, nat_eq_equiv, on_equiv};

    ghost laws = { and_equiv (on_equiv (λ s. s.number) nat_eq_equiv) (on_equiv (λ s. s.key) K.Eq.laws) };
}

impl<K: Eq> Hash for Salted<K> {
    ghost use Rattle.std.proofs.Common.{rules};
    ghost use Rattle.std.specs.Cmp.Rules.{hashing};
    ghost use Rattle.std.specs.Hash as fed;

    ghost hash_input = { λ s. fed.u64 s.number };

    ghost respects_eq = { Prim.search (hashing, rules) };

    fn hash<H: Hasher>(&self, state: &mut H) {
        self.number.hash(state);
    }
}
