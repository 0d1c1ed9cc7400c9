//! What a report lends of its orders by keys: the positions in rising order, and the ranks.
ghost use Rattle.std.specs.Prelude.{◌≡◌, true, Some, map, option_map, slice_get};
ghost use Rattle.erd_meaning.specs.Words.{view, has_keys, key_of, election_rank_of, key_in, rank_of, rising_election_keys, rising_keys, elections};

use crate::report::Report;
use erd_tables::Family;

impl<'a> Report<'a> {
    /// Returns the positions of the objects of the family in the order of their keys. The family must have keys: selections
    /// have none.
    ///
    /// ```
    /// assert_eq!(rt; report.rising(Family::Unit).first(), Some(&0));
    /// ```
    pub fn rising(&self, family: Family) -> &[usize]
        requires keyed { has_keys family ≡ true }
        ensures { result.now ≡ map (λ p. p.1) (rising_keys self.now.prefer (view self.now.tree) family) }
    {
        self.indexes().objects.rising(family)
    }

    /// Returns the rank of the object of the family at the position: the number of objects of the family with lesser keys.
    /// Returns `None` if there is no such object. The family must have keys: selections have none.
    ///
    /// ```
    /// assert_eq!(rt; report.rank_at(Family::Candidate, 0), Some(0));
    /// ```
    pub fn rank_at(&self, family: Family, position: usize) -> Option<usize>
        requires keyed { has_keys family ≡ true }
        ensures { result ≡ option_map (λ k. rank_of self.now.prefer (view self.now.tree) family (Some k)) (key_in self.now.prefer family
            (view self.now.tree) position) }
    {
        self.indexes().objects.rank_at(family, position)
    }

    /// Returns the positions of the elections in the order of their keys.
    ///
    /// ```
    /// assert_eq!(rt; report.rising_elections().first(), Some(&0));
    /// ```
    pub fn rising_elections(&self) -> &[usize]
        ensures { result.now ≡ map (λ p. p.1) (rising_election_keys self.now.prefer (view self.now.tree)) }
    {
        &self.elections().order.rising
    }

    /// Returns the rank of the election at the position: the number of elections with lesser keys. Returns `None` if there is
    /// no such election.
    ///
    /// ```
    /// assert_eq!(rt; report.election_rank_at(0), Some(0));
    /// ```
    pub fn election_rank_at(&self, position: usize) -> Option<usize>
        ensures { result ≡ option_map (λ e. election_rank_of self.now.prefer (view self.now.tree) (key_of self.now.prefer e.value))
            (slice_get (elections (view self.now.tree)) position) }
    {
        self.elections().order.rank_at(position)
    }
}
