ghost use Rattle.std.specs.Prelude.{◌≡◌};
ghost use Rattle.std.specs.Cmp.{IsTotalOrder};
ghost use Rattle.std.specs.declared.cmp.Ordering.{Ordering};
ghost use Rattle.std.specs.declared.cmp.Ordering.TheVariants.{Equal};

use std::cmp::Ordering;

/// The order of the entries of a set: a total order in which `Equal` means that contracts see both values as identical. So
/// the order leaves nothing undecided.
pub trait SetOrder {
    // What `order` returns.
    ghost cmp: { Self → Self → Ordering };

    /// Returns how this value compares with another.
    ///
    /// ```
    /// assert_eq!(rt; one.order(&other), Ordering::Less);
    /// ```
    fn order(&self, other: &Self) -> Ordering
        ensures { result ≡ cmp self.now other.now };

    // The order is total.
    ghost total: { IsTotalOrder cmp };

    // Values that compare as `Equal` are identical.
    ghost exact: { (a b : Self) → cmp a b ≡ Equal → a ≡ b };
}
