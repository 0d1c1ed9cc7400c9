ghost use Rattle.std.specs.Prelude.{◌≡◌, List, [], ◌∷◌, ◌++◌};
ghost use Rattle.std.specs.Borrow.{ftrue};

use std::marker::{Model, PhantomData};

/// A list of pairs that only contracts see, as `items`. It takes no memory and does nothing at run time.
#[derive(Drop)]
pub struct Log<A, B> {
    of: PhantomData<(A, B)>,
    pub ghost items: { List (A × B) },
}

impl<A, B> Model for Log<A, B> {
    ghost also_owns = { λ _. ftrue };
}

impl<A, B> Log<A, B> {
    /// Returns an empty log.
    pub fn new() -> Log<A, B>
        ensures { result.items ≡ [] }
    {
        Log { of: PhantomData }
    }

    /// Returns the log with this pair at its end.
    #[inline(always)]
    pub fn and(&self, _first: &A, _second: &B) -> Log<A, B>
        ensures { result.items ≡ self.now.items ++ (_first.now, _second.now) ∷ [] }
    {
        Log { of: PhantomData }
    }
}
