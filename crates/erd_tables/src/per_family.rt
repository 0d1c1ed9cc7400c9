ghost use Rattle.std.specs.Prelude.{◌≡◌, IfOk, Ok};
ghost use Rattle.erd_tables.specs.declared.class.Family.{Family};
ghost use Rattle.erd_tables.specs.Families.{entry_of};

use crate::class::Family;
use std::alloc::AllocError;

/// One value for each family.
#[derive(Debug, Drop)]
pub struct PerFamily<T> {
    units: T,
    parties: T,
    persons: T,
    offices: T,
    headers: T,
    candidates: T,
    contests: T,
    styles: T,
    selections: T,
}

impl<T: Drop> PerFamily<T> {
    /// Returns the values that the function gives the families.
    ///
    /// # Errors
    ///
    /// `AllocError` if the function returns it for a family.
    ///
    /// ```
    /// let are_parties = PerFamily::of(|family| Ok(family == Family::Party))?;
    /// ```
    pub fn of<F: Fn(Family) -> Result<T, AllocError>>(make: F) -> Result<PerFamily<T>, AllocError>
        requires { F.IsAlwaysCallable make }
        ensures { IfOk result (λ all. (f : Family) → F.post make f (Ok (entry_of all f))) }
    {
        Ok(PerFamily {
            units: make(Family::Unit)?,
            parties: make(Family::Party)?,
            persons: make(Family::Person)?,
            offices: make(Family::Office)?,
            headers: make(Family::Header)?,
            candidates: make(Family::Candidate)?,
            contests: make(Family::Contest)?,
            styles: make(Family::Style)?,
            selections: make(Family::Selection)?,
        })
    }

    /// Returns the value of the family.
    ///
    /// ```
    /// assert!(rt; *are_parties.get(Family::Party));
    /// assert!(rt; !*are_parties.get(Family::Person));
    /// ```
    pub fn get(&self, family: Family) -> &T
        ensures { result.now ≡ entry_of self.now family }
    {
        match family {
            Family::Unit => &self.units,
            Family::Party => &self.parties,
            Family::Person => &self.persons,
            Family::Office => &self.offices,
            Family::Header => &self.headers,
            Family::Candidate => &self.candidates,
            Family::Contest => &self.contests,
            Family::Style => &self.styles,
            Family::Selection => &self.selections,
        }
    }
}
