ghost use Rattle.std.specs.Prelude.{◌≡◌, [], OnOk};
ghost use Rattle.erd_meaning.specs.Words.{family_number, Family};
ghost use Rattle.erd_meaning.specs.code.ObjectIndexes.{HasRoom, list_of, with_place};

use erd_tables::Family;
use std::alloc::{AllocError, Global};

/// For each family, the positions of its objects among all objects of a report, in rising order.
#[derive(Debug, Drop)]
pub(crate) struct FamilyPlaces {
    lists: [Vec<usize>; 9],
}

impl FamilyPlaces {
    /// Returns empty lists.
    pub(crate) fn new(alloc: Global) -> FamilyPlaces
        ensures { (f : Family) → list_of result f ≡ [] }
    {
        FamilyPlaces {
            lists: [
                Vec::new(alloc),
                Vec::new(alloc),
                Vec::new(alloc),
                Vec::new(alloc),
                Vec::new(alloc),
                Vec::new(alloc),
                Vec::new(alloc),
                Vec::new(alloc),
                Vec::new(alloc),
            ],
        }
    }

    /// Returns the positions of the objects of a family.
    pub(crate) fn of(&self, family: Family) -> &[usize]
        ensures { result.now ≡ list_of self.now family }
    {
        &self.lists[number_of(family)]
    }

    /// Makes room for one more position in the list of a family.
    pub(crate) fn reserve(&mut self, family: Family) -> Result<(), AllocError>
        ensures kept { (f : Family) → list_of self.new f ≡ list_of self.old f }
        ensures room { OnOk result (HasRoom self.new family) }
    {
        self.lists[number_of(family)].reserve(1)
    }

    /// Adds the position of an object to the list of its family. There must be room for it.
    pub(crate) fn push_reserved(&mut self, family: Family, place: usize)
        requires { HasRoom self.old family }
        ensures { (f : Family) → list_of self.new f ≡ with_place family place f (list_of self.old f) }
    {
        self.lists[number_of(family)].push_reserved(place);
    }
}

/// Returns the position of the family in a list of all families.
pub(crate) fn number_of(family: Family) -> usize
    ensures { result ≡ family_number family }
{
    match family {
        Family::Unit => 0,
        Family::Party => 1,
        Family::Person => 2,
        Family::Office => 3,
        Family::Header => 4,
        Family::Candidate => 5,
        Family::Contest => 6,
        Family::Style => 7,
        Family::Selection => 8,
    }
}
