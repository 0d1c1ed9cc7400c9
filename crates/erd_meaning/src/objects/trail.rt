//! Look-ups of objects by `@id` for references, which often name objects in the order of earlier references.
ghost use Rattle.std.specs.Prelude.{◌≡◌, true, map, Some};
ghost use Rattle.erd_meaning.specs.code.ObjectIndexes.{number_of_id};
ghost use Rattle.erd_meaning.specs.code.OwnIds.{HaveOwnIds};
ghost use Rattle.erd_meaning.specs.code.Shown.{shown};

use crate::objects::places::number_of;
use crate::objects::table::ObjectTable;
use erd_tables::Family;
use std::alloc::{AllocError, Global};
use std::cell::Cell;

/// The way that references took through the objects of a family. The ballots of a report list the same contests and selections
/// in much the same order, which may start anywhere, as with rotated candidates. So a look-up tries the two objects that were
/// named last after the object that was named last. It is a guess alone: no answer depends on it.
#[derive(Drop)]
pub(crate) struct Trail {
    // the position of the object that was named last
    last: Cell<usize>,
    // for each object, the positions of the two that were named last after it, the latest first
    after: Vec<Cell<(usize, usize)>>,
}

impl Trail {
    /// Returns the trail through no objects.
    fn new(alloc: Global) -> Trail {
        Trail {
            last: Cell::new(0),
            after: Vec::new(alloc),
        }
    }

    /// Adds an object. After it, the next object is expected, or itself again.
    fn push(&mut self) -> Result<(), AllocError> {
        let position = self.after.len();
        self.after
            .push(Cell::new((position.wrapping_add(1), position)))?;
        Ok(())
    }

    /// Returns the positions at which the object is looked for that is named after the one at a position.
    fn expected(&self, last: usize) -> [usize; 2] {
        match self.after.get(last) {
            Some(after) => {
                let (latest, earlier) = after.get();
                [latest, earlier]
            }
            None => [usize::MAX, usize::MAX],
        }
    }

    /// Notes that the object at a position was named after the one at `last`.
    fn follow(&self, last: usize, position: usize) {
        self.last.set(position);
        if let Some(after) = self.after.get(last) {
            let (latest, _) = after.get();
            if latest != position {
                after.set((position, latest));
            }
        }
    }
}

/// The trail through the objects of each family.
#[derive(Drop)]
pub(crate) struct Trails {
    each: [Trail; 9],
}

impl Trails {
    /// Returns the trails through no objects.
    pub(crate) fn new(alloc: Global) -> Trails {
        Trails {
            each: [
                Trail::new(alloc),
                Trail::new(alloc),
                Trail::new(alloc),
                Trail::new(alloc),
                Trail::new(alloc),
                Trail::new(alloc),
                Trail::new(alloc),
                Trail::new(alloc),
                Trail::new(alloc),
            ],
        }
    }

    /// Returns the trail through the objects of the family.
    pub(crate) fn of(&self, family: Family) -> &Trail {
        &self.each[number_of(family)]
    }

    /// Adds an object of the family.
    pub(crate) fn push(&mut self, family: Family) -> Result<(), AllocError> {
        self.each[number_of(family)].push()
    }
}

impl<'a> ObjectTable<'a> {
    /// Returns the family of the object with the `@id` and its position there, as `position_of_id` does, if no two objects have
    /// one `@id`. It looks first at the objects of a family to which the trail leads.
    pub(crate) fn position_on_trail(&self, family: Family, id: &str) -> Option<(Family, usize)>
        ensures { HaveOwnIds (map shown self.now.objects) → result ≡ number_of_id (map shown self.now.objects) id.now }
    {
        let trail = self.trail(family);
        let last = trail.last.get();
        let found = self.position_near(family, &trail.expected(last), id);
        if let Some((own, position)) = found {
            if own == family {
                trail.follow(last, position);
            }
        }
        found
    }

    /// Returns the family of the object with the `@id` and its position there. It looks first at the objects of a family at
    /// these positions.
    fn position_near(&self, family: Family, near: &[usize], id: &str) -> Option<(Family, usize)>
        ensures { HaveOwnIds (map shown self.now.objects) → result ≡ number_of_id (map shown self.now.objects) id.now }
    {
        for position in near {
            if self.has_id_at(family, *position, id) {
                return Some((family, *position));
            }
        }
        self.position_of_id(id)
    }

    /// Returns whether the object of the family at the position has the `@id`.
    pub(crate) fn has_id_at(&self, family: Family, position: usize, id: &str) -> bool
        ensures { result ≡ true → HaveOwnIds (map shown self.now.objects) → number_of_id (map shown self.now.objects) id.now ≡ Some (family, position) }
    {
        let Some(object) = self.get(family, position) else {
            return false;
        };
        match object.id {
            Some(own) => own == id,
            None => false,
        }
    }
}
