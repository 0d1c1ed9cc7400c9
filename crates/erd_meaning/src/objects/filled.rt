ghost use Rattle.std.specs.Prelude.{◌≡◌, ◌<◌, ◌^◌, length, map, IfOk};
ghost use Rattle.erd_index.specs.Salts.{start_of};
ghost use Rattle.erd_meaning.specs.code.CollectedWalks.{found};
ghost use Rattle.erd_meaning.specs.code.Held.{AreSalted};
ghost use Rattle.erd_meaning.specs.code.ObjectWalk.{met_all, met_one, nothing_met};
ghost use Rattle.erd_meaning.specs.code.ShownWalks.{met_of};

use crate::keys::shared_key::SharedKey;
use crate::objects::collected::Found;
use crate::objects::election_table::ElectionTable;
use crate::objects::spot::{holder_of, push_election_faults, push_object_faults};
use crate::objects::table::{Object, ObjectTable};
use erd_index::Salt;
use erd_tables::{Family, Fault};
use std::alloc::{AllocError, Global};

/// The objects and the elections of a report in their tables, and the faults of identity that were met on the way.
#[derive(Drop)]
pub(crate) struct Tables<'a> {
    pub(crate) objects: ObjectTable<'a>,
    pub(crate) elections: ElectionTable<'a>,
    pub(crate) faults: Vec<Fault>,
}

/// Returns the tables of what was found, in which nothing is looked up by name.
pub(crate) fn filled<'a>(
    alloc: Global,
    salt: Salt,
    all: Vec<Found<'a>>,
) -> Result<Tables<'a>, AllocError>
    ensures met { IfOk result (λ tables. met_of tables ≡ met_all nothing_met (map found all.entry.items)) }
    ensures few { IfOk result (λ _. length all.entry.items < 2 ^ 64) }
    ensures salted { IfOk result (λ tables. AreSalted (start_of salt) tables.objects tables.elections) }
{
    let mut tables = Tables {
        objects: ObjectTable::with_capacity(alloc, salt, all.len())?,
        elections: ElectionTable::new(alloc, salt),
        faults: Vec::new(alloc),
    };
    for one in all {
        tables.add(alloc, one)?;
    }
    Ok(tables)
}

impl<'a> Tables<'a> {
    /// Adds an election or an object, and its faults of identity: it lacks a key that it needs, or has the key or the `@id` of
    /// an earlier one. The place of a fault is made of the positions that are kept.
    fn add(&mut self, alloc: Global, one: Found<'a>) -> Result<(), AllocError>
        ensures met { IfOk result (λ _. met_of self.new ≡ met_one (met_of self.old) (found one.entry)) }
        ensures objects { IfOk result (λ _. self.new.objects.start ≡ self.old.objects.start) }
        ensures elections { IfOk result (λ _. self.new.elections.start ≡ self.old.elections.start) }
    {
        match one {
            Found::Election {
                index,
                needs_key,
                key,
            } => {
                let lacks_key = needs_key && key.is_none();
                let has_key = self.elections.push(alloc, key)?;
                push_election_faults(alloc, index, lacks_key, has_key, &mut self.faults)
            }
            Found::Object {
                family,
                spot,
                value,
                key,
                id,
            } => {
                let lacks_key = family != Family::Selection && key.is_none();
                let shared = SharedKey::of_triple(alloc, &key)?;
                let object = Object {
                    family,
                    value,
                    key: shared,
                    id,
                    election: holder_of(family, spot),
                };
                let earlier = self.objects.push(object, key)?;
                push_object_faults(alloc, family, spot, lacks_key, earlier, &mut self.faults)
            }
        }
    }
}
