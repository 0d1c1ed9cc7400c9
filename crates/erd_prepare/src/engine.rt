//! One recursion that does every step.
ghost use Rattle.std.specs.Prelude.{◌≡◌, [], ◌++◌, ◌∷◌, map, option_map, string_bytes, None, Some, IfOk, if◌then◌else◌};
ghost use Rattle.serde_json.specs.Data.{put, object};
ghost use Rattle.serde_json.specs.Find.{get};
ghost use Rattle.serde_json.specs.View.{view, items_view, members_view};
ghost use Rattle.erd_tables.specs.declared.class.Role.TheVariants.{Report};
ghost use Rattle.erd_tables.specs.declared.place.Step.TheVariants.{Name};
ghost use Rattle.erd_check.specs.Paths.{steps_of};
ghost use Rattle.erd_check.specs.Wants.{want_of_name};
ghost use Rattle.erd_check.specs.declared.want.Want.TheVariants.{Object};
ghost use Rattle.erd_prepare.specs.Changes.{told_by};
ghost use Rattle.erd_prepare.specs.Rules.{entry_in, list_of_one, prepared, prepared_items, prepared_members, put_all, seen, told, told_change, told_items};
ghost use Rattle.erd_prepare.specs.Rules.{told_members, told_puts};

use crate::asked::entry_in;
use crate::change::Change;
use crate::left::Left;
use crate::mender::Mender;
use crate::path_places::place_near;
use erd_check::path::Path;
use erd_check::want::{Scope, Want, want_in};
use erd_tables::class::Role;
use serde_json::{Map, Value};
use std::alloc::{AllocError, Global};

/// What a step made of a report.
#[derive(Drop)]
pub struct Done {
    /// The report after the step.
    pub tree: Value,
    /// What the step did, with the places of the report before it.
    pub changes: Vec<Change>,
    /// What the step left as it is, and why.
    pub left: Vec<Left>,
}

/// Does a step on a report, which stays as it is.
///
/// # Errors
///
/// `AllocError` if out of memory.
pub fn prepare<M: Mender>(alloc: Global, mender: &M, report: &Value) -> Result<Done, AllocError>
    ensures tree { IfOk result (λ done. view done.tree ≡ prepared (M.rule mender.now) [] (Some (Object Report)) (view report.now)) }
    ensures changes { IfOk result (λ done. told_by done.changes.items ≡ told (M.rule mender.now) [] (Some (Object Report)) (view report.now)) }
{
    let mut changes = Vec::new(alloc);
    let mending = Mending { alloc, mender };
    let want = Some(Want::Object(Role::Report));
    let tree = value_after(&mending, report, want, &Path::Root, &mut changes)?;
    Ok(Done {
        tree,
        changes,
        left: Vec::new(alloc),
    })
}

/// A step, with the memory that it takes.
#[derive(Drop)]
struct Mending<'m, M: Mender> {
    alloc: Global,
    mender: &'m M,
}

/// Returns the value after the step, and adds what is told of it.
#[cycle(prepare)]
fn value_after<M: Mender>(
    mending: &Mending<M>,
    value: &Value,
    want: Option<Want>,
    path: &Path,
    changes: &mut Vec<Change>,
) -> Result<Value, AllocError>
    ensures tree { IfOk result (λ v. view v ≡ prepared (M.rule mending.now.mender.now) (steps_of path.now) want (view value.now)) }
    ensures changes { IfOk result (λ _. told_by changes.new.items ≡ told_by changes.old.items ++ told (M.rule mending.now.mender.now) (steps_of path.now)
        want (view value.now)) }
{
    if let Some(other) = mending.mender.shape(mending.alloc, path, want, value)? {
        let after = Some(other.clone()?);
        push_change(mending.alloc, path, Some(value.clone()?), after, changes)?;
        return Ok(other);
    }
    match value {
        Value::Null => Ok(Value::Null),
        Value::Bool(truth) => Ok(Value::Bool(*truth)),
        Value::Number(number) => Ok(Value::Number(*number)),
        Value::String(text) => Ok(Value::String(text.clone()?)),
        Value::Array(items) => {
            Ok(Value::Array(items_after(mending, items, want, path, changes)?))
        }
        Value::Object(members) => {
            if mending.mender.wraps(path, want, value) {
                push_list(mending.alloc, value, path, changes)?;
                let inner = entry_in(want);
                let scope = mending.mender.scope(mending.alloc, inner, value)?;
                let kept = members_after(mending, members, scope, path, changes)?;
                let object = object_with(mending, value, inner, path, kept, changes)?;
                list_of_one(mending.alloc, object)
            } else {
                let scope = mending.mender.scope(mending.alloc, want, value)?;
                let kept = members_after(mending, members, scope, path, changes)?;
                object_with(mending, value, want, path, kept, changes)
            }
        }
    }
}

/// Adds what is told of an object that becomes a list of itself.
fn push_list(
    alloc: Global,
    value: &Value,
    path: &Path,
    changes: &mut Vec<Change>,
) -> Result<(), AllocError>
    ensures { IfOk result (λ _. told_by changes.new.items ≡ told_by changes.old.items ++ told_change (steps_of path.now) (view value.now)
        (Some (list_of_one (view value.now))) ∷ []) }
{
    let after = list_of_one(alloc, value.clone()?)?;
    push_change(alloc, path, Some(value.clone()?), Some(after), changes)
}

/// Returns the array of one value.
fn list_of_one(alloc: Global, value: Value) -> Result<Value, AllocError>
    ensures { IfOk result (λ v. view v ≡ list_of_one (view value)) }
{
    let mut items = Vec::new(alloc);
    items.push(value)?;
    Ok(Value::Array(items))
}

/// Returns an object of which these members are kept, with those that the step puts in. `value` is the object before the step.
fn object_with<M: Mender>(
    mending: &Mending<M>,
    value: &Value,
    want: Option<Want>,
    path: &Path,
    kept: Map<String, Value>,
    changes: &mut Vec<Change>,
) -> Result<Value, AllocError>
    ensures tree { IfOk result (λ v. view v
        ≡ object (put_all ((M.rule mending.now.mender.now).puts (steps_of path.now) want (view value.now)) (members_view kept.entries))) }
    ensures changes { IfOk result (λ _. told_by changes.new.items
        ≡ told_by changes.old.items ++ told_puts (steps_of path.now) (view value.now)
        ((M.rule mending.now.mender.now).puts (steps_of path.now) want (view value.now))) }
{
    let mut all = kept;
    let puts = mending.mender.puts(mending.alloc, path, want, value)?;
    put_in(mending.alloc, puts, value, path, &mut all, changes)?;
    Ok(Value::Object(all))
}

#[cycle(prepare)]
fn items_after<M: Mender>(
    mending: &Mending<M>,
    items: &Vec<Value>,
    want: Option<Want>,
    path: &Path,
    changes: &mut Vec<Change>,
) -> Result<Vec<Value>, AllocError>
    ensures tree { IfOk result (λ v. items_view v.items ≡ prepared_items (M.rule mending.now.mender.now) (steps_of path.now) want 0
        (items_view items.now.items)) }
    ensures changes { IfOk result (λ _. told_by changes.new.items
        ≡ told_by changes.old.items ++ told_items (M.rule mending.now.mender.now) (steps_of path.now) want 0 (items_view items.now.items)) }
{
    let mut kept = Vec::with_capacity(mending.alloc, items.len())?;
    for (index, item) in items.iter().enumerate() {
        let at = Path::Entry(&*path, index);
        add_item(mending, item, want, &at, &mut kept, changes)?;
    }
    Ok(kept)
}

/// Adds an entry of an array of which this is asked, unless it is let go.
#[cycle(prepare)]
fn add_item<M: Mender>(
    mending: &Mending<M>,
    item: &Value,
    want: Option<Want>,
    at: &Path,
    kept: &mut Vec<Value>,
    changes: &mut Vec<Change>,
) -> Result<(), AllocError>
    ensures tree { IfOk result (λ _. map view kept.new.items ≡ map view kept.old.items
        ++ (if (M.rule mending.now.mender.now).lets_go (steps_of at.now) want (view item.now) then []
        else prepared (M.rule mending.now.mender.now) (steps_of at.now) (entry_in want) (view item.now) ∷ [])) }
    ensures changes { IfOk result (λ _. told_by changes.new.items ≡ told_by changes.old.items
        ++ (if (M.rule mending.now.mender.now).lets_go (steps_of at.now) want (view item.now) then told_change (steps_of at.now) (view item.now) None ∷ []
        else told (M.rule mending.now.mender.now) (steps_of at.now) (entry_in want) (view item.now))) }
{
    if mending.mender.lets_go(mending.alloc, at, want, item)? {
        push_change(mending.alloc, at, Some(item.clone()?), None, changes)
    } else {
        let after = value_after(mending, item, entry_in(want), at, changes)?;
        kept.push(after)?;
        Ok(())
    }
}

#[cycle(prepare)]
fn members_after<M: Mender>(
    mending: &Mending<M>,
    members: &Map<String, Value>,
    scope: Scope,
    path: &Path,
    changes: &mut Vec<Change>,
) -> Result<Map<String, Value>, AllocError>
    ensures tree { IfOk result (λ m. members_view m.entries ≡ prepared_members (M.rule mending.now.mender.now) (steps_of path.now) scope
        (members_view members.now.entries)) }
    ensures changes { IfOk result (λ _. told_by changes.new.items
        ≡ told_by changes.old.items ++ told_members (M.rule mending.now.mender.now) (steps_of path.now) scope (members_view members.now.entries)) }
{
    let mut kept = Map::new(mending.alloc);
    for (name, member) in members.iter() {
        let place = ObjectPlace {
            path: &*path,
            scope,
        };
        add_member(mending, name, member, &place, &mut kept, changes)?;
    }
    Ok(kept)
}

/// An object whose members are gone through: where it stands, and what decides what is asked of them.
#[derive(Clone, Copy)]
struct ObjectPlace<'p> {
    path: &'p Path<'p>,
    scope: Scope,
}

/// Adds a member of the object at a place, unless it is left out.
#[cycle(prepare)]
fn add_member<M: Mender>(
    mending: &Mending<M>,
    name: &String,
    member: &Value,
    place: &ObjectPlace,
    kept: &mut Map<String, Value>,
    changes: &mut Vec<Change>,
) -> Result<(), AllocError>
    ensures tree { IfOk result (λ _. members_view kept.new.entries
        ≡ (if (M.rule mending.now.mender.now).drops (steps_of place.now.path.now ++ Name (string_bytes name.now) ∷ []) place.now.scope (string_bytes name.now)
        (view member.now) then members_view kept.old.entries
        else put (string_bytes name.now)
        (prepared (M.rule mending.now.mender.now) (steps_of place.now.path.now ++ Name (string_bytes name.now) ∷ [])
        (want_of_name place.now.scope (string_bytes name.now)) (view member.now))
        (members_view kept.old.entries))) }
    ensures changes { IfOk result (λ _. told_by changes.new.items ≡ told_by changes.old.items
        ++ (if (M.rule mending.now.mender.now).drops (steps_of place.now.path.now ++ Name (string_bytes name.now) ∷ [])
        place.now.scope (string_bytes name.now) (view member.now)
        then told_change (steps_of place.now.path.now ++ Name (string_bytes name.now) ∷ []) (view member.now) None ∷ []
        else told (M.rule mending.now.mender.now) (steps_of place.now.path.now ++ Name (string_bytes name.now) ∷ [])
        (want_of_name place.now.scope (string_bytes name.now)) (view member.now))) }
{
    let text = name.as_str();
    let at = Path::Member(&*place.path, text);
    if mending
        .mender
        .drops(mending.alloc, &at, place.scope, text, member)?
    {
        push_change(mending.alloc, &at, Some(member.clone()?), None, changes)
    } else {
        let inner = want_in(place.scope, text);
        let after = value_after(mending, member, inner, &at, changes)?;
        keep_member(name, after, kept)
    }
}

/// Adds a member to those that are kept.
fn keep_member(name: &String, value: Value, kept: &mut Map<String, Value>) -> Result<(), AllocError>
    ensures { IfOk result (λ _. members_view kept.new.entries ≡ put (string_bytes name.now) (view value) (members_view kept.old.entries)) }
{
    let own = name.clone()?;
    drop(kept.insert(own, value)?);
    Ok(())
}

/// Puts members into what is kept of an object, and adds what is told of them.
fn put_in(
    alloc: Global,
    puts: Vec<(String, Value)>,
    object: &Value,
    path: &Path,
    kept: &mut Map<String, Value>,
    changes: &mut Vec<Change>,
) -> Result<(), AllocError>
    ensures tree { IfOk result (λ _. members_view kept.new.entries ≡ put_all (seen puts.items) (members_view kept.old.entries)) }
    ensures changes { IfOk result (λ _. told_by changes.new.items ≡ told_by changes.old.items ++ told_puts (steps_of path.now)
        (view object.now) (seen puts.items)) }
{
    for (name, value) in puts {
        push_put(alloc, object, name.as_str(), &value, path, changes)?;
        drop(kept.insert(name, value)?);
    }
    Ok(())
}

/// Adds what is told of a member that is put into the object at a place.
fn push_put(
    alloc: Global,
    object: &Value,
    name: &str,
    value: &Value,
    path: &Path,
    changes: &mut Vec<Change>,
) -> Result<(), AllocError>
    ensures { IfOk result (λ _. told_by changes.new.items ≡ told_by changes.old.items
        ++ record { place = steps_of path.now ++ Name name.now ∷ []; before = get name.now (view object.now); after = Some (view value.now) } ∷ []) }
{
    let at = Path::Member(&*path, name);
    let before = value_before(object, name)?;
    let after = Some(value.clone()?);
    push_change(alloc, &at, before, after, changes)
}

/// Returns a copy of a member, if the object has it.
fn value_before(object: &Value, name: &str) -> Result<Option<Value>, AllocError>
    ensures { IfOk result (λ v. option_map view v ≡ get name.now (view object.now)) }
{
    match object.get(name) {
        Some(value) => Ok(Some(value.clone()?)),
        None => Ok(None),
    }
}

/// Adds what is told of a place.
fn push_change(
    alloc: Global,
    path: &Path,
    before: Option<Value>,
    after: Option<Value>,
    changes: &mut Vec<Change>,
) -> Result<(), AllocError>
    ensures { IfOk result (λ _. told_by changes.new.items
        ≡ told_by changes.old.items ++ record { place = steps_of path.now; before = option_map view before; after = option_map view after } ∷ []) }
{
    let near = match changes.last() {
        Some(change) => Some(&change.place),
        None => None,
    };
    let place = place_near(alloc, path, near)?;
    changes.push(Change {
        place,
        before,
        after,
    })?;
    Ok(())
}
