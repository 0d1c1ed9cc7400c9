//! The walk over a report.
ghost use Rattle.std.specs.Prelude.{◌≡◌, ◌++◌, [], map, IfOk, IsTrue};
ghost use Rattle.std.specs.List.{list_any};
ghost use Rattle.std.specs.List.Sorted.{IsStrictlySortedBy};
ghost use Rattle.std.specs.Option.{option_map_or};
ghost use Rattle.serde_json.specs.View.{view, items_view, members_view};
ghost use Rattle.erd_tables.specs.Texts.{text_cmp};
ghost use Rattle.erd_check.specs.Trees.{is_same_json};
ghost use Rattle.erd_check.specs.Values.{names};
ghost use Rattle.erd_check.specs.Wants.{entry_want, is_compared_set};
ghost use Rattle.erd_check.specs.Paths.{steps_of};
ghost use Rattle.erd_check.specs.Visits.{told_at, told_of_items, told_of_members, told_of_report, IsKnown, AreEntriesKnown, AreMembersKnown, IsInOrder};
ghost use Rattle.erd_check.specs.Visits.{AreEntriesInOrder, AreMembersInOrder};
ghost use Rattle.erd_check.specs.code.TwoVisitors.{AreSilent, EachAdds, EachFinds};
ghost use Rattle.erd_check.specs.declared.want.Want.TheVariants.{Object};
ghost use Rattle.erd_tables.specs.declared.class.Role.TheVariants.{Report};

use crate::earlier::{earlier_of, equal_entries};
use crate::path::Path;
use crate::silent::Silent;
use crate::visitor::{Context, Member, Visit, Visitor};
use crate::want::{Scope, Want, is_set_wanted, scope_of, want_in, want_of_entry};
use erd_tables::{Fault, Role};
use serde_json::{Map, Value};
use std::alloc::{AllocError, Global};

/// Walks a report, and returns the faults that the visitor finds. The walk visits the report and each value in it of which
/// the member table asks something, except for the members that the visitor passes over and what is inside them. It goes in the
/// order of places: members by name, entries by position.
///
/// # Errors
///
/// `AllocError` if out of memory.
pub fn walk_report<V: Visitor>(
    alloc: Global,
    visitor: &V,
    report: &Value,
) -> Result<Vec<Fault>, AllocError>
    ensures told { IfOk result (λ faults. faults.items ≡ told_of_report (V.tells visitor.now) (view report.now)) }
    ensures known { IfOk result (λ _. IsKnown (V.Known visitor.now) (Object Report) (view report.now)) }
    ensures in_order { IfOk result (λ _. IsTrue (V.is_thorough visitor.now) → IsInOrder (Object Report) (view report.now)) }
{
    let found = walk_both(alloc, visitor, &Silent, report)?;
    Ok(found.first)
}

/// The faults that two visitors have found, each in the order of places.
#[derive(Drop)]
pub(crate) struct Findings {
    pub(crate) first: Vec<Fault>,
    pub(crate) second: Vec<Fault>,
}

/// Two visitors that go over a report in one walk.
#[derive(Drop)]
struct Visitors<'v, A: Visitor, B: Visitor> {
    alloc: Global,
    first: &'v A,
    second: &'v B,
}

/// Walks a report with two visitors, and returns the faults that each of them finds. The walk passes over what both pass over.
pub(crate) fn walk_both<A: Visitor, B: Visitor>(
    alloc: Global,
    first: &A,
    second: &B,
    report: &Value,
) -> Result<Findings, AllocError>
    ensures told { IfOk result (EachFinds (λ tells. told_of_report tells (view report.now)) (A.tells first.now) (B.tells second.now)) }
    ensures known { IfOk result (λ _. IsKnown (A.Known first.now) (Object Report) (view report.now)) }
    ensures in_order { IfOk result (λ _. IsTrue (A.is_thorough first.now) → IsInOrder (Object Report) (view report.now)) }
{
    let visitors = Visitors {
        alloc,
        first,
        second,
    };
    let mut found = Findings {
        first: Vec::new(alloc),
        second: Vec::new(alloc),
    };
    let want = Want::Object(Role::Report);
    let context = Context {
        path: &Path::Root,
        owner: report,
        outer: report,
    };
    walk(&visitors, report, want, &[], context, &mut found)?;
    Ok(found)
}

/// Adds the faults of a value and of the values inside it.
#[cycle(walk)]
fn walk<'a, A: Visitor, B: Visitor>(
    visitors: &Visitors<A, B>,
    value: &'a Value,
    want: Want,
    earlier: &'a [Value],
    context: Context<'a>,
    found: &mut Findings,
) -> Result<(), AllocError>
    ensures told { IfOk result (λ _. EachAdds (λ tells. told_at tells (view context.entry.outer.now) (view context.entry.owner.now)
        (steps_of context.entry.path.now) want (list_any (is_same_json (view value.now)) (map view earlier.now)) (view value.now))
        (A.tells visitors.now.first.now) (B.tells visitors.now.second.now) found.old found.new) }
    ensures known { IfOk result (λ _. IsKnown (A.Known visitors.now.first.now) want (view value.now)) }
    ensures in_order { IfOk result (λ _. IsTrue (A.is_thorough visitors.now.first.now) → IsInOrder want (view value.now)) }
{
    let alloc = visitors.alloc;
    let scope = scope_of(want, value);
    let visit = Visit {
        value,
        want,
        scope,
        earlier,
        context,
    };
    visitors.first.visit(alloc, visit, &mut found.first)?;
    visitors.second.visit(alloc, visit, &mut found.second)?;
    let inside = Context {
        path: &*context.path,
        owner: &*value,
        outer: &*context.owner,
    };
    match value {
        Value::Array(items) => walk_items(visitors, inside, want, items, found),
        Value::Object(members) => walk_members(visitors, inside, scope, members, found),
        Value::Null | Value::Bool(_) | Value::Number(_) | Value::String(_) => Ok(()),
    }
}

/// Adds the faults of the entries of an array. `want` is what is asked of the array, and the path is that of the array.
#[cycle(walk)]
fn walk_items<'a, A: Visitor, B: Visitor>(
    visitors: &Visitors<A, B>,
    inside: Context<'a>,
    want: Want,
    items: &'a Vec<Value>,
    found: &mut Findings,
) -> Result<(), AllocError>
    ensures told { IfOk result (λ _. EachAdds (λ tells. option_map_or (λ v. told_of_items tells (view inside.entry.outer.now) (view inside.entry.owner.now)
        (steps_of inside.entry.path.now) v (is_compared_set want) [] (items_view items.now.items)) (entry_want want) [])
        (A.tells visitors.now.first.now) (B.tells visitors.now.second.now) found.old found.new) }
    ensures known { IfOk result (λ _. AreEntriesKnown (A.Known visitors.now.first.now) want (items_view items.now.items)) }
    ensures in_order { IfOk result (λ _. IsTrue (A.is_thorough visitors.now.first.now) → AreEntriesInOrder want (items_view items.now.items)) }
{
    let Some(entry) = want_of_entry(want) else {
        return Ok(());
    };
    let is_set = is_set_wanted(want);
    let told = equal_entries(visitors.alloc, is_set, &*items)?;
    for (index, item) in items.iter().enumerate() {
        let path = Path::Entry(&*inside.path, index);
        let earlier = earlier_of(is_set, &*items, &told, index, item);
        let context = Context {
            path: &path,
            ..inside
        };
        walk(visitors, item, entry, earlier, context, found)?;
    }
    Ok(())
}

/// Adds the faults of the members of an object, which have this scope. The path is that of the object.
#[cycle(walk)]
fn walk_members<'a, A: Visitor, B: Visitor>(
    visitors: &Visitors<A, B>,
    inside: Context<'a>,
    scope: Scope,
    members: &'a Map<String, Value>,
    found: &mut Findings,
) -> Result<(), AllocError>
    ensures told { IfOk result (λ _. EachAdds (λ tells. told_of_members tells (view inside.entry.outer.now) (view inside.entry.owner.now)
        (steps_of inside.entry.path.now) scope (members_view members.now.entries))
        (A.tells visitors.now.first.now) (B.tells visitors.now.second.now) found.old found.new) }
    ensures known { IfOk result (λ _. AreMembersKnown (A.Known visitors.now.first.now) scope (members_view members.now.entries)) }
    ensures in_order { IfOk result (λ _. IsTrue (A.is_thorough visitors.now.first.now) → AreMembersInOrder scope (members_view members.now.entries)) }
    ensures sorted { IfOk result (λ _. IsStrictlySortedBy text_cmp (names (members_view members.now.entries))) }
{
    for (name, member) in members.iter() {
        let Some(want) = want_in(scope, name.as_str()) else {
            continue;
        };
        let inner = Member {
            owner: inside.owner,
            value: member,
            want,
        };
        if !are_silent(visitors, inner)? {
            let path = Path::Member(&*inside.path, name.as_str());
            let context = Context {
                path: &path,
                ..inside
            };
            walk(visitors, member, want, &[], context, found)?;
        }
    }
    Ok(())
}

/// Returns `true` only if the walk may pass over a member for both visitors.
fn are_silent<A: Visitor, B: Visitor>(
    visitors: &Visitors<A, B>,
    member: Member,
) -> Result<bool, AllocError>
    ensures silent { IfOk result (λ passed. IsTrue passed → AreSilent (A.tells visitors.now.first.now) (B.tells visitors.now.second.now)
        (view member.entry.owner.now) member.entry.want (view member.entry.value.now)) }
    ensures known { IfOk result (λ passed. IsTrue passed → IsKnown (A.Known visitors.now.first.now) member.entry.want (view member.entry.value.now)) }
    ensures in_order { IfOk result (λ passed. IsTrue passed
        → IsTrue (A.is_thorough visitors.now.first.now) → IsInOrder member.entry.want (view member.entry.value.now)) }
{
    let alloc = visitors.alloc;
    Ok(visitors.first.passes_over(alloc, member)? && visitors.second.passes_over(alloc, member)?)
}
