//! What a walk over a report does at each value.
ghost use Rattle.std.specs.Prelude.{◌≡◌, ◌++◌, List, Bool, map, IfOk, IsTrue};
ghost use Rattle.std.specs.List.{list_any};
ghost use Rattle.serde_json.specs.Data.{Data};
ghost use Rattle.serde_json.specs.View.{view};
ghost use Rattle.erd_tables.specs.declared.fault.Reason.{Reason};
ghost use Rattle.erd_check.specs.Trees.{is_same_json};
ghost use Rattle.erd_check.specs.Wants.{scope_inside};
ghost use Rattle.erd_check.specs.Paths.{steps_of};
ghost use Rattle.erd_check.specs.Visits.{faults_of, IsInOrder, IsKnown, IsSilentMember};
ghost use Rattle.erd_check.specs.declared.want.Want.{Want as Wanted};

use crate::path::Path;
use crate::want::{Scope, Want};
use erd_tables::Fault;
use serde_json::Value;
use std::alloc::{AllocError, Global};

/// Where a value is in a report: its place, and the values around it.
#[derive(Clone, Copy)]
pub struct Context<'a> {
    /// The place of the value.
    pub path: &'a Path<'a>,
    /// The value one step above. For the report, this is the report.
    pub owner: &'a Value,
    /// The value two steps above. For the report and its members, this is the report.
    pub outer: &'a Value,
}

/// What a walk knows of a value that it visits.
#[derive(Clone, Copy)]
pub struct Visit<'a> {
    /// The value.
    pub value: &'a Value,
    /// What the member table asks of the value.
    pub want: Want,
    /// The scope of the members of the value, as `scope_of` returns it.
    pub scope: Scope,
    /// Earlier entries of the set, if the value is an entry of a set. One of them is equal to the value if and only if any
    /// earlier entry of the set is. For other values there are none.
    pub earlier: &'a [Value],
    /// Where the value is.
    pub context: Context<'a>,
}

/// A member that a walk may pass over.
#[derive(Clone, Copy)]
pub struct Member<'a> {
    /// The object that has the member.
    pub owner: &'a Value,
    /// The value of the member.
    pub value: &'a Value,
    /// What the member table asks of the value.
    pub want: Want,
}

/// What a walk over a report does at each value that it visits: it finds the faults of that value.
pub trait Visitor {
    // The reasons for which a value is refused. They depend on its outer value, what is asked of it, whether it is equal
    // to an earlier entry of its set, and the value itself.
    ghost tells: { Self → Data → Wanted → Bool → Data → List Reason };

    // What is known of a value after the visit. It depends on what is asked of the value.
    ghost Known: { Self → Wanted → Data → Type 0 };

    // True for a visitor that passes over no object of which the table asks something, unless its members stand in order.
    ghost is_thorough: { Self → Bool };

    /// Returns `true` only if the walk may pass over a member: then the visitor has nothing to tell of its value, nor of the
    /// values inside it.
    ///
    /// # Errors
    ///
    /// `AllocError` if out of memory.
    fn passes_over(&self, alloc: Global, member: Member) -> Result<bool, AllocError>
        ensures silent { IfOk result (λ passes. IsTrue passes → IsSilentMember (tells self.now) (view member.entry.owner.now) member.entry.want
            (view member.entry.value.now)) }
        ensures known { IfOk result (λ passes. IsTrue passes → IsKnown (Known self.now) member.entry.want (view member.entry.value.now)) }
        ensures in_order { IfOk result (λ passes. IsTrue passes → IsTrue (is_thorough self.now) → IsInOrder member.entry.want (view member.entry.value.now)) };

    /// Adds the faults of the value to the end of the list, but not those of the values inside it.
    ///
    /// # Errors
    ///
    /// `AllocError` if out of memory.
    fn visit(&self, alloc: Global, visit: Visit, found: &mut Vec<Fault>) -> Result<(), AllocError>
        requires scope { visit.scope ≡ scope_inside visit.want (view visit.value.now) }
        ensures told { IfOk result (λ _. found.new.items ≡ found.old.items
            ++ faults_of (steps_of visit.entry.context.path.now) (tells self.now (view visit.entry.context.outer.now) visit.entry.want
            (list_any (is_same_json (view visit.entry.value.now)) (map view visit.entry.earlier.now)) (view visit.entry.value.now))) }
        ensures known { IfOk result (λ _. Known self.now visit.entry.want (view visit.entry.value.now)) };
}
