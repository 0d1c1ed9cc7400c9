ghost use Rattle.std.specs.Prelude.{◌≡◌, option_map, IfOk};
ghost use Rattle.erd_compare.specs.Words.{view, entries_of, is_in_envelope, json_set};
ghost use Rattle.erd_compare.specs.code.Comparing.{Decides, IsWholeTree, NamesKeys};
ghost use Rattle.erd_compare.specs.code.MemberPairs.{IsWholePair};
ghost use Rattle.erd_compare.specs.code.PlainParts.{meant_value, plain_found};

use crate::comparer::Comparer;
use crate::objects::differing_names::MemberPair;
use crate::values::content::is_same_content;
use crate::values::labels::is_same_label;
use crate::values::references::{is_same_key_set, is_same_reference};
use crate::values::sets::{is_same_set, is_same_value};
use erd_check::values::entries_of;
use erd_meaning::members::means_nothing;
use erd_tables::{Class, MemberKind, is_envelope, member_kind};
use serde_json::Value;
use std::alloc::AllocError;

/// Returns whether the members with one name, of two objects of the same class, mean the same, apart from the objects inside
/// them.
pub(crate) fn is_same_plain_member(
    comparer: &Comparer,
    class: Class,
    pair: MemberPair,
) -> Result<bool, AllocError>
    requires whole { IsWholePair pair }
    ensures { IfOk result (λ answer. Decides answer (plain_found comparer.now.left.prefer (view comparer.now.left.tree) class pair.entry.name.now
        (option_map (λ v. view v.now) pair.entry.one))
        (plain_found comparer.now.right.prefer (view comparer.now.right.tree) class pair.entry.name.now (option_map (λ v. view v.now) pair.entry.other))) }
{
    if is_in_envelope(class, pair.name) {
        return Ok(true);
    }
    let kind = member_kind(class, pair.name);
    match (pair.one, pair.other) {
        (Some(one), Some(other)) => match (means_nothing(kind, one), means_nothing(kind, other)) {
            (true, true) => Ok(true),
            (false, false) => is_same_meant(comparer, one, other, kind),
            _ => Ok(false),
        },
        (Some(one), None) => Ok(means_nothing(kind, one)),
        (None, Some(other)) => Ok(means_nothing(kind, other)),
        (None, None) => Ok(true),
    }
}

/// Returns whether a member with this name, of an object of the class, is in the envelope, which is not part of what a report
/// means.
fn is_in_envelope(class: Class, name: &str) -> bool
    ensures { result ≡ is_in_envelope class name.now }
{
    match class {
        Class::ElectionReport => is_envelope(name),
        _ => false,
    }
}

/// Returns whether two values of members of the same kind mean the same. Both mean something.
fn is_same_meant(
    comparer: &Comparer,
    one: &Value,
    other: &Value,
    kind: MemberKind,
) -> Result<bool, AllocError>
    requires one { IsWholeTree (view one.now) }
    requires other { IsWholeTree (view other.now) }
    requires keyed { NamesKeys kind }
    ensures { IfOk result (λ answer. Decides answer (meant_value comparer.now.left.prefer (view comparer.now.left.tree) kind (view one.now))
        (meant_value comparer.now.right.prefer (view comparer.now.right.tree) kind (view other.now))) }
{
    match kind {
        MemberKind::Label => is_same_label(comparer.alloc, one, other),
        MemberKind::One(family) => Ok(is_same_reference(comparer, family, one, other)),
        MemberKind::Many(family) => {
            is_same_key_set(comparer, family, entries_of(one), entries_of(other))
        }
        MemberKind::Identifiers | MemberKind::Languages => is_same_array(comparer, one, other),
        MemberKind::Content => Ok(is_same_content(comparer, one, other)),
        _ => Ok(is_same_value(one, other)),
    }
}

/// Returns whether two arrays hold the same set of values.
fn is_same_array(comparer: &Comparer, one: &Value, other: &Value) -> Result<bool, AllocError>
    requires one { IsWholeTree (view one.now) }
    requires other { IsWholeTree (view other.now) }
    ensures { IfOk result (λ answer. Decides answer (json_set (entries_of (view one.now))) (json_set (entries_of (view other.now)))) }
{
    is_same_set(comparer.alloc, entries_of(one), entries_of(other))
}
