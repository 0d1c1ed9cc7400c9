ghost use Rattle.std.specs.Prelude.{◌≡◌, true, map, option_and_then};
ghost use Rattle.erd_compare.specs.Words.{AllByRecursion, Data, as_str, view, Preference, has_keys, text_at, carried_members, no_content, content_of, node_of};
ghost use Rattle.erd_compare.specs.Words.{contest_node, header_node, class_of_node, is_header_class, key_named, name_named};
ghost use Rattle.erd_compare.specs.code.Comparing.{Decides, IsWholeTree};
ghost use Rattle.erd_compare.specs.code.ContentParts.{content_within, outside_of, plain_node};

use crate::comparer::Comparer;
use crate::ranks::common_ranks::ComparedReport;
use crate::values::chosen_members::is_same_carried;
use crate::values::plain_contest::{PlainContest, plain_contest};
use crate::values::references::{number_of_name_named, rank_with_id};
use erd_check::values::{class_of_object, entries_at, entries_of, text_at};
use erd_tables::{Class, Family, Role};
use serde_json::Value;

/// Returns whether two lists of contests and headers mean the same, in the same order, at every depth of headers.
#[cycle(content)]
pub(crate) fn is_same_content(comparer: &Comparer, one: &Value, other: &Value) -> bool
    requires one { IsWholeTree (view one.now) }
    requires other { IsWholeTree (view other.now) }
    ensures { Decides result (content_of comparer.now.left.prefer (view comparer.now.left.tree) (view one.now)) (content_of comparer.now.right.prefer
        (view comparer.now.right.tree) (view other.now)) }
{
    match one {
        Value::Array(ones) => are_same_nodes(comparer, ones, entries_of(other)),
        _ => has_no_content(other),
    }
}

/// Returns whether two lists have contests and headers that mean the same, in the same order.
#[cycle(content)]
fn are_same_nodes(comparer: &Comparer, ones: &Vec<Value>, others: &[Value]) -> bool
    requires ones { AllByRecursion (λ v. IsWholeTree (view v)) ones.now.items }
    requires others { AllByRecursion (λ v. IsWholeTree (view v)) others.now }
    ensures { Decides result (map (λ v. node_of comparer.now.left.prefer (view comparer.now.left.tree) (view v)) ones.now.items)
        (map (λ v. node_of comparer.now.right.prefer (view comparer.now.right.tree) (view v)) others.now) }
{
    let mut rest = others.iter();
    for one in ones {
        let Some(other) = rest.next() else {
            return false;
        };
        if !is_same_node(comparer, one, other) {
            return false;
        }
    }
    rest.next().is_none()
}

/// Returns whether two contests or headers mean the same.
#[cycle(content)]
fn is_same_node(comparer: &Comparer, one: &Value, other: &Value) -> bool
    requires one { IsWholeTree (view one.now) }
    requires other { IsWholeTree (view other.now) }
    ensures { Decides result (node_of comparer.now.left.prefer (view comparer.now.left.tree) (view one.now)) (node_of comparer.now.right.prefer
        (view comparer.now.right.tree) (view other.now)) }
{
    // nearly all nodes are contests with the members of the table alone, which are compared without looking a member up
    if let (Some(one), Some(other)) = (plain_contest(one), plain_contest(other)) {
        return is_same_plain_contest(comparer, one, other);
    }
    match (is_header(one), is_header(other)) {
        (true, true) => is_same_header(comparer, one, other),
        (true, false) => false,
        (false, true) => false,
        (false, false) => is_same_contest(comparer, one, other),
    }
}

/// Returns whether two headers mean the same.
#[cycle(content)]
fn is_same_header(comparer: &Comparer, one: &Value, other: &Value) -> bool
    requires one { IsWholeTree (view one.now) }
    requires other { IsWholeTree (view other.now) }
    ensures { Decides result (header_node comparer.now.left.prefer (view comparer.now.left.tree) (view one.now)
        (content_within comparer.now.left.prefer (view comparer.now.left.tree) (view one.now)))
        (header_node comparer.now.right.prefer (view comparer.now.right.tree) (view other.now)
        (content_within comparer.now.right.prefer (view comparer.now.right.tree) (view other.now))) }
{
    is_same_outside(comparer, Family::Header, "HeaderId", one, other)
        && is_same_within(comparer, one, other)
}

/// Returns whether the contents of two headers mean the same, in the same order.
#[cycle(content)]
fn is_same_within(comparer: &Comparer, one: &Value, other: &Value) -> bool
    requires one { IsWholeTree (view one.now) }
    requires other { IsWholeTree (view other.now) }
    ensures { Decides result (content_within comparer.now.left.prefer (view comparer.now.left.tree) (view one.now)) (content_within comparer.now.right.prefer
        (view comparer.now.right.tree) (view other.now)) }
{
    match (one.get("OrderedContent"), other.get("OrderedContent")) {
        (Some(one), Some(other)) => is_same_content(comparer, one, other),
        (Some(one), None) => has_no_content(one),
        (None, Some(other)) => has_no_content(other),
        (None, None) => true,
    }
}

/// Returns whether a list of contests and headers is empty.
fn has_no_content(value: &Value) -> bool
    ensures { (π : Preference) (t : Data) → Decides result no_content (content_of π t (view value.now)) }
{
    entries_of(value).is_empty()
}

/// Returns whether two contests in the contents of a ballot mean the same.
fn is_same_contest(comparer: &Comparer, one: &Value, other: &Value) -> bool
    requires one { IsWholeTree (view one.now) }
    requires other { IsWholeTree (view other.now) }
    ensures { Decides result (contest_node comparer.now.left.prefer (view comparer.now.left.tree) (view one.now)) (contest_node comparer.now.right.prefer
        (view comparer.now.right.tree) (view other.now)) }
{
    let name = "OrderedContestSelectionIds";
    is_same_outside(comparer, Family::Contest, "ContestId", one, other)
        && are_same_names(comparer, entries_at(one, name), entries_at(other, name))
}

/// Returns whether two contests in the contents of a ballot that have the members of the table and no other mean the same.
fn is_same_plain_contest(
    comparer: &Comparer,
    one: PlainContest<'_>,
    other: PlainContest<'_>,
) -> bool
    ensures { Decides result (plain_node comparer.now.left.prefer (view comparer.now.left.tree) one.entry) (plain_node comparer.now.right.prefer
        (view comparer.now.right.tree) other.entry) }
{
    is_same_target(comparer, Family::Contest, one.contest, other.contest)
        && are_same_names(comparer, one.selections, other.selections)
}

/// Returns whether two lists of references name selections with the same names, in the same order.
fn are_same_names(comparer: &Comparer, ones: &[Value], others: &[Value]) -> bool
    ensures { Decides result (map (λ v. option_and_then (name_named comparer.now.left.prefer (view comparer.now.left.tree)) (as_str (view v))) ones.now)
        (map (λ v. option_and_then (name_named comparer.now.right.prefer (view comparer.now.right.tree)) (as_str (view v))) others.now) }
{
    let mut rest = others.iter();
    for one in ones {
        let Some(other) = rest.next() else {
            return false;
        };
        if !is_same_name(comparer, one, other) {
            return false;
        }
    }
    rest.next().is_none()
}

/// Returns whether two references name selections with the same name.
fn is_same_name(comparer: &Comparer, one: &Value, other: &Value) -> bool
    ensures { Decides result (option_and_then (name_named comparer.now.left.prefer (view comparer.now.left.tree)) (as_str (view one.now)))
        (option_and_then (name_named comparer.now.right.prefer (view comparer.now.right.tree)) (as_str (view other.now))) }
{
    number_of_name_named(comparer, ComparedReport::Left, one)
        == number_of_name_named(comparer, ComparedReport::Right, other)
}

/// Returns whether two contests or headers mean the same apart from what stands inside them: the members with this name refer
/// to objects of the family with the same key, and both carry the same members.
fn is_same_outside(
    comparer: &Comparer,
    family: Family,
    name: &str,
    one: &Value,
    other: &Value,
) -> bool
    requires one { IsWholeTree (view one.now) }
    requires other { IsWholeTree (view other.now) }
    requires keyed { has_keys family ≡ true }
    ensures { Decides result (outside_of comparer.now.left.prefer (view comparer.now.left.tree) family name.now (view one.now))
        (outside_of comparer.now.right.prefer (view comparer.now.right.tree) family name.now (view other.now)) }
{
    is_same_owner(comparer, family, name, one, other) && carries_the_same(one, other)
}

/// Returns whether two contests or headers carry the same members.
fn carries_the_same(one: &Value, other: &Value) -> bool
    requires one { IsWholeTree (view one.now) }
    requires other { IsWholeTree (view other.now) }
    ensures { Decides result (carried_members (class_of_node (view one.now)) (view one.now))
        (carried_members (class_of_node (view other.now)) (view other.now)) }
{
    is_same_carried(class_of_node(one), one, class_of_node(other), other)
}

/// Returns whether the members with this name refer to objects of the family with the same key.
fn is_same_owner(
    comparer: &Comparer,
    family: Family,
    name: &str,
    one: &Value,
    other: &Value,
) -> bool
    requires keyed { has_keys family ≡ true }
    ensures { Decides result (key_named comparer.now.left.prefer (view comparer.now.left.tree) family (text_at name.now (view one.now)))
        (key_named comparer.now.right.prefer (view comparer.now.right.tree) family (text_at name.now (view other.now))) }
{
    is_same_target(comparer, family, text_at(one, name), text_at(other, name))
}

/// Returns whether two `@id`s name objects of the family with the same key.
fn is_same_target(comparer: &Comparer, family: Family, one: &str, other: &str) -> bool
    requires keyed { has_keys family ≡ true }
    ensures { Decides result (key_named comparer.now.left.prefer (view comparer.now.left.tree) family one.now)
        (key_named comparer.now.right.prefer (view comparer.now.right.tree) family other.now) }
{
    rank_with_id(comparer, ComparedReport::Left, family, one)
        == rank_with_id(comparer, ComparedReport::Right, family, other)
}

/// Returns whether a node of the contents of a ballot is a header.
fn is_header(node: &Value) -> bool
    ensures { result ≡ is_header_class (class_of_node (view node.now)) }
{
    matches!(class_of_node(node), Some(Class::OrderedHeader))
}

/// Returns the class of a node of the contents of a ballot.
fn class_of_node(node: &Value) -> Option<Class>
    ensures { result ≡ class_of_node (view node.now) }
{
    class_of_object(Role::Content, node)
}
