ghost use Rattle.std.specs.Prelude.{◌≡◌, IfSome};
ghost use Rattle.erd_compare.specs.Words.{member, members_view, view};
ghost use Rattle.erd_compare.specs.code.ContentParts.{IsPlainContest};

use erd_check::values::{entries_of, text_of};
use erd_tables::{Class, type_text};
use serde_json::Value;
use std::collections::btree_map::Iter;

/// A contest in the contents of a ballot that has the members of the table and no other.
#[derive(Clone, Copy)]
pub(crate) struct PlainContest<'a> {
    /// The `@id` of the contest.
    pub(crate) contest: &'a str,
    /// The references to its selections, in their order.
    pub(crate) selections: &'a [Value],
}

/// Returns the contest if a node of the contents of a ballot is an OrderedContest that has the members of the table and no
/// other, and otherwise `None`. The members are read once, in the order of their names.
pub(crate) fn plain_contest(node: &Value) -> Option<PlainContest<'_>>
    ensures { IfSome result (λ found. IsPlainContest (view node.now) found) }
{
    let mut members = node.as_object()?.iter();
    let class = next_named(&mut members, "@type")?.as_str()?;
    let contest = next_named(&mut members, "ContestId")?;
    let selections = next_named(&mut members, "OrderedContestSelectionIds")?;
    if class != type_text(Class::OrderedContest) {
        return None;
    }
    let found = PlainContest {
        contest: text_of(contest),
        selections: entries_of(selections),
    };
    match members.next() {
        Some(_) => None,
        None => Some(found),
    }
}

/// Takes the next member, and returns its value if it has this name.
fn next_named<'a>(members: &mut Iter<'a, String, Value>, name: &str) -> Option<&'a Value>
    ensures { IfSome result (λ value. members_view members.old ≡ member name.now (view value.now) (members_view members.new)) }
{
    match members.next() {
        Some((found, value)) if found.as_str() == name => Some(value),
        _ => None,
    }
}
