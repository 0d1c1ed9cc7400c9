//! What members mean by themselves.
ghost use Rattle.std.specs.Prelude.{◌≡◌, is_none};
ghost use Rattle.erd_meaning.specs.Words.{Data, Preference, view};
ghost use Rattle.erd_meaning.specs.Records.{plain_value};

use erd_check::values::is_empty_array;
use erd_tables::MemberKind;
use serde_json::Value;

/// Returns whether a value of this kind means nothing by itself: an empty array of the table, or a value of a kind that has no
/// meaning of its own, such as an array of objects.
#[tactic(auto, using(crate::proofs::EmptyLists::unless_by_test))]
pub fn means_nothing(kind: MemberKind, value: &Value) -> bool
    ensures { (π : Preference) (t : Data) → result ≡ is_none (plain_value π t kind (view value.now)) }
{
    match kind {
        MemberKind::Word
        | MemberKind::Flag
        | MemberKind::Whole
        | MemberKind::Carried
        | MemberKind::Label
        | MemberKind::One(_) => false,
        MemberKind::Many(_)
        | MemberKind::Identifiers
        | MemberKind::Languages
        | MemberKind::Content => is_empty_array(value),
        _ => true,
    }
}
