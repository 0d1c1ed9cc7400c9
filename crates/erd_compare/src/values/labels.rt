ghost use Rattle.std.specs.Prelude.{IfOk};
ghost use Rattle.erd_compare.specs.Words.{view, label_of};
ghost use Rattle.erd_compare.specs.code.Choices.{translated_label};
ghost use Rattle.erd_compare.specs.code.Comparing.{Decides, IsWholeTree};

use crate::values::chosen_members::{Choice, is_same_choice};
use crate::values::sets::is_same_set;
use erd_check::values::{entries_at, text_of};
use serde_json::Value;
use std::alloc::{AllocError, Global};

/// Returns whether two labels mean the same: equal texts, or the same set of translations with the same other members.
pub(crate) fn is_same_label(alloc: Global, one: &Value, other: &Value) -> Result<bool, AllocError>
    requires one { IsWholeTree (view one.now) }
    requires other { IsWholeTree (view other.now) }
    ensures { IfOk result (λ answer. Decides answer (label_of (view one.now)) (label_of (view other.now))) }
{
    if one.is_object() && other.is_object() {
        is_same_translated(alloc, one, other)
    } else if one.is_object() || other.is_object() {
        Ok(false)
    } else {
        Ok(text_of(one) == text_of(other))
    }
}

/// Returns whether two labels that are objects mean the same.
fn is_same_translated(alloc: Global, one: &Value, other: &Value) -> Result<bool, AllocError>
    requires one { IsWholeTree (view one.now) }
    requires other { IsWholeTree (view other.now) }
    ensures { IfOk result (λ answer. Decides answer (translated_label (view one.now)) (translated_label (view other.now))) }
{
    if is_same_choice(Choice::BesideText, one, Choice::BesideText, other) {
        is_same_set(alloc, entries_at(one, "Text"), entries_at(other, "Text"))
    } else {
        Ok(false)
    }
}
