ghost use Rattle.std.specs.Prelude.{◌≡◌, false, List, map, IfOk};
ghost use Rattle.erd_meaning.specs.Words.{nat_cmp, view, has_float, key_cmp, family_chosen, is_write_in, keys_found, keys_of_selection, label_of_selection};
ghost use Rattle.erd_meaning.specs.Words.{order_of_selection, rising_list};
ghost use Rattle.erd_meaning.specs.code.ObjectLookups.{key_among};
ghost use Rattle.erd_meaning.specs.code.ObjectWalk.{Kept};
ghost use Rattle.erd_meaning.specs.code.RanksAmong.{ranked_key, ranked_name_among};
ghost use Rattle.erd_meaning.specs.code.Shown.{shown};

use crate::keys::key_rule::KeyRule;
use crate::keys::shared_key::SharedKey;
use crate::names::ranked_name::RankedName;
use crate::names::selection_name::SelectionName;
use crate::objects::ranked_objects::RankedObjects;
use erd_check::values::{class_of_object, entries_at};
use erd_tables::{Class, Family, Role, Text};
use erd_text::label_text;
use serde_json::{Number, Value};
use std::alloc::{AllocError, Global};

/// Returns the name of a selection with the ranks of its keys, or `None` if its class is not one of the selection classes. The
/// objects that its references name are looked up in `objects`.
pub(crate) fn name_of_selection(
    keys: &KeyRule,
    objects: &RankedObjects,
    selection: &Value,
) -> Result<Option<RankedName<SelectionName>>, AllocError>
    requires whole { has_float (view selection.now) ≡ false }
    ensures { IfOk result (λ name. name ≡ ranked_name_among keys.now (map shown objects.now.objects) (view selection.now)) }
{
    let Some(class) = class_of_object(Role::OfFamily(Family::Selection), selection) else {
        return Ok(None);
    };
    let chosen = chosen_keys(keys.alloc, objects, class, selection)?;
    let ranks = ranks_of(keys.alloc, &chosen)?;
    let named = keys_of(keys.alloc, &chosen)?;
    let label = selection_label(keys.alloc, class, selection)?;
    let identifier = keys.key_of(selection)?;
    let name = SelectionName {
        class,
        keys: named,
        write_in: is_write_in(class, selection),
        order: sequence_order(selection),
        label,
        identifier,
    };
    Ok(Some(RankedName::of(name, ranks)))
}

/// Returns the keys of the candidates or parties that a selection is for, with their ranks, in rising order.
fn chosen_keys(
    alloc: Global,
    objects: &RankedObjects,
    class: Class,
    selection: &Value,
) -> Result<Vec<(usize, SharedKey)>, AllocError>
    ensures { IfOk result (λ chosen. chosen.items ≡ map (ranked_key (map shown objects.now.objects) (family_chosen class))
        (rising_list key_cmp (keys_of_selection (key_among (map shown objects.now.objects)) class (view selection.now)))) }
{
    let references = references_chosen(class, selection);
    let chosen = keys_in_turn(alloc, objects, class, references)?;
    in_rising_order(chosen)
}

/// Returns the same keys in the rising order of their ranks, each as often as before.
fn in_rising_order(
    mut chosen: Vec<(usize, SharedKey)>,
) -> Result<Vec<(usize, SharedKey)>, AllocError>
    ensures { IfOk result (λ rising. rising.items ≡ rising_list (λ a b. nat_cmp a.0 b.0) chosen.items) }
{
    chosen.sort_by_key(|one| one.0)?;
    Ok(chosen)
}

/// Returns the references of a selection to the candidates or parties that it is for.
fn references_chosen(class: Class, selection: &Value) -> &[Value]
    ensures { (ks : List Kept) → keys_found (key_among ks (family_chosen class)) (map view result.now)
        ≡ keys_of_selection (key_among ks) class (view selection.now) }
{
    match class {
        Class::CandidateSelection => entries_at(selection, "CandidateIds"),
        Class::PartySelection => entries_at(selection, "PartyIds"),
        _ => &[],
    }
}

/// Returns the keys of the objects that the references of a selection name, with their ranks, in the order of the
/// references.
fn keys_in_turn(
    alloc: Global,
    objects: &RankedObjects,
    class: Class,
    references: &[Value],
) -> Result<Vec<(usize, SharedKey)>, AllocError>
    ensures { IfOk result (λ chosen. chosen.items ≡ map (ranked_key (map shown objects.now.objects) (family_chosen class))
        (keys_found (key_among (map shown objects.now.objects) (family_chosen class)) (map view references.now))) }
{
    let mut chosen = Vec::with_capacity(alloc, references.len())?;
    for reference in references {
        if let Some((rank, key)) = objects.key_referred(class, reference) {
            chosen.push((rank, key.try_clone()?))?;
        }
    }
    Ok(chosen)
}

/// Returns the ranks of the keys, in the same order.
fn ranks_of(alloc: Global, chosen: &[(usize, SharedKey)]) -> Result<Vec<usize>, AllocError>
    ensures { IfOk result (λ ranks. ranks.items ≡ map (λ c. c.0) chosen.now) }
{
    let mut ranks = Vec::with_capacity(alloc, chosen.len())?;
    for one in chosen {
        ranks.push(one.0)?;
    }
    Ok(ranks)
}

/// Returns the keys without their ranks, in the same order. Each then has one more owner.
fn keys_of(alloc: Global, chosen: &[(usize, SharedKey)]) -> Result<Vec<SharedKey>, AllocError>
    ensures { IfOk result (λ keys. keys.items ≡ map (λ c. c.1) chosen.now) }
{
    let mut keys = Vec::with_capacity(alloc, chosen.len())?;
    for one in chosen {
        keys.push(one.1.try_clone()?)?;
    }
    Ok(keys)
}

/// Returns whether a selection is for a write-in: `IsWriteIn` of a CandidateSelection is true.
fn is_write_in(class: Class, selection: &Value) -> bool
    ensures { result ≡ is_write_in class (view selection.now) }
{
    match class {
        Class::CandidateSelection => selection
            .get("IsWriteIn")
            .and_then(Value::as_bool)
            .unwrap_or(false),
        _ => false,
    }
}

/// Returns the whole number in `SequenceOrder`, if there is one.
fn sequence_order(selection: &Value) -> Option<i128>
    ensures { result ≡ order_of_selection (view selection.now) }
{
    selection
        .get("SequenceOrder")
        .and_then(Value::as_number)
        .and_then(Number::as_i128)
}

/// Returns the compact text of the label of a BallotMeasureSelection, with its translations in rising order.
fn selection_label(
    alloc: Global,
    class: Class,
    selection: &Value,
) -> Result<Option<Text>, AllocError>
    requires whole { has_float (view selection.now) ≡ false }
    ensures { IfOk result (λ label. label ≡ label_of_selection class (view selection.now)) }
{
    match class {
        Class::BallotMeasureSelection => match selection.get("Selection") {
            Some(label) => Ok(Some(label_text(alloc, label)?)),
            None => Ok(None),
        },
        _ => Ok(None),
    }
}
