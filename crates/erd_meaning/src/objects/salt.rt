//! The salt of a report: it comes from all that the indexes hash, so whoever changes a key of an index moves all keys.
ghost use Rattle.std.specs.Prelude.{◌≡◌, ◌<◌, flat_map, map, option_map};
ghost use Rattle.erd_index.specs.Salts.{fed, salt_start, start_of, text_writes, unfed};
ghost use Rattle.serde_json.specs.View.{view, items_view, members_view, number_view};
ghost use Rattle.erd_meaning.specs.code.CollectedWalks.{found};
ghost use Rattle.erd_meaning.specs.code.HashedMet.{hashed};
ghost use Rattle.erd_meaning.specs.SaltWrites.{hashed_writes, items_writes, triple_writes, members_writes, number_writes, option_writes, parts_writes};
ghost use Rattle.erd_meaning.specs.SaltWrites.{value_writes, whole_selection};

use crate::keys::triple::Triple;
use crate::objects::collected::Found;
use crate::objects::places::number_of;
use erd_index::{Salt, SaltHasher};
use erd_tables::Family;
use serde_json::{Map, Number, Value};

/// Stands before an election where the number of its family stands before an object.
const ELECTION: usize = 9;

/// Returns the salt of a report with these elections and objects.
pub(crate) fn salt_of(all: &[Found]) -> Salt
    ensures { start_of result ≡ salt_start (fed unfed (flat_map hashed_writes (map hashed (map (λ x. x.met) (map found all.now))))) }
{
    let mut hasher = SaltHasher::new();
    for one in all {
        feed_found(one, &mut hasher);
    }
    hasher.salt()
}

/// Feeds what the indexes hash of an election or of an object, after a number that tells which it is. The name of a selection is
/// made of many of its members, so a selection is fed whole.
fn feed_found(one: &Found, hasher: &mut SaltHasher)
    ensures { hasher.new ≡ fed hasher.old (hashed_writes (hashed (found one.now).met)) }
{
    match one {
        Found::Election { key, .. } => feed_parts(ELECTION, None, key, None, hasher),
        Found::Object {
            family,
            value,
            key,
            id,
            ..
        } => feed_parts(
            number_of(*family),
            *id,
            key,
            selection_in(*family, value),
            hasher,
        ),
    }
}

/// Feeds a number that tells which parts there are, and then these.
fn feed_parts(
    number: usize,
    id: Option<&str>,
    key: &Option<Triple>,
    selection: Option<&Value>,
    hasher: &mut SaltHasher,
)
    requires { number < 16 }
    ensures { hasher.new ≡ fed hasher.old (parts_writes number (option_map (λ s. s.now) id.entry) key.now (option_map (λ v. view v.now) selection.entry)) }
{
    let parts = id.is_some() as usize
        + 2 * key.is_some() as usize
        + 4 * selection.is_some() as usize;
    hasher.feed(&(number + 16 * parts));
    feed_id(id, hasher);
    feed_key(key, hasher);
    feed_selection(selection, hasher);
}

/// Returns the value if it is a selection.
fn selection_in(family: Family, value: &Value) -> Option<&Value>
    ensures { option_map (λ v. view v.now) result ≡ whole_selection family (view value.now) }
{
    match family {
        Family::Selection => Some(value),
        _ => None,
    }
}

/// Feeds an `@id`, if there is one.
fn feed_id(id: Option<&str>, hasher: &mut SaltHasher)
    ensures { hasher.new ≡ fed hasher.old (option_writes text_writes (option_map (λ s. s.now) id.entry)) }
{
    if let Some(id) = id {
        hasher.feed_text(id);
    }
}

/// Feeds the three texts of a key, if there is one.
fn feed_key(key: &Option<Triple>, hasher: &mut SaltHasher)
    ensures { hasher.new ≡ fed hasher.old (option_writes triple_writes key.now) }
{
    if let Some(key) = key {
        hasher.feed_text(key.kind);
        hasher.feed_text(key.other);
        hasher.feed_text(key.value);
    }
}

/// Feeds a selection, if there is one.
fn feed_selection(selection: Option<&Value>, hasher: &mut SaltHasher)
    ensures { hasher.new ≡ fed hasher.old (option_writes value_writes (option_map (λ v. view v.now) selection.entry)) }
{
    if let Some(selection) = selection {
        feed_value(selection, hasher);
    }
}

/// Feeds a value: a number that tells its kind, and then all that it holds.
#[cycle(salt)]
fn feed_value(value: &Value, hasher: &mut SaltHasher)
    ensures { hasher.new ≡ fed hasher.old (value_writes (view value.now)) }
{
    match value {
        Value::Null => hasher.feed(&1u64),
        Value::Bool(false) => hasher.feed(&2u64),
        Value::Bool(true) => hasher.feed(&3u64),
        Value::Number(number) => feed_number(number, hasher),
        Value::String(text) => {
            hasher.feed(&5u64);
            hasher.feed_text(text.as_str());
        }
        Value::Array(items) => {
            hasher.feed(&6u64);
            feed_items(items, hasher);
        }
        Value::Object(members) => {
            hasher.feed(&7u64);
            feed_members(members, hasher);
        }
    }
}

/// Feeds a whole number. No name has a number that is not whole, so all of these are fed alike.
fn feed_number(number: &Number, hasher: &mut SaltHasher)
    ensures { hasher.new ≡ fed hasher.old (number_writes (number_view number.now)) }
{
    if let Some(natural) = number.as_u64() {
        hasher.feed(&4u64);
        hasher.feed(&natural);
        return;
    }
    match number.as_i64() {
        Some(integer) => {
            hasher.feed(&8u64);
            hasher.feed(&integer);
        }
        None => hasher.feed(&9u64),
    }
}

/// Feeds the entries of an array, and its end.
#[cycle(salt)]
fn feed_items(items: &Vec<Value>, hasher: &mut SaltHasher)
    ensures { hasher.new ≡ fed hasher.old (items_writes (items_view items.now.items)) }
{
    for item in items {
        feed_value(item, hasher);
    }
    hasher.feed(&0u64);
}

/// Feeds the members of an object, and its end.
#[cycle(salt)]
fn feed_members(members: &Map<String, Value>, hasher: &mut SaltHasher)
    ensures { hasher.new ≡ fed hasher.old (members_writes (members_view members.now.entries)) }
{
    for (name, member) in members.iter() {
        hasher.feed_text(name.as_str());
        feed_value(member, hasher);
    }
    hasher.feed(&u64::MAX);
}
