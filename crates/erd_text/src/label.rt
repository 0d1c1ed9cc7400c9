ghost use Rattle.std.specs.Prelude.{◌≡◌, ◌++◌, ◌∷◌, false, true, codes, map, IfOk, OnOk};
ghost use Rattle.json.specs.Token.{key};
ghost use Rattle.serde_json.specs.Data.{Members, member};
ghost use Rattle.serde_json.specs.View.{items_view, members_view, view};
ghost use Rattle.serde_json.specs.Written.{compact_text, has_float, items_have_float, members_have_float};
ghost use Rattle.erd_text.specs.RisingLists.{with_rising_text};
ghost use Rattle.erd_text.specs.Tokens.{members_tokens, value_tokens};
ghost use Rattle.erd_text.specs.code.Writing.{rising_array, with_due_text};

use crate::output::Output;
use crate::rising_values::write_rising_values;
use crate::value::write_value;
use erd_check::values::entries_at;
use erd_tables::Text;
use serde_json::{Map, Value};
use std::alloc::{AllocError, Global};
use std::cmp::Ordering;

/// Returns the compact text of a label, with its translations in the rising order of their compact texts. A label that is no
/// object stays as it is.
///
/// # Errors
///
/// `AllocError` if out of memory.
///
/// ```
/// let text = label_text(alloc, &label)?;
/// ```
pub fn label_text(alloc: Global, label: &Value) -> Result<Text, AllocError>
    requires whole { has_float (view label.now) ≡ false }
    ensures { IfOk result (λ text. text ≡ compact_text (with_rising_text (view label.now))) }
{
    let mut out = Output::new(alloc);
    write_label(alloc, label, &mut out)?;
    // an output is UTF-8
    let text = String::from_utf8(out.into_text()).unwrap();
    Ok(Text::of(text))
}

/// Writes a label as `label_text` spells it. The contract covers only labels whose numbers are all whole.
///
/// # Errors
///
/// `AllocError` if out of memory.
///
/// ```
/// write_label(alloc, &label, &mut out)?;
/// ```
pub fn write_label(alloc: Global, label: &Value, out: &mut Output) -> Result<(), AllocError>
    ensures { OnOk result (has_float (view label.now) ≡ false → out.new ≡ out.old ++ value_tokens (with_rising_text (view label.now))) }
{
    match label {
        Value::Object(members) => {
            out.begin_object()?;
            write_members(alloc, members, entries_at(label, "Text"), out)
        }
        other => write_value(other, out),
    }
}

/// Writes the members of a label, and its end. The translations stand at the place of `Text`.
fn write_members(
    alloc: Global,
    members: &Map<String, Value>,
    translations: &[Value],
    out: &mut Output,
) -> Result<(), AllocError>
    ensures { OnOk result (members_have_float (members_view members.now.entries) ≡ false → items_have_float (items_view translations.now) ≡ false
        → out.new ≡ out.old ++ members_tokens (with_due_text true (map view translations.now) (members_view members.now.entries))) }
{
    let mut due = true;
    for (name, member) in members.iter() {
        let entry = (name.as_str(), member);
        due = write_member(alloc, translations, due, entry, out)?;
    }
    if due {
        write_translations(alloc, translations, out)?;
    }
    out.end_object()
}

/// Writes a member. If the translations are due, they come before the first name above `Text`, and in place of `Text`.
/// Returns whether they are still due.
fn write_member(
    alloc: Global,
    translations: &[Value],
    due: bool,
    entry: (&str, &Value),
    out: &mut Output,
) -> Result<bool, AllocError>
    ensures { IfOk result (λ left. items_have_float (items_view translations.now) ≡ false → has_float (view entry.entry.1.now) ≡ false → (ms : Members)
        → out.old ++ members_tokens (with_due_text due (map view translations.now) (member entry.entry.0.now (view entry.entry.1.now) ms))
        ≡ out.new ++ members_tokens (with_due_text left (map view translations.now) ms)) }
{
    let (name, value) = entry;
    let place = if due {
        "Text".cmp(name)
    } else {
        Ordering::Greater
    };
    if place != Ordering::Greater {
        write_translations(alloc, translations, out)?;
    }
    if place != Ordering::Equal {
        out.key(name)?;
        write_value(value, out)?;
    }
    Ok(due && place == Ordering::Greater)
}

/// Writes the member `Text`.
fn write_translations(
    alloc: Global,
    translations: &[Value],
    out: &mut Output,
) -> Result<(), AllocError>
    ensures { OnOk result (items_have_float (items_view translations.now) ≡ false
        → out.new ≡ out.old ++ key (codes "Text") ∷ value_tokens (rising_array (map view translations.now))) }
{
    out.key("Text")?;
    write_rising_values(alloc, translations, out)
}
