//! Whether two ballots go to the same voters, line by line.
ghost use Rattle.std.specs.Prelude.{◌≡◌, ◌++◌, ◌&&◌, codes, map, not, true, string_bytes, IfOk, OnOk};
ghost use Rattle.serde_json.specs.View.{view};
ghost use Rattle.serde_json.specs.Written.{compact_text};
ghost use Rattle.erd_tables.specs.declared.class.Family.TheVariants as family;
ghost use Rattle.erd_meaning.specs.Keys.{has_keys};
ghost use Rattle.erd_shown.specs.BallotLines.{has_same_keys, lines_text};
ghost use Rattle.erd_shown.specs.Shown.{keys_data};
ghost use Rattle.erd_shown.specs.code.Pairs.{IsMarked, has_same_voters_in, voter_lines_in};

use crate::named::any_named;
use crate::pairs::Pair;
use crate::references::write_reference_set;
use crate::reworded::is_same_text;
use crate::texts::{append_unless, text_of};
use erd_check::values::entries_at;
use erd_meaning::Report;
use erd_tables::Family;
use erd_text::Output;
use serde_json::Value;
use std::alloc::{AllocError, Global};

/// Appends a line for the parties and one for the units whose voters get the ballots of two styles, if they are not the same.
pub(crate) fn push_voters(
    alloc: Global,
    pair: &Pair,
    style: &Value,
    other: &Value,
    text: &mut String,
) -> Result<(), AllocError>
    requires marks { IsMarked pair.now }
    ensures { OnOk result (string_bytes text.new ≡ string_bytes text.old ++ lines_text (voter_lines_in pair.now (view style.now) (view other.now))) }
{
    let parties = has_same_parties(alloc, pair, style, other)?;
    append_unless(parties, "  changed parties", text)?;
    let units = has_same_units(alloc, pair, style, other)?;
    append_unless(units, "  changed units", text)
}

/// Returns whether two styles name the same parties, of which the right report has no other words.
fn has_same_parties(
    alloc: Global,
    pair: &Pair,
    style: &Value,
    other: &Value,
) -> Result<bool, AllocError>
    requires marks { IsMarked pair.now }
    ensures { IfOk result (λ same. same ≡ has_same_voters_in pair.now family.Party (codes "PartyIds") (view style.now) (view other.now)) }
{
    let ones = entries_at(style, "PartyIds");
    let others = entries_at(other, "PartyIds");
    let same = has_same_keys(alloc, pair.left, ones, pair.right, others, Family::Party)?;
    let reworded = any_named(pair.left, Family::Party, &pair.marks.parties, ones);
    Ok(same_words(same, reworded))
}

/// Returns whether two styles name the same units, of which the right report has no other words.
fn has_same_units(
    alloc: Global,
    pair: &Pair,
    style: &Value,
    other: &Value,
) -> Result<bool, AllocError>
    requires marks { IsMarked pair.now }
    ensures { IfOk result (λ same. same ≡ has_same_voters_in pair.now family.Unit (codes "GpUnitIds") (view style.now) (view other.now)) }
{
    let ones = entries_at(style, "GpUnitIds");
    let others = entries_at(other, "GpUnitIds");
    let same = has_same_keys(alloc, pair.left, ones, pair.right, others, Family::Unit)?;
    let reworded = any_named(pair.left, Family::Unit, &pair.marks.units, ones);
    Ok(same_words(same, reworded))
}

/// Returns whether things are the same, from whether they have the same keys and whether one has other words.
fn same_words(same: bool, reworded: bool) -> bool
    ensures { result ≡ (same && not reworded) }
{
    same && !reworded
}

/// Returns whether two lists of references name objects of the family of the same keys.
fn has_same_keys(
    alloc: Global,
    left: &Report,
    ones: &[Value],
    right: &Report,
    others: &[Value],
    family: Family,
) -> Result<bool, AllocError>
    requires keyed { has_keys family ≡ true }
    ensures { IfOk result (λ same. same
        ≡ has_same_keys left.now.prefer (view left.now.tree) right.now.prefer (view right.now.tree) family (map view ones.now) (map view others.now)) }
{
    let one = keys_text(alloc, left, family, ones)?;
    let other = keys_text(alloc, right, family, others)?;
    Ok(is_same_text(one.as_str(), other.as_str()))
}

/// Returns the keys of what references name, in rising order, as compact JSON.
fn keys_text(
    alloc: Global,
    report: &Report,
    family: Family,
    references: &[Value],
) -> Result<String, AllocError>
    requires keyed { has_keys family ≡ true }
    ensures { IfOk result (λ text. string_bytes text ≡ compact_text (keys_data report.now.prefer (view report.now.tree) family (map view references.now))) }
{
    let mut out = Output::new(alloc);
    write_reference_set(alloc, report, family, references, &mut out)?;
    text_of(out)
}
