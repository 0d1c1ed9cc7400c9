//! The object of a difference with what each report has there.
ghost use Rattle.std.specs.Prelude.{◌≡◌, ◌++◌, ◌-◌, IfOk, OnOk, is_some, length, option_copied, option_map, string_bytes, take};
ghost use Rattle.erd_canon.specs.Words.{comma_if, compact_text, view};
ghost use Rattle.erd_canon.specs.ValuedData.{role_in_part, value_at_difference};
ghost use Rattle.erd_canon.specs.code.ValuedInside.{inside_of, inside_put};
ghost use Rattle.erd_canon.specs.code.ValuedTexts.{have_any, have_both, side_text, sides_text, valued_of, valued_size, valued_text, values_put};
ghost use Rattle.erd_compare.specs.Differences.{member_of};

use crate::data::valued_inside::{Contests, contest_of, push_selections};
use erd_compare::{DetailedDifference, Difference, How, Part};
use erd_meaning::Report;
use erd_shown::side_value_text;
use erd_tables::{Family, Role};
use std::alloc::{AllocError, Global};

/// The two reports that are compared, and a bound on what is told of them.
#[derive(Clone, Copy)]
pub(crate) struct Sides<'a> {
    pub(crate) left: &'a Report<'a>,
    pub(crate) right: &'a Report<'a>,
    /// How many bytes the texts of the values inside the selections of one difference may have together.
    pub(crate) most_bytes: usize,
}

/// Appends the object of a difference with what each report has there, after a comma if it is not the first, and returns how many
/// bytes the object has.
pub(crate) fn push_valued(
    alloc: Global,
    sides: &Sides,
    difference: &DetailedDifference,
    later: bool,
    text: &mut Vec<u8>,
) -> Result<usize, AllocError>
    ensures size { IfOk result (λ size. size ≡ valued_size sides.now difference.now) }
    ensures wrote { OnOk result (text.new.items ≡ text.old.items ++ valued_text sides.now later difference.now) }
{
    let entry = object_text(alloc, sides, difference)?;
    push_comma(later, text)?;
    text.extend_from_slice(&entry)?;
    Ok(entry.as_slice().len())
}

/// Appends a comma if the item that follows is not the first.
pub(crate) fn push_comma(later: bool, text: &mut Vec<u8>) -> Result<(), AllocError>
    ensures { OnOk result (text.new.items ≡ text.old.items ++ comma_if later) }
{
    if later {
        text.push(b',')?;
    }
    Ok(())
}

/// Returns the text of the object of a difference with what each report has there.
fn object_text(
    alloc: Global,
    sides: &Sides,
    difference: &DetailedDifference,
) -> Result<Vec<u8>, AllocError>
    ensures { IfOk result (λ text. text.items ≡ compact_text (valued_of sides.now difference.now)) }
{
    let left = value_on_side(alloc, sides.left, &difference.difference)?;
    let right = value_on_side(alloc, sides.right, &difference.difference)?;
    let plain = difference.difference.to_value(alloc)?;
    let mut text = plain.to_string(alloc)?.into_bytes();
    push_inside(alloc, sides, difference, &mut text)?;
    push_values(text_of(&left), text_of(&right), &mut text)?;
    Ok(text)
}

/// Puts the member `selections` into the text of the object of a difference, behind its members, if what differs inside the
/// selections is told.
fn push_inside(
    alloc: Global,
    sides: &Sides,
    difference: &DetailedDifference,
    text: &mut Vec<u8>,
) -> Result<(), AllocError>
    ensures { OnOk result (text.new.items ≡ inside_put (inside_of sides.now difference.now) text.old.items) }
{
    match &difference.selections {
        Some(selections) => {
            let key = difference.difference.key.as_ref();
            let left = contest_of(sides.left, key);
            let right = contest_of(sides.right, key);
            let contests = Contests { left, right };
            push_selections(alloc, &contests, selections, sides.most_bytes, text)
        }
        None => Ok(()),
    }
}

/// Returns the text that is there, if there is one.
pub(crate) fn text_of(text: &Option<String>) -> Option<&str>
    ensures { option_copied result ≡ option_map string_bytes text.now }
{
    match text {
        Some(text) => Some(text.as_str()),
        None => None,
    }
}

/// Returns the text of what a report has at a difference, if it has anything.
fn value_on_side(
    alloc: Global,
    report: &Report,
    difference: &Difference,
) -> Result<Option<String>, AllocError>
    ensures { IfOk result (λ text. option_map string_bytes text ≡ option_map compact_text
        (value_at_difference report.now.prefer (view report.now.tree) difference.now)) }
{
    let role = role_in_part(difference.part);
    let member = member_of(&difference.how);
    side_value_text(alloc, report, role, difference.key.as_ref(), member)
}

/// Returns the name of the member that differs, if the difference is in a member.
pub(crate) fn member_of(how: &How) -> Option<&str>
    ensures { option_copied result ≡ member_of how.now }
{
    match how {
        How::OnlyLeft | How::OnlyRight | How::OtherClass => None,
        How::Member(name) => Some(name.as_str()),
    }
}

/// Returns the role of the objects in a part.
fn role_in_part(part: Part) -> Role
    ensures { result ≡ role_in_part part }
{
    match part {
        Part::Report => Role::Report,
        Part::Unit => Role::OfFamily(Family::Unit),
        Part::Party => Role::OfFamily(Family::Party),
        Part::Person => Role::OfFamily(Family::Person),
        Part::Office => Role::OfFamily(Family::Office),
        Part::Header => Role::OfFamily(Family::Header),
        Part::Election => Role::Election,
        Part::Candidate => Role::OfFamily(Family::Candidate),
        Part::Contest => Role::OfFamily(Family::Contest),
        Part::Style => Role::OfFamily(Family::Style),
    }
}

/// Puts the member `values` into the text of an object, behind its members, if there is a text for a side.
pub(crate) fn push_values(
    left: Option<&str>,
    right: Option<&str>,
    text: &mut Vec<u8>,
) -> Result<(), AllocError>
    ensures { OnOk result (text.new.items ≡ values_put (option_copied left.entry) (option_copied right.entry) text.old.items) }
{
    if have_any(left, right) {
        push_sides(left, right, text)
    } else {
        Ok(())
    }
}

/// Returns whether there is a text for a side.
fn have_any(left: Option<&str>, right: Option<&str>) -> bool
    ensures { result ≡ have_any (option_copied left.entry) (option_copied right.entry) }
{
    match left {
        Some(_) => true,
        None => is_there(right),
    }
}

/// Returns whether there are texts for both sides.
fn have_both(left: Option<&str>, right: Option<&str>) -> bool
    ensures { result ≡ have_both (option_copied left.entry) (option_copied right.entry) }
{
    match left {
        Some(_) => is_there(right),
        None => false,
    }
}

/// Returns whether there is a text.
fn is_there(text: Option<&str>) -> bool
    ensures { result ≡ is_some (option_copied text.entry) }
{
    match text {
        Some(_) => true,
        None => false,
    }
}

/// Puts the member `values` into the text of an object, behind its members. There is a text for a side.
fn push_sides(left: Option<&str>, right: Option<&str>, text: &mut Vec<u8>) -> Result<(), AllocError>
    ensures { OnOk result (text.new.items ≡ take (length text.old.items - 1) text.old.items ++ sides_text (option_copied left.entry)
        (option_copied right.entry)) }
{
    let last = text.len().saturating_sub(1);
    text.truncate(last);
    text.extend_from_slice(b",\"values\":{")?;
    push_side(b"\"left\":", left, text)?;
    push_comma(have_both(left, right), text)?;
    push_side(b"\"right\":", right, text)?;
    text.extend_from_slice(b"}}")?;
    Ok(())
}

/// Appends the name of a side and its text, if it has one.
fn push_side(name: &[u8], value: Option<&str>, text: &mut Vec<u8>) -> Result<(), AllocError>
    ensures { OnOk result (text.new.items ≡ text.old.items ++ side_text name.now (option_copied value.entry)) }
{
    match value {
        Some(value) => push_named(name, value, text),
        None => Ok(()),
    }
}

/// Appends the name of a side and its text.
fn push_named(name: &[u8], value: &str, text: &mut Vec<u8>) -> Result<(), AllocError>
    ensures { OnOk result (text.new.items ≡ text.old.items ++ (name.now ++ value.now)) }
{
    text.extend_from_slice(name)?;
    text.extend_from_slice(value.as_bytes())?;
    Ok(())
}
