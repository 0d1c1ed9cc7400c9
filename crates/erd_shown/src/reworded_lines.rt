ghost use Rattle.std.specs.Prelude.{◌≡◌, ◌||◌, map, codes, IfOk};
ghost use Rattle.std.specs.List.{list_any};
ghost use Rattle.serde_json.specs.View.{view};
ghost use Rattle.erd_tables.specs.declared.class.Family.TheVariants as family;
ghost use Rattle.erd_shown.specs.ListedNames.{selections_named};
ghost use Rattle.erd_shown.specs.Reworded.{are_selections_reworded, are_voters_reworded, is_ballot_reworded, is_contest_reworded, is_line_reworded};
ghost use Rattle.erd_shown.specs.Reworded.{is_reworded, is_selection_reworded, true_of_any_named, true_of_named, true_of_named_at};
ghost use Rattle.erd_shown.specs.code.LineLists.{of_line};
ghost use Rattle.erd_shown.specs.code.Marks.{AreMarks};

use crate::ballots::lines_of;
use crate::contests_and_headers::is_header;
use crate::lines::Line;
use crate::listed::lists_selections;
use crate::marks::{Marks, any_of, one_of};
use crate::named::{any_named, is_named_at};
use crate::reworded::{object_named, object_referred};
use erd_check::values::{entries_at, text_at};
use erd_meaning::Report;
use erd_tables::Family;
use serde_json::Value;
use std::alloc::{AllocError, Global};

/// Returns whether the ballot of a style prints other words in the right report.
pub(crate) fn is_ballot_reworded(
    alloc: Global,
    left: &Report,
    style: &Value,
    right: &Report,
    marks: &Marks,
) -> Result<bool, AllocError>
    requires marks { AreMarks left.now.prefer (view left.now.tree) right.now.prefer (view right.now.tree) marks.now }
    ensures { IfOk result (λ it. it ≡ is_ballot_reworded left.now.prefer (view left.now.tree) right.now.prefer (view right.now.tree) (view style.now)) }
{
    let lines = lines_of(alloc, style)?;
    let line = any_line_reworded(left, &lines, right, marks);
    let voters = are_voters_reworded(left, style, right, marks);
    Ok(one_of(line, voters))
}

/// Returns whether ballots print other names of those whose voters get the ballot of a style.
fn are_voters_reworded(left: &Report, style: &Value, right: &Report, marks: &Marks) -> bool
    requires marks { AreMarks left.now.prefer (view left.now.tree) right.now.prefer (view right.now.tree) marks.now }
    ensures { result ≡ are_voters_reworded left.now.prefer (view left.now.tree) right.now.prefer (view right.now.tree) (view style.now) }
{
    let parties = entries_at(style, "PartyIds");
    let units = entries_at(style, "GpUnitIds");
    let party = any_named(left, Family::Party, &marks.parties, parties);
    let unit = any_named(left, Family::Unit, &marks.units, units);
    one_of(party, unit)
}

/// Returns whether ballots print other words of one of the lines.
fn any_line_reworded(left: &Report, lines: &[Line], right: &Report, marks: &Marks) -> bool
    requires marks { AreMarks left.now.prefer (view left.now.tree) right.now.prefer (view right.now.tree) marks.now }
    ensures { result ≡ list_any (λ l. is_line_reworded left.now.prefer (view left.now.tree) right.now.prefer (view right.now.tree) (of_line l).1) lines.now }
{
    for line in lines {
        if is_line_reworded(left, line.node, right, marks) {
            return true;
        }
    }
    false
}

/// Returns whether ballots print other words of a line.
pub(crate) fn is_line_reworded(left: &Report, node: &Value, right: &Report, marks: &Marks) -> bool
    requires marks { AreMarks left.now.prefer (view left.now.tree) right.now.prefer (view right.now.tree) marks.now }
    ensures { result ≡ is_line_reworded left.now.prefer (view left.now.tree) right.now.prefer (view right.now.tree) (view node.now) }
{
    if is_header(node) {
        is_header_line_reworded(left, node, right, marks)
    } else {
        is_contest_line_reworded(left, node, right, marks)
    }
}

/// Returns whether ballots print other words of a line that is a header.
fn is_header_line_reworded(left: &Report, node: &Value, right: &Report, marks: &Marks) -> bool
    requires marks { AreMarks left.now.prefer (view left.now.tree) right.now.prefer (view right.now.tree) marks.now }
    ensures { result ≡ true_of_named_at (codes "HeaderId") (is_reworded left.now.prefer (view left.now.tree) right.now.prefer (view right.now.tree)
        family.Header) (view left.now.tree) family.Header (view node.now) }
{
    is_named_at(left, Family::Header, &marks.headers, node, "HeaderId")
}

/// Returns whether ballots print other words of a line that is a contest.
fn is_contest_line_reworded(left: &Report, node: &Value, right: &Report, marks: &Marks) -> bool
    requires marks { AreMarks left.now.prefer (view left.now.tree) right.now.prefer (view right.now.tree) marks.now }
    ensures { result ≡ (true_of_named_at (codes "ContestId") (is_contest_reworded left.now.prefer (view left.now.tree) right.now.prefer (view right.now.tree))
        (view left.now.tree) family.Contest (view node.now)
        || are_selections_reworded left.now.prefer (view left.now.tree) right.now.prefer (view right.now.tree) (view node.now)) }
{
    let contest = is_named_at(left, Family::Contest, &marks.contests, node, "ContestId");
    let selections = are_selections_reworded(left, node, right, marks);
    one_of(contest, selections)
}

/// Returns whether ballots print other words of a selection of a contest: one that the ballot lists, or if it lists none any of
/// the contest.
fn are_selections_reworded(left: &Report, node: &Value, right: &Report, marks: &Marks) -> bool
    requires marks { AreMarks left.now.prefer (view left.now.tree) right.now.prefer (view right.now.tree) marks.now }
    ensures { result ≡ are_selections_reworded left.now.prefer (view left.now.tree) right.now.prefer (view right.now.tree) (view node.now) }
{
    if lists_selections(node) {
        let references = entries_at(node, "OrderedContestSelectionIds");
        any_listed_reworded(left, references, right, marks)
    } else {
        any_of_named_reworded(left, text_at(node, "ContestId"), right, marks)
    }
}

/// Returns whether one of the references names a selection of which ballots print other words.
fn any_listed_reworded(left: &Report, references: &[Value], right: &Report, marks: &Marks) -> bool
    requires marks { AreMarks left.now.prefer (view left.now.tree) right.now.prefer (view right.now.tree) marks.now }
    ensures { result ≡ true_of_any_named (is_selection_reworded left.now.prefer (view left.now.tree) right.now.prefer (view right.now.tree))
        (view left.now.tree) family.Selection (map view references.now) }
{
    for reference in references {
        if is_listed_reworded(left, reference, right, marks) {
            return true;
        }
    }
    false
}

/// Returns whether a reference names a selection of which ballots print other words.
fn is_listed_reworded(left: &Report, reference: &Value, right: &Report, marks: &Marks) -> bool
    requires marks { AreMarks left.now.prefer (view left.now.tree) right.now.prefer (view right.now.tree) marks.now }
    ensures { result ≡ true_of_named (is_selection_reworded left.now.prefer (view left.now.tree) right.now.prefer (view right.now.tree))
        (view left.now.tree) family.Selection (view reference.now) }
{
    match object_referred(left, Family::Selection, reference) {
        Some(selection) => is_selection_reworded(left, selection, right, marks),
        None => false,
    }
}

/// Returns whether ballots print other words of a selection of the contest that a reference names.
fn any_of_named_reworded(left: &Report, id: &str, right: &Report, marks: &Marks) -> bool
    requires marks { AreMarks left.now.prefer (view left.now.tree) right.now.prefer (view right.now.tree) marks.now }
    ensures { result ≡ list_any (is_selection_reworded left.now.prefer (view left.now.tree) right.now.prefer (view right.now.tree))
        (selections_named (view left.now.tree) id.now) }
{
    match object_named(left, Family::Contest, id) {
        Some(contest) => {
            let selections = entries_at(contest, "ContestSelection");
            any_reworded(left, selections, right, marks)
        }
        None => false,
    }
}

/// Returns whether ballots print other words of one of the selections.
fn any_reworded(left: &Report, selections: &[Value], right: &Report, marks: &Marks) -> bool
    requires marks { AreMarks left.now.prefer (view left.now.tree) right.now.prefer (view right.now.tree) marks.now }
    ensures { result ≡ list_any (is_selection_reworded left.now.prefer (view left.now.tree) right.now.prefer (view right.now.tree)) (map view selections.now) }
{
    for selection in selections {
        if is_selection_reworded(left, selection, right, marks) {
            return true;
        }
    }
    false
}

/// Returns whether ballots print other words of the candidates or parties of a selection.
fn is_selection_reworded(left: &Report, selection: &Value, right: &Report, marks: &Marks) -> bool
    requires marks { AreMarks left.now.prefer (view left.now.tree) right.now.prefer (view right.now.tree) marks.now }
    ensures { result ≡ is_selection_reworded left.now.prefer (view left.now.tree) right.now.prefer (view right.now.tree) (view selection.now) }
{
    let candidates = entries_at(selection, "CandidateIds");
    let parties = entries_at(selection, "PartyIds");
    let endorsing = entries_at(selection, "EndorsementPartyIds");
    let candidate = any_named(left, Family::Candidate, &marks.candidates, candidates);
    let party = any_named(left, Family::Party, &marks.parties, parties);
    let endorsement = any_named(left, Family::Party, &marks.parties, endorsing);
    any_of(candidate, party, endorsement)
}
