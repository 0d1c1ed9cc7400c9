//! The names of selections: their order, and the selections that they find.
use crate::tests::answers::{Answer, right_if};
use crate::tests::edits::{BALLOT, BALLOT_FORM, Base, Edit, Edited, VENDOR_BALLOT, made};
use crate::tests::in_order::numbers_in_order;
use crate::tests::report_calls::{Checked, on_report};
use crate::tests::runs::PLAIN;
use crate::tests::vectors::{SMALL_BALLOT, SMALL_BALLOT_CANONICAL};
use erd_canon::Refusal;
use erd_meaning::{Report, SelectionName};
use erd_tables::Family;
use std::alloc::{AllocError, Global};
use std::process::Abort;
use std::test::Fail;

// For each selection, the position of its contest and the rank of its name among all names. Equal names have the same rank.
type Ranked = &'static [(usize, usize)];

const WRITE_IN: &str = r#""IsWriteIn":true}"#;

const ANSWER: &str = r#""Selection":"No"}"#;

// The names are ordered by the names of their classes, then by their keys, then by whether they are write-in lines. Labels
// that are texts come before labels with translations.
const NAMES: &[(Edited, Ranked)] = &[
    (BALLOT, &[(0, 3), (0, 4), (0, 2), (1, 1), (1, 0)]),
    (BALLOT_FORM, &[(0, 2), (0, 3), (0, 4), (1, 0), (1, 1)]),
    (VENDOR_BALLOT, &[(0, 0), (0, 1), (1, 2), (1, 4), (1, 3)]),
    // A party and a candidate with one key.
    (
        (
            Base::SmallBallot,
            &[
                (
                    WRITE_IN,
                    r#""IsWriteIn":true},{"@id":"a15","@type":"%PartySelection","PartyIds":["a3"]}"#,
                ),
                (r#""Value":"K3""#, r#""Value":"P1""#),
            ],
        ),
        &[(0, 3), (0, 4), (0, 2), (0, 5), (1, 1), (1, 0)],
    ),
    // A coalition is a party.
    (
        (
            Base::SmallBallot,
            &[
                (
                    r#""Name":"Blue"}"#,
                    concat!(
                        r#""Name":"Blue"},{"@id":"a15","@type":"%Coalition",#P2&,"Name":"Both","PartyIds":["a3","a15"],"ContestId":"a8","#,
                        r#""ContestIds":["a12","a8"]}"#,
                    ),
                ),
                (
                    WRITE_IN,
                    concat!(
                        r#""IsWriteIn":true},{"@id":"a18","@type":"%PartySelection","PartyIds":["a15","a3"]},{"@id":"a19","#,
                        r#""@type":"%PartySelection","PartyIds":["a15"]}"#,
                    ),
                ),
            ],
        ),
        &[(0, 3), (0, 4), (0, 2), (0, 5), (0, 6), (1, 1), (1, 0)],
    ),
    // A third contest, which has one answer.
    (
        (
            Base::SmallBallot,
            &[(
                r#"],"BallotStyle""#,
                concat!(
                    r#",{"@id":"a15","@type":"%RetentionContest",#C3&,"Name":"Keep","CandidateId":"a5","OfficeId":"a17","#,
                    r#""ElectionDistrictId":"a1","ContestSelection":[{"@id":"a18","@type":"%BallotMeasureSelection","Selection":"No"}]}],"#,
                    r#""BallotStyle""#,
                ),
            )],
        ),
        &[(0, 3), (0, 4), (0, 2), (1, 1), (1, 0), (2, 0)],
    ),
];

// What stands for the write-in line of the small ballot.
const BY_WRITE_INS: &[(&str, Ranked)] = &[
    // Write-in lines are distinguished by `SequenceOrder`, or by identifiers.
    (
        r#""IsWriteIn":true,"SequenceOrder":1},{"@id":"a15","@type":"%CandidateSelection","IsWriteIn":true,"SequenceOrder":2}"#,
        &[(0, 4), (0, 5), (0, 2), (0, 3), (1, 1), (1, 0)],
    ),
    (
        r#""IsWriteIn":true,#W1&},{"@id":"a15","@type":"%CandidateSelection","IsWriteIn":true,#W2&}"#,
        &[(0, 4), (0, 5), (0, 2), (0, 3), (1, 1), (1, 0)],
    ),
    (
        r#""IsWriteIn":true},{"@id":"a15","@type":"%CandidateSelection","IsWriteIn":true,"SequenceOrder":-7}"#,
        &[(0, 4), (0, 5), (0, 2), (0, 3), (1, 1), (1, 0)],
    ),
    // A selection that is no write-in line comes before one that is.
    (
        r#""IsWriteIn":true},{"@id":"a15","@type":"%CandidateSelection"}"#,
        &[(0, 4), (0, 5), (0, 3), (0, 2), (1, 1), (1, 0)],
    ),
    // A shorter list of candidates comes before its continuations.
    (
        r#""IsWriteIn":true},{"@id":"a15","@type":"%CandidateSelection","CandidateIds":["a5"]}"#,
        &[(0, 4), (0, 5), (0, 2), (0, 3), (1, 1), (1, 0)],
    ),
    // The class is compared before the keys, which a party and a candidate may share.
    (
        r#""IsWriteIn":true},{"@id":"a15","@type":"%PartySelection","PartyIds":["a3"]}"#,
        &[(0, 3), (0, 4), (0, 2), (0, 5), (1, 1), (1, 0)],
    ),
    // An absent number comes first. Numbers are ordered by value.
    (
        concat!(
            r#""IsWriteIn":true},{"@id":"a15","@type":"%CandidateSelection","IsWriteIn":true,"SequenceOrder":10},{"@id":"a18","#,
            r#""@type":"%CandidateSelection","IsWriteIn":true,"SequenceOrder":2},{"@id":"a19","@type":"%CandidateSelection","#,
            r#""IsWriteIn":true,"SequenceOrder":-1},{"@id":"a20","@type":"%CandidateSelection","IsWriteIn":true,"#,
            r#""SequenceOrder":18446744073709551615},{"@id":"a21","@type":"%CandidateSelection","IsWriteIn":true,"#,
            r#""SequenceOrder":-9223372036854775808}"#,
        ),
        &[
            (0, 8),
            (0, 9),
            (0, 2),
            (0, 6),
            (0, 5),
            (0, 4),
            (0, 7),
            (0, 3),
            (1, 1),
            (1, 0),
        ],
    ),
];

// What stands for an answer of its measure.
const BY_ANSWERS: &[(&str, Ranked)] = &[
    // Two contests may each have a selection with the same name. It is found in both.
    (
        r#""Selection":"No"},{"@id":"a15","@type":"%CandidateSelection","IsWriteIn":true}"#,
        &[(0, 3), (0, 4), (0, 2), (1, 1), (1, 0), (1, 2)],
    ),
    // A label as a text and the same label as one translation are different. Labels with translations are ordered by their
    // bytes.
    (
        concat!(
            r#""Selection":"No"},{"@id":"a15","@type":"%BallotMeasureSelection","Selection":"Yes"},{"@id":"a18","#,
            r#""@type":"%BallotMeasureSelection","Selection":{"@type":"%InternationalizedText","Text":[{"@type":"%LanguageString","#,
            r#""Language":"en","Content":"Yes"}]}}"#,
        ),
        &[(0, 5), (0, 6), (0, 4), (1, 2), (1, 0), (1, 1), (1, 3)],
    ),
    // The carried members of a label are part of it. So are those of a translation.
    (
        concat!(
            r#""Selection":"No"},{"@id":"a15","@type":"%BallotMeasureSelection","Selection":{"@type":"%InternationalizedText","Note":[2],"#,
            r#""Text":[{"@type":"%LanguageString","Language":"en","Content":"Yes"},{"@type":"%LanguageString","Language":"es","#,
            r#""Content":"Si"}]}},{"@id":"a18","@type":"%BallotMeasureSelection","Selection":{"@type":"%InternationalizedText","#,
            r#""Text":[{"@type":"%LanguageString","Language":"en","Content":"Yes"},{"@type":"%LanguageString","Language":"es","#,
            r#""Content":"Si","Accent":false}]}}"#,
        ),
        &[(0, 5), (0, 6), (0, 4), (1, 3), (1, 0), (1, 1), (1, 2)],
    ),
    // An absent identifier comes first. If there are several, the least one counts.
    (
        concat!(
            r#""Selection":"No"},{"@id":"a15","@type":"%BallotMeasureSelection","Selection":"No",#W1&},{"@id":"a18","#,
            r#""@type":"%BallotMeasureSelection","Selection":"No","ExternalIdentifier":[{"@type":"%ExternalIdentifier","#,
            r#""Type":"local-level","Value":"W1"},{"@type":"%ExternalIdentifier","Type":"fips","Value":"20"}]}"#,
        ),
        &[(0, 5), (0, 6), (0, 4), (1, 3), (1, 0), (1, 2), (1, 1)],
    ),
];

// Whether the names of the report's selections have these contests and ranks.
fn have_ranks(report: &Report, ranked: Ranked) -> bool {
    report.count(Family::Selection) == ranked.len()
        && report.selection_at(ranked.len()).is_none()
        && (0..ranked.len()).all(|index| has_rank(report, index, ranked))
}

// Whether the name at this position compares rightly with each name, and is found rightly in each contest.
fn has_rank(report: &Report, index: usize, ranked: Ranked) -> bool {
    let (Some((contest, rank)), Some((found, name))) = (
        ranked.get(index),
        report.selection_at(index),
    ) else {
        return false;
    };
    found == *contest
        && is_ordered(report, name, *rank, ranked)
        && is_found(report, name, *rank, ranked)
        && is_ranked(report, index, *rank, ranked)
}

fn is_ordered(report: &Report, name: &SelectionName, rank: usize, ranked: Ranked) -> bool {
    for (index, (_, other_rank)) in ranked.iter().enumerate() {
        let Some((_, other)) = report.selection_at(index) else {
            return false;
        };
        if name.cmp(other) != rank.cmp(other_rank) || (*name == *other) != (rank == *other_rank) {
            return false;
        }
    }
    true
}

// Whether the name is found in each contest that has it, at its position, and in no other contest.
fn is_found(report: &Report, name: &SelectionName, rank: usize, ranked: Ranked) -> bool {
    for contest in 0..report.count(Family::Contest).saturating_add(1) {
        let wanted = ranked.iter().position(|it| *it == (contest, rank));
        if report.find_selection(contest, name) != wanted {
            return false;
        }
    }
    true
}

// Whether the name with the ranks of its keys compares rightly with each such name.
fn is_ranked(report: &Report, index: usize, rank: usize, ranked: Ranked) -> bool {
    let Some((_, one)) = report.ranked_name_at(index) else {
        return false;
    };
    for (other_index, (_, other_rank)) in ranked.iter().enumerate() {
        let Some((_, other)) = report.ranked_name_at(other_index) else {
            return false;
        };
        if one.compare(other) != rank.cmp(other_rank) {
            return false;
        }
    }
    true
}

// Calls `then` on the accepted report of this text, without a preference.
pub fn on_text<F: FnOnce(&Report) -> Answer>(
    alloc: Global,
    text: &str,
    then: F,
) -> Result<Answer, Refusal>
    requires { F.IsAlwaysCallable then }
{
    let asked = Checked {
        report: text.as_bytes(),
        lines: "",
        form: "",
        under: PLAIN,
    };
    on_report(alloc, &asked, then)
}

fn is_ranked_so(alloc: Global, base: Base, edits: &[Edit], ranked: Ranked) -> Result<bool, Fail> {
    let report = made(alloc, (base, edits))?;
    let answer = on_text(
        alloc,
        report.as_str(),
        |report| right_if(have_ranks(report, ranked)),
    )?;
    Ok(answer == Answer::Right)
}

fn all_are_ranked(rt: &impl Abort, alloc: Global, table: &[(Edited, Ranked)]) -> Result<(), Fail> {
    for (index, ((base, edits), ranked)) in table.iter().enumerate() {
        assert!(rt;
            is_ranked_so(alloc, *base, edits, ranked)?,
            "report {index}"
        );
    }
    Ok(())
}

// The small ballot with this text replaced by those of the table.
fn all_are_ranked_with(
    rt: &impl Abort,
    alloc: Global,
    from: &'static str,
    table: &[(&'static str, Ranked)],
) -> Result<(), Fail> {
    for (to, ranked) in table {
        assert!(rt;
            is_ranked_so(alloc, Base::SmallBallot, &[(from, *to)], ranked)?,
            "{to}"
        );
    }
    Ok(())
}

#[test]
fn names_of_selections(rt: HostRuntime) -> Result<(), Fail> {
    all_are_ranked(&rt, rt.alloc(), NAMES)
}

#[test]
fn names_of_write_ins(rt: HostRuntime) -> Result<(), Fail> {
    all_are_ranked_with(&rt, rt.alloc(), WRITE_IN, BY_WRITE_INS)
}

#[test]
fn names_of_answers(rt: HostRuntime) -> Result<(), Fail> {
    all_are_ranked_with(&rt, rt.alloc(), ANSWER, BY_ANSWERS)
}

// The names of the selections with their positions.
fn numbered_names(
    alloc: Global,
    report: &Report,
) -> Result<Vec<(SelectionName, usize)>, AllocError> {
    let mut pairs = Vec::new(alloc);
    for index in 0..report.count(Family::Selection) {
        if let Some((_, name)) = report.selection_at(index) {
            pairs.push((name.try_clone(alloc)?, index))?;
        }
    }
    Ok(pairs)
}

// The positions of the selections in the order of their names.
fn positions_in_order(alloc: Global, report: &Report) -> Result<Vec<usize>, AllocError> {
    numbers_in_order(alloc, numbered_names(alloc, report)?)
}

fn are_in_order(alloc: Global, report: &Report, wanted: &[usize]) -> Answer {
    match positions_in_order(alloc, report) {
        Ok(positions) => right_if(positions.as_slice() == wanted),
        Err(_) => Answer::WantsMemory,
    }
}

#[test]
fn names_in_order(rt: HostRuntime) -> Result<(), Fail> {
    let alloc = rt.alloc();
    let answer = on_text(alloc, SMALL_BALLOT, |report| {
        are_in_order(alloc, report, &[4, 3, 2, 0, 1])
    })?;
    assert!(rt; answer == Answer::Right);
    Ok(())
}

// Whether the names of one report find the same selections in the other, at these positions.
fn are_found(left: &Report, right: &Report, wanted: &[usize]) -> bool {
    for (index, position) in wanted.iter().enumerate() {
        let Some((contest, name)) = left.selection_at(index) else {
            return false;
        };
        if right.find_selection(contest, name) != Some(*position) {
            return false;
        }
    }
    left.count(Family::Selection) == right.count(Family::Selection)
}

fn found_in(alloc: Global, left: &Report, right: &str, wanted: &[usize]) -> Answer {
    let found = on_text(
        alloc,
        right,
        |right| right_if(are_found(left, right, wanted)),
    );
    found.unwrap_or(Answer::Wrong)
}

// The names of one report are found in another report with other `@id` texts and arrays in another order.
#[test]
fn names_of_two_vendors(rt: HostRuntime) -> Result<(), Fail> {
    let alloc = rt.alloc();
    let answer = on_text(alloc, SMALL_BALLOT, |left| {
        found_in(alloc, left, SMALL_BALLOT_CANONICAL, &[1, 2, 0, 4, 3])
    })?;
    assert!(rt; answer == Answer::Right);
    Ok(())
}
