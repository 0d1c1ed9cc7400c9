ghost use Rattle.std.specs.Prelude.{ℕ, List, IfErr, IfOk, None, option_copied};
ghost use Rattle.erd_canon.specs.Words.{view, IsShallow, Preference, AgreesUnderEach, TellsWhatIsSaid, IsAcceptedReport, IsTreeOf, IsComparison, IsSomeReport};
ghost use Rattle.erd_canon.specs.Words.{RefusedSide};

use crate::bytes::acceptance::{Input, check_input};
use crate::bytes::disposal::{Disposal, Free};
use crate::bytes::refusal::{Refusal, Side};
use erd_compare::{Difference, first_difference};
use erd_meaning::{Report, accept_with};
use serde_json::Value;
use std::alloc::Global;

/// Returns the first difference between the meanings of two reports, or `None` if and only if they mean the same, and so if and
/// only if they say the same. There is no preferred type of identifier. `compare_bytes_with` takes a preference.
///
/// # Errors
///
/// - `Side::Left` with the refusal if the left report is refused.
/// - `Side::Right` with the refusal if the left report is accepted and the right report is refused.
/// - `Side::Memory` if both reports are accepted and memory runs out while they are compared.
///
/// ```
/// let difference = compare_bytes(alloc, one, other)?.ok_or("no difference")?;
/// assert_eq!(rt; difference.part, Part::Election);
/// ```
pub fn compare_bytes(alloc: Global, left: &[u8], right: &[u8]) -> Result<Option<Difference>, Side>
    ensures ok { IfOk result (IsComparison None left.now right.now) }
    ensures said { IfOk result (TellsWhatIsSaid left.now right.now) }
    ensures agree { IfOk result (AgreesUnderEach left.now right.now) }
    ensures refused { IfErr result (RefusedSide None left.now right.now) }
{
    compare_bytes_with(alloc, left, right, None)
}

/// Returns the first difference between the meanings of two reports under a preferred type of identifier, or under none.
/// Returns `None` if and only if they mean the same. They do if and only if they say the same: one is the other but for its
/// `@id` texts, the order of the entries of its sets, members that may be absent, and its envelope.
///
/// The right report is checked only if the left report is accepted. Each is refused for the same reasons as by
/// `canonical_with`. If both are accepted, they mean the same under this preference if and only if they mean the same under
/// each other preference that accepts both.
///
/// # Errors
///
/// - `Side::Left` with the refusal if the left report is refused.
/// - `Side::Right` with the refusal if the left report is accepted and the right report is refused.
/// - `Side::Memory` if both reports are accepted and memory runs out while they are compared.
///
/// ```
/// let half = compare_bytes_with(alloc, one, "{".as_bytes(), Some("fips"));
/// assert!(rt; matches!(half, Err(Side::Right(Refusal::NotJson))));
/// ```
pub fn compare_bytes_with(
    alloc: Global,
    left: &[u8],
    right: &[u8],
    prefer: Option<&str>,
) -> Result<Option<Difference>, Side>
    ensures ok { IfOk result (IsComparison (option_copied prefer.entry) left.now right.now) }
    ensures said { IfOk result (TellsWhatIsSaid left.now right.now) }
    ensures agree { IfOk result (AgreesUnderEach left.now right.now) }
    ensures refused { IfErr result (RefusedSide (option_copied prefer.entry) left.now right.now) }
{
    compare_inputs(alloc, left, right, prefer, &Free)
}

/// Compares the inputs, as `compare_bytes_with` does. Two with the same bytes are judged once. Each tree that is read and each
/// report that is accepted goes to the disposal.
pub(crate) fn compare_inputs<I: Input, D: Disposal>(
    alloc: Global,
    left: I,
    right: I,
    prefer: Option<&str>,
    disposal: &D,
) -> Result<Option<Difference>, Side>
    ensures ok { IfOk result (IsComparison (option_copied prefer.entry) (I.bytes left) (I.bytes right)) }
    ensures said { IfOk result (TellsWhatIsSaid (I.bytes left) (I.bytes right)) }
    ensures agree { IfOk result (AgreesUnderEach (I.bytes left) (I.bytes right)) }
    ensures refused { IfErr result (RefusedSide (option_copied prefer.entry) (I.bytes left) (I.bytes right)) }
{
    if left.has_same_bytes(&right) {
        return compare_with_itself(alloc, left, prefer, disposal);
    }
    let tree = left_tree_of(alloc, left)?;
    let answer = compare_with_tree(alloc, &tree, right, prefer, disposal);
    disposal.dispose(tree);
    answer
}

/// Compares an input with another that has the same bytes: an accepted report means the same as itself.
fn compare_with_itself<I: Input, D: Disposal>(
    alloc: Global,
    input: I,
    prefer: Option<&str>,
    disposal: &D,
) -> Result<Option<Difference>, Side>
    ensures ok { IfOk result (IsComparison (option_copied prefer.entry) (I.bytes input) (I.bytes input)) }
    ensures refused { IfErr result (λ side. (right : List ℕ) → RefusedSide (option_copied prefer.entry) (I.bytes input) right side) }
{
    match check_input(alloc, input, prefer, disposal) {
        Ok(()) => Ok(None),
        Err(refusal) => Err(Side::Left(refusal)),
    }
}

/// Compares the tree of the left report with the input on the right.
fn compare_with_tree<I: Input, D: Disposal>(
    alloc: Global,
    left: &Value,
    right: I,
    prefer: Option<&str>,
    disposal: &D,
) -> Result<Option<Difference>, Side>
    requires nests { IsShallow (view left.now) }
    ensures ok { IfOk result (λ found. (b : List ℕ) → IsTreeOf b (view left.now) → IsComparison (option_copied prefer.entry) b (I.bytes right) found) }
    ensures refused { IfErr result (λ side. (b : List ℕ) → IsTreeOf b (view left.now) → RefusedSide (option_copied prefer.entry) b (I.bytes right) side) }
{
    let report = match accept_with(alloc, left, prefer) {
        Ok(report) => report,
        Err(error) => return Err(Side::Left(Refusal::from(error))),
    };
    let answer = compare_with_report(alloc, &report, right, disposal);
    disposal.dispose(report);
    answer
}

/// Compares the left report with the input on the right, under the preference of the report.
fn compare_with_report<I: Input, D: Disposal>(
    alloc: Global,
    left: &Report,
    right: I,
    disposal: &D,
) -> Result<Option<Difference>, Side>
    ensures ok { IfOk result (λ found. (b : List ℕ) → IsAcceptedReport left.now.prefer b (view left.now.tree)
        → IsComparison left.now.prefer b (I.bytes right) found) }
    ensures refused { IfErr result (λ side. (b : List ℕ) → IsAcceptedReport left.now.prefer b (view left.now.tree)
        → RefusedSide left.now.prefer b (I.bytes right) side) }
{
    let tree = right_tree_of(alloc, right)?;
    let answer = compare_report_with_tree(alloc, left, &tree, disposal);
    disposal.dispose(tree);
    answer
}

/// Compares the left report with the tree of the right one, under the preference of the report.
fn compare_report_with_tree<D: Disposal>(
    alloc: Global,
    left: &Report,
    right: &Value,
    disposal: &D,
) -> Result<Option<Difference>, Side>
    requires nests { IsShallow (view right.now) }
    ensures ok { IfOk result (λ found. (b c : List ℕ) → IsAcceptedReport left.now.prefer b (view left.now.tree) → IsTreeOf c (view right.now)
        → IsComparison left.now.prefer b c found) }
    ensures refused { IfErr result (λ side. (b c : List ℕ) → IsAcceptedReport left.now.prefer b (view left.now.tree) → IsTreeOf c (view right.now)
        → RefusedSide left.now.prefer b c side) }
{
    let report = match accept_with(alloc, right, left.preference()) {
        Ok(report) => report,
        Err(error) => return Err(Side::Right(Refusal::from(error))),
    };
    let answer = first_difference(alloc, left, &report);
    disposal.dispose(report);
    match answer {
        Ok(found) => Ok(found),
        Err(_) => Err(Side::Memory),
    }
}

/// Parses the input on the left into a tree.
pub(crate) fn left_tree_of<I: Input>(alloc: Global, left: I) -> Result<Value, Side>
    ensures read { IfOk result (λ tree. IsTreeOf (I.bytes left) (view tree)) }
    ensures nests { IfOk result (λ tree. IsShallow (view tree)) }
    ensures refused { IfErr result (λ side. (π : Preference) (right : List ℕ) → RefusedSide π (I.bytes left) right side) }
{
    match left.into_tree(alloc) {
        Ok(tree) => Ok(tree),
        Err(refusal) => Err(Side::Left(refusal)),
    }
}

/// Parses the input on the right into a tree.
pub(crate) fn right_tree_of<I: Input>(alloc: Global, right: I) -> Result<Value, Side>
    ensures read { IfOk result (λ tree. IsTreeOf (I.bytes right) (view tree)) }
    ensures nests { IfOk result (λ tree. IsShallow (view tree)) }
    ensures refused { IfErr result (λ side. (π : Preference) (left : List ℕ) → IsSomeReport π left → RefusedSide π left (I.bytes right) side) }
{
    match right.into_tree(alloc) {
        Ok(tree) => Ok(tree),
        Err(refusal) => Err(Side::Right(refusal)),
    }
}
