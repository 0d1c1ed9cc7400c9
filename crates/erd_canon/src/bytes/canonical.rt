ghost use Rattle.std.specs.Prelude.{ℕ, List, IfOk, IfErr, None, option_copied};
ghost use Rattle.erd_canon.specs.Words.{view, IsShallow, IsTreeOf, Headline, RefusedAs};

use crate::bytes::acceptance::Input;
use crate::bytes::disposal::{Disposal, Free};
use crate::bytes::refusal::Refusal;
use erd_meaning::accept_with;
use erd_normal::normal_text;
use serde_json::Value;
use std::alloc::Global;

/// Returns the canonical bytes of an accepted report, with no preferred type of identifier. `canonical_with` takes a
/// preference.
///
/// # Errors
///
/// - `Refusal::NotJson` if the bytes are not JSON.
/// - `Refusal::Faults` with all faults of the first phase that has any, if the bytes are JSON but not an accepted report.
/// - `Refusal::Memory` if out of memory.
///
/// ```
/// let (one, other) = (REPORT.as_bytes(), OTHER_SPELLING.as_bytes());
/// assert!(rt; canonical(alloc, one)? == canonical(alloc, other)?);
/// ```
pub fn canonical(alloc: Global, bytes: &[u8]) -> Result<Vec<u8>, Refusal>
    ensures headline { IfOk result (λ text. Headline None bytes.now text.items) }
    ensures refused { IfErr result (RefusedAs None bytes.now) }
{
    canonical_with(alloc, bytes, None)
}

/// Returns the canonical bytes of a report that is accepted under a preferred type of identifier, or under none.
///
/// They are the compact text of the only canonical report (docs/PROFILE.md) that means what the given report means under the
/// preference. The clause `headline` says what they promise, under one preference:
///
/// - They are an accepted report, and mean what the given report means.
/// - Two reports have equal canonical bytes if and only if they mean the same.
/// - They have equal canonical bytes if and only if they say the same: one is the other but for its `@id` texts, the order of
///   the entries of its sets, members that may be absent, and its envelope.
/// - Canonical bytes are their own canonical bytes, and have no others.
/// - Renaming identifiers in the report or reordering its sets changes no byte.
///
/// # Errors
///
/// - `Refusal::NotJson` if the bytes are not JSON.
/// - `Refusal::Faults` with all faults of the first phase that has any, if the bytes are JSON but not an accepted report.
/// - `Refusal::Memory` if out of memory.
///
/// ```
/// let form = canonical_with(alloc, one, Some("fips"))?;
/// assert_eq!(rt; form.as_slice(), CANONICAL.as_bytes());
/// ```
pub fn canonical_with(alloc: Global, bytes: &[u8], prefer: Option<&str>) -> Result<Vec<u8>, Refusal>
    ensures headline { IfOk result (λ text. Headline (option_copied prefer.entry) bytes.now text.items) }
    ensures refused { IfErr result (RefusedAs (option_copied prefer.entry) bytes.now) }
{
    canonical_of_input(alloc, bytes, prefer, &Free)
}

/// Returns the canonical bytes of the input, as `canonical_with` does. Its tree goes to the disposal, and so does its report if
/// it is accepted.
pub(crate) fn canonical_of_input<I: Input, D: Disposal>(
    alloc: Global,
    input: I,
    prefer: Option<&str>,
    disposal: &D,
) -> Result<Vec<u8>, Refusal>
    ensures headline { IfOk result (λ text. Headline (option_copied prefer.entry) (I.bytes input) text.items) }
    ensures refused { IfErr result (RefusedAs (option_copied prefer.entry) (I.bytes input)) }
{
    let tree = input.into_tree(alloc)?;
    let answer = canonical_of_tree(alloc, &tree, prefer, disposal);
    disposal.dispose(tree);
    answer
}

/// Returns the canonical bytes of the tree of a report. If it is accepted, its report goes to the disposal.
fn canonical_of_tree<D: Disposal>(
    alloc: Global,
    tree: &Value,
    prefer: Option<&str>,
    disposal: &D,
) -> Result<Vec<u8>, Refusal>
    requires nests { IsShallow (view tree.now) }
    ensures headline { IfOk result (λ text. (b : List ℕ) → IsTreeOf b (view tree.now) → Headline (option_copied prefer.entry) b text.items) }
    ensures refused { IfErr result (λ refusal. (b : List ℕ) → IsTreeOf b (view tree.now) → RefusedAs (option_copied prefer.entry) b refusal) }
{
    let report = accept_with(alloc, tree, prefer)?;
    let text = normal_text(alloc, &report);
    disposal.dispose(report);
    Ok(text?)
}
