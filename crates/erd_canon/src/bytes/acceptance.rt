ghost use Rattle.std.specs.Prelude.{ℕ, ◌≡◌, List, IfOk, IfErr, OnOk, None, Decides, option_copied};
ghost use Rattle.erd_canon.specs.Words.{view, IsShallow, IsAccepted, Preference, IsTreeOf, IsSomeReport, RefusedAs};

use crate::bytes::disposal::{Disposal, Free};
use crate::bytes::refusal::Refusal;
use erd_meaning::accept_with;
use serde_json::Value;
use std::alloc::Global;

/// The bytes of a report, for one use: a slice, or a vector that is freed once it is parsed.
pub(crate) trait Input: Drop {
    // The bytes.
    ghost bytes: { Self → List ℕ };

    /// Returns whether both inputs have the same bytes.
    fn has_same_bytes(&self, other: &Self) -> bool
        ensures { Decides result (bytes self.now ≡ bytes other.now) };

    /// Parses the bytes into a tree, and lets go of them.
    fn into_tree(self, alloc: Global) -> Result<Value, Refusal>
        ensures read { IfOk result (λ tree. IsTreeOf (bytes self) (view tree)) }
        ensures nests { IfOk result (λ tree. IsShallow (view tree)) }
        ensures refused { IfErr result (λ refusal. (π : Preference) → RefusedAs π (bytes self) refusal) };
}

impl Input for &[u8] {
    ghost bytes = { λ s. s.now };

    fn has_same_bytes(&self, other: &Self) -> bool {
        *self == *other
    }

    fn into_tree(self, alloc: Global) -> Result<Value, Refusal> {
        tree_of(alloc, self)
    }
}

impl Input for Vec<u8> {
    ghost bytes = { λ v. v.items };

    fn has_same_bytes(&self, other: &Self) -> bool {
        self.as_slice() == other.as_slice()
    }

    fn into_tree(self, alloc: Global) -> Result<Value, Refusal> {
        tree_of(alloc, self.as_slice())
    }
}

/// Checks that the bytes are an accepted report, with no preferred type of identifier. `check_bytes_with` takes a
/// preference.
///
/// # Errors
///
/// - `Refusal::NotJson` if the bytes are not JSON.
/// - `Refusal::Faults` with all faults of the first phase that has any, if the bytes are JSON but not an accepted report.
/// - `Refusal::Memory` if out of memory.
///
/// ```
/// let Err(Refusal::Faults(faults)) = check_bytes(alloc, BARE.as_bytes()) else {
///     return Err(Fail::from("a report without an election"));
/// };
/// assert_eq!(rt; faults.len(), 2);
/// ```
pub fn check_bytes(alloc: Global, bytes: &[u8]) -> Result<(), Refusal>
    ensures ok { OnOk result (IsSomeReport None bytes.now) }
    ensures refused { IfErr result (RefusedAs None bytes.now) }
{
    check_bytes_with(alloc, bytes, None)
}

/// Checks that the bytes are a report that is accepted under a preferred type of identifier, or under none.
///
/// # Errors
///
/// - `Refusal::NotJson` if the bytes are not JSON.
/// - `Refusal::Faults` with all faults of the first phase that has any, if the bytes are JSON but not an accepted report.
/// - `Refusal::Memory` if out of memory.
///
/// ```
/// assert!(rt; check_bytes_with(alloc, one, Some("fips")).is_ok());
/// ```
pub fn check_bytes_with(alloc: Global, bytes: &[u8], prefer: Option<&str>) -> Result<(), Refusal>
    ensures ok { OnOk result (IsSomeReport (option_copied prefer.entry) bytes.now) }
    ensures refused { IfErr result (RefusedAs (option_copied prefer.entry) bytes.now) }
{
    check_input(alloc, bytes, prefer, &Free)
}

/// Checks the input, as `check_bytes_with` does. Its tree goes to the disposal, and so does its report if it is accepted.
pub(crate) fn check_input<I: Input, D: Disposal>(
    alloc: Global,
    input: I,
    prefer: Option<&str>,
    disposal: &D,
) -> Result<(), Refusal>
    ensures ok { OnOk result (IsSomeReport (option_copied prefer.entry) (I.bytes input)) }
    ensures refused { IfErr result (RefusedAs (option_copied prefer.entry) (I.bytes input)) }
{
    let tree = input.into_tree(alloc)?;
    let answer = check_tree(alloc, &tree, prefer, disposal);
    disposal.dispose(tree);
    answer
}

/// Checks the tree of a report. If it is accepted, its report goes to the disposal.
fn check_tree<D: Disposal>(
    alloc: Global,
    tree: &Value,
    prefer: Option<&str>,
    disposal: &D,
) -> Result<(), Refusal>
    requires nests { IsShallow (view tree.now) }
    ensures ok { OnOk result (IsAccepted (option_copied prefer.entry) (view tree.now)) }
    ensures refused { IfErr result (λ refusal. (b : List ℕ) → IsTreeOf b (view tree.now) → RefusedAs (option_copied prefer.entry) b refusal) }
{
    let report = accept_with(alloc, tree, prefer)?;
    disposal.dispose(report);
    Ok(())
}

/// Parses the bytes into a tree.
fn tree_of(alloc: Global, bytes: &[u8]) -> Result<Value, Refusal>
    ensures read { IfOk result (λ tree. IsTreeOf bytes.now (view tree)) }
    ensures nests { IfOk result (λ tree. IsShallow (view tree)) }
    ensures refused { IfErr result (λ refusal. (π : Preference) → RefusedAs π bytes.now refusal) }
{
    match Value::from_slice(alloc, bytes) {
        Ok(tree) => Ok(tree),
        Err(error) if error.is_memory() => Err(Refusal::Memory),
        Err(_) => Err(Refusal::NotJson),
    }
}
