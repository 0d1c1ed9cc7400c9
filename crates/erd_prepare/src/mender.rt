//! A step, as code.
ghost use Rattle.std.specs.Prelude.{◌≡◌, IfOk, option_map};
ghost use Rattle.serde_json.specs.View.{view};
ghost use Rattle.erd_check.specs.Paths.{steps_of};
ghost use Rattle.erd_prepare.specs.Rules.{Rule, seen};

use erd_check::path::Path;
use erd_check::want::{Scope, Want};
use serde_json::Value;
use std::alloc::{AllocError, Global};

/// A step: what it does with each value, member and entry of a report.
///
/// Each method is asked at a place of the given report. Any of them may be out of memory.
pub trait Mender {
    // What the step does.
    ghost rule: { Self → Rule };

    /// Returns what decides what the table asks of the members of a value, given what it asks of the value.
    ///
    /// # Errors
    ///
    /// `AllocError` if out of memory.
    fn scope(&self, alloc: Global, want: Option<Want>, value: &Value) -> Result<Scope, AllocError>
        ensures { IfOk result (λ scope. scope ≡ (rule self.now).scopes want (view value.now)) };

    /// Returns another form of the value, or `None` if it keeps its form.
    ///
    /// # Errors
    ///
    /// `AllocError` if out of memory.
    fn shape(
        &self,
        alloc: Global,
        at: &Path,
        want: Option<Want>,
        value: &Value,
    ) -> Result<Option<Value>, AllocError>
        ensures { IfOk result (λ other. option_map view other ≡ (rule self.now).shapes (steps_of at.now) want (view value.now)) };

    /// Returns whether an object becomes a list of one entry.
    fn wraps(&self, at: &Path, want: Option<Want>, object: &Value) -> bool
        ensures { result ≡ (rule self.now).wraps (steps_of at.now) want (view object.now) };

    /// Returns whether a member is left out.
    ///
    /// # Errors
    ///
    /// `AllocError` if out of memory.
    fn drops(
        &self,
        alloc: Global,
        at: &Path,
        scope: Scope,
        name: &str,
        value: &Value,
    ) -> Result<bool, AllocError>
        ensures { IfOk result (λ goes. goes ≡ (rule self.now).drops (steps_of at.now) scope name.now (view value.now)) };

    /// Returns whether an entry of an array of which this is asked is left out.
    ///
    /// # Errors
    ///
    /// `AllocError` if out of memory.
    fn lets_go(
        &self,
        alloc: Global,
        at: &Path,
        array: Option<Want>,
        entry: &Value,
    ) -> Result<bool, AllocError>
        ensures { IfOk result (λ goes. goes ≡ (rule self.now).lets_go (steps_of at.now) array (view entry.now)) };

    /// Returns the members that are put into an object.
    ///
    /// # Errors
    ///
    /// `AllocError` if out of memory.
    fn puts(
        &self,
        alloc: Global,
        at: &Path,
        want: Option<Want>,
        object: &Value,
    ) -> Result<Vec<(String, Value)>, AllocError>
        ensures { IfOk result (λ ms. seen ms.items ≡ (rule self.now).puts (steps_of at.now) want (view object.now)) };
}
