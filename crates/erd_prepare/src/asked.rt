//! What the member table asks, also where it asks nothing of the value around.
ghost use Rattle.std.specs.Prelude.{◌≡◌};
ghost use Rattle.serde_json.specs.View.{view};
ghost use Rattle.erd_prepare.specs.Rules.{entry_in, scope_in};

use erd_check::want::{Scope, Want, scope_of, want_of_entry};
use serde_json::Value;

/// Returns the scope of the members of a value of which this is asked, or nothing.
pub(crate) fn scope_in(want: Option<Want>, value: &Value) -> Scope
    ensures { result ≡ scope_in want (view value.now) }
{
    match want {
        Some(want) => scope_of(want, value),
        None => Scope::Nothing,
    }
}

/// Returns what is asked of the entries of an array of which this is asked, or nothing.
pub(crate) fn entry_in(want: Option<Want>) -> Option<Want>
    ensures { result ≡ entry_in want }
{
    match want {
        Some(want) => want_of_entry(want),
        None => None,
    }
}
