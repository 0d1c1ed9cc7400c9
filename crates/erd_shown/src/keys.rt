ghost use Rattle.std.specs.Prelude.{◌≡◌, ◌++◌, OnOk, option_copied};
ghost use Rattle.erd_text.specs.Tokens.{value_tokens};
ghost use Rattle.erd_shown.specs.KeyData.{shown_key, shown_key_or_null};

use erd_meaning::Key;
use erd_text::Output;
use std::alloc::AllocError;

/// Writes a key as the array of its three texts.
pub(crate) fn write_key(key: &Key, out: &mut Output) -> Result<(), AllocError>
    ensures { OnOk result (out.new ≡ out.old ++ value_tokens (shown_key key.now)) }
{
    out.begin_array()?;
    out.string(key.kind.as_str())?;
    out.string(key.other.as_str())?;
    out.string(key.value.as_str())?;
    out.end_array()
}

/// Writes a key, or null.
pub(crate) fn write_key_or_null(key: Option<&Key>, out: &mut Output) -> Result<(), AllocError>
    ensures { OnOk result (out.new ≡ out.old ++ value_tokens (shown_key_or_null (option_copied key.entry))) }
{
    match key {
        Some(key) => write_key(key, out),
        None => out.null(),
    }
}
