ghost use Rattle.std.specs.Prelude.{◌≡◌, ◌++◌, ◌∷◌, [], ℕ, List, string_bytes, IfOk, OnOk};
ghost use Rattle.serde_json.specs.Data.{Data};
ghost use Rattle.serde_json.specs.Written.{compact_text};
ghost use Rattle.erd_text.specs.Tokens.{value_tokens};
ghost use Rattle.erd_shown.specs.BallotLines.{headed_unless, line_unless, lines_text};

use erd_text::Output;
use std::alloc::AllocError;

/// Returns the text of what was written.
pub(crate) fn text_of(out: Output) -> Result<String, AllocError>
    ensures { IfOk result (λ text. (d : Data) → out ≡ value_tokens d → string_bytes text ≡ compact_text d) }
{
    match String::from_utf8(out.into_text()) {
        Ok(text) => Ok(text),
        Err(_) => Err(AllocError),
    }
}

/// Appends a line, ended by one line feed.
pub(crate) fn append_line(line: &str, text: &mut String) -> Result<(), AllocError>
    ensures { OnOk result (string_bytes text.new ≡ string_bytes text.old ++ lines_text (line.now ∷ [])) }
{
    append_text(line, text)?;
    append_text("\n", text)
}

/// Appends a text.
pub(crate) fn append_text(more: &str, text: &mut String) -> Result<(), AllocError>
    ensures { OnOk result (string_bytes text.new ≡ string_bytes text.old ++ more.now) }
{
    text.push_str(more)
}

/// Appends a line, unless it is so.
pub(crate) fn append_unless(so: bool, line: &str, text: &mut String) -> Result<(), AllocError>
    ensures { OnOk result (string_bytes text.new ≡ string_bytes text.old ++ lines_text (line_unless so line.now)) }
{
    if so { Ok(()) } else { append_line(line, text) }
}

/// Appends a line and the lines below it. Without any below, nothing if it is so.
pub(crate) fn append_headed(
    so: bool,
    line: &str,
    below: &str,
    text: &mut String,
) -> Result<(), AllocError>
    ensures { OnOk result ((told : List (List ℕ)) → below.now ≡ lines_text told
        → string_bytes text.new ≡ string_bytes text.old ++ lines_text (headed_unless so line.now told)) }
{
    if below.is_empty() {
        append_unless(so, line, text)
    } else {
        append_line(line, text)?;
        append_text(below, text)
    }
}
