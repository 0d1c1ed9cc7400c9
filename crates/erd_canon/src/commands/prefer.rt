ghost use Rattle.std.specs.Prelude.{◌≡◌, option_copied};

use erd_tables::Text;
use std::marker::Model;

/// The type of identifier that a command line prefers, as written, or none. Contracts see the text, or none.
#[derive(Debug, Drop)]
pub struct Prefer {
    kind: Option<Text>,
}

impl Model for Prefer {
    ghost use Rattle.std.specs.Prelude.{List, ℕ, Option};

    ghost Value = { Option (List ℕ) };

    ghost view = { λ p. p.kind };
}

impl Prefer {
    /// Wraps a type, or none.
    pub(crate) fn of(kind: Option<Text>) -> Prefer
        ensures { result ≡ kind }
    {
        Prefer { kind }
    }

    /// Returns the preferred type, or `None` if there is none. It allocates no memory.
    ///
    /// ```
    /// assert_eq!(rt; prefer.text(), Some("fips"));
    /// ```
    pub fn text(&self) -> Option<&str>
        ensures { option_copied result ≡ self.now }
    {
        match &self.kind {
            Some(text) => Some(text.as_str()),
            None => None,
        }
    }
}
