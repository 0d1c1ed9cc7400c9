ghost use Rattle.std.specs.Prelude.{◌≡◌, option_copied};

use erd_tables::Text;
use std::marker::Model;

/// The steps that a command line chooses, as written, or none. Contracts see the text, or none.
#[derive(Debug, Drop)]
pub struct Steps {
    names: Option<Text>,
}

impl Model for Steps {
    ghost use Rattle.std.specs.Prelude.{List, ℕ, Option};

    ghost Value = { Option (List ℕ) };

    ghost view = { λ s. s.names };
}

impl Steps {
    /// Wraps names of steps and groups, or none.
    pub(crate) fn of(names: Option<Text>) -> Steps
        ensures { result ≡ names }
    {
        Steps { names }
    }

    /// Returns the names of the chosen steps and groups, with commas between them, or `None` if the words choose none. Then it
    /// is for the caller to take the group `removed`. It allocates no memory.
    ///
    /// ```
    /// assert_eq!(rt; steps.text(), Some("removed,codes"));
    /// ```
    pub fn text(&self) -> Option<&str>
        ensures { option_copied result ≡ self.now }
    {
        match &self.names {
            Some(names) => Some(names.as_str()),
            None => None,
        }
    }
}
