ghost use Rattle.std.specs.Prelude.{◌≡◌, false, IfOk};
ghost use Rattle.serde_json.specs.View.{view};
ghost use Rattle.serde_json.specs.Written.{compact_text, has_float};

use crate::set_order::SetOrder;
use erd_tables::Text;
use serde_json::Value;
use std::alloc::{AllocError, Global};
use std::cmp::Ordering;
use std::marker::Model;

/// The compact text of a JSON value: the text that `serde_json` writes, with no white space between tokens. Texts are
/// ordered by their bytes. Contracts see the bytes.
#[derive(Debug, PartialEq, Eq, PartialOrd, Ord, Drop)]
pub struct CompactText {
    text: Text,
}

impl Model for CompactText {
    ghost use Rattle.std.specs.Prelude.{List, ℕ};

    ghost Value = { List ℕ };

    ghost view = { λ t. t.text };

    ghost inverse = { λ bytes. record { text = bytes } };
}

impl CompactText {
    /// Returns the compact text of a value, with the members of objects and the entries of arrays in their order. The
    /// contract covers only values whose numbers are all whole.
    ///
    /// # Errors
    ///
    /// `AllocError` if out of memory.
    ///
    /// ```
    /// let value = Value::from_str(alloc, r#"{ "a": [1, 2] }"#)?;
    /// let text = CompactText::of(alloc, &value)?;
    /// ```
    pub fn of(alloc: Global, value: &Value) -> Result<CompactText, AllocError>
        ensures { IfOk result (λ t. has_float (view value.now) ≡ false → t ≡ compact_text (view value.now)) }
    {
        let text = value.to_string(alloc)?;
        Ok(CompactText {
            text: Text::of(text),
        })
    }
}

impl SetOrder for CompactText {
    ghost use Rattle.std.specs.Cmp.Lexicographic.{nat_list_cmp_total};
    ghost use Rattle.std.proofs.lemmas.Map.Lookups.{exact_bytes};
    ghost use Rattle.erd_tables.specs.Texts.{text_cmp};

    ghost cmp = { text_cmp };

    ghost total = { nat_list_cmp_total };

    ghost exact = { exact_bytes };

    fn order(&self, other: &CompactText) -> Ordering {
        self.text.cmp(&other.text)
    }
}
