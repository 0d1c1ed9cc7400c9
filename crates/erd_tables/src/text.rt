//! Owned texts, which are ordered by their bytes.
ghost use Rattle.std.specs.Prelude.{◌≡◌, string_bytes, IfOk};

use std::alloc::{AllocError, Global};
use std::cmp::Ordering;
use std::fmt;
use std::hash::{Hash, Hasher};
use std::marker::Model;
use std::rc::RcStr;

/// What a text holds: a string of its own, or one that other texts may hold too.
#[derive(Drop)]
enum Held {
    Own(String),
    Shared(RcStr),
}

/// An owned text. Contracts see its UTF-8 bytes. Texts are compared and ordered by these bytes.
#[derive(Drop)]
pub struct Text {
    held: Held,
}

impl Model for Text {
    ghost use Rattle.std.specs.Prelude.{List, ℕ};
    ghost use Rattle.erd_tables.specs.Texts.{held_bytes};

    ghost Value = { List ℕ };

    ghost view = { λ t. held_bytes t.held };
}

impl Text {
    /// Returns the string as a `Text`.
    ///
    /// ```
    /// let name = Text::of(String::from_str(alloc, "GpUnit")?);
    /// ```
    pub fn of(text: String) -> Text
        ensures { result ≡ string_bytes text }
    {
        Text {
            held: Held::Own(text),
        }
    }

    /// Returns a copy of the string as a `Text` whose clones share its bytes.
    ///
    /// # Errors
    ///
    /// `AllocError` if out of memory.
    ///
    /// ```
    /// let name = Text::shared(alloc, "GpUnit")?;
    /// ```
    pub fn shared(alloc: Global, text: &str) -> Result<Text, AllocError>
        ensures { IfOk result (λ shared. shared ≡ text.now) }
    {
        let text = RcStr::from_str(alloc, text)?;
        Ok(Text {
            held: Held::Shared(text),
        })
    }

    /// Returns an equal text. It takes memory for the bytes only if this text was made by `of`.
    ///
    /// # Errors
    ///
    /// `AllocError` if out of memory, or if too many texts share the bytes.
    ///
    /// ```
    /// assert_eq!(rt; name.try_clone(alloc)?.as_str(), "GpUnit");
    /// ```
    pub fn try_clone(&self, alloc: Global) -> Result<Text, AllocError>
        ensures { IfOk result (λ copy. copy ≡ self.now) }
    {
        match &self.held {
            Held::Own(text) => Text::shared(alloc, text.as_str()),
            Held::Shared(text) => Ok(Text {
                held: Held::Shared(text.clone()?),
            }),
        }
    }

    /// Returns the text as a string slice.
    ///
    /// ```
    /// assert_eq!(rt; name.as_str(), "GpUnit");
    /// ```
    pub fn as_str(&self) -> &str
        ensures { result.now ≡ self.now }
    {
        match &self.held {
            Held::Own(text) => text.as_str(),
            Held::Shared(text) => text.as_str(),
        }
    }
}

impl fmt::Debug for Text {
    fn fmt<W: fmt::Write>(&self, f: &mut fmt::Formatter<W>) -> fmt::Result {
        f.debug_struct("Text")
            .field("text", &self.as_str())
            .finish()
    }
}

impl PartialEq for Text {
    ghost use Rattle.std.specs.Cmp.{partial_equiv_from_equiv};
    ghost use Rattle.std.specs.Cmp.Lexicographic.{nat_list_eq_equiv};
    ghost use Rattle.std.specs.Str.{bytes_eq};

    ghost eq = { bytes_eq };

    ghost laws = { partial_equiv_from_equiv nat_list_eq_equiv };

    fn eq(&self, other: &Text) -> bool {
        self.as_str() == other.as_str()
    }
}

impl Eq for Text {
    ghost use Rattle.std.specs.Cmp.Lexicographic.{nat_list_eq_equiv};

    ghost laws = { nat_list_eq_equiv };
}

impl PartialOrd for Text {
    ghost use Rattle.std.specs.Prelude.{Some};
    ghost use Rattle.std.specs.Cmp.Lexicographic.{slice_cmp, texts_po};
    ghost use Rattle.std.specs.Ordering.{nat_cmp};

    ghost partial_cmp = { λ a b. Some (slice_cmp nat_cmp a b) };

    ghost laws = { texts_po };

    fn partial_cmp(&self, other: &Text) -> Option<Ordering> {
        Some(self.cmp(other))
    }
}

impl Ord for Text {
    ghost use Rattle.std.proofs.Common.{refl};
    ghost use Rattle.std.specs.Cmp.Lexicographic.{slice_cmp, nat_list_cmp_total, texts_ties};
    ghost use Rattle.std.specs.Ordering.{nat_cmp};

    ghost cmp = { slice_cmp nat_cmp };

    ghost total = { nat_list_cmp_total };

    ghost matches_partial_cmp = { λ a b. refl };

    ghost matches_eq = { texts_ties };

    fn cmp(&self, other: &Text) -> Ordering {
        self.as_str().cmp(other.as_str())
    }
}

impl Hash for Text {
    ghost use Rattle.std.proofs.Common.{rules};
    ghost use Rattle.std.specs.Cmp.Rules.{hashing};
    ghost use Rattle.std.specs.Hash as fed;

    ghost hash_input = { fed.str };

    ghost respects_eq = { Prim.search (hashing, rules) };

    fn hash<H: Hasher>(&self, state: &mut H) {
        self.as_str().hash(state);
    }
}
