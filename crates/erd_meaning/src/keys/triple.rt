ghost use Rattle.std.specs.Prelude.{◌≡◌, option_copied, IfOk};
ghost use Rattle.erd_meaning.specs.Words.{is_lt, view, key_cmp, triple_of, eq_by_cmp_equiv, partial_equiv_from_equiv, eq_by_cmp, key_writes};
ghost use Rattle.erd_meaning.specs.code.ChosenKeys.{choice_cmp, is_preferred};
ghost use Rattle.erd_meaning.specs.code.Orders.{key_cmp_total, equal_keys_alike};

use crate::keys::key::Key;
use erd_check::values::text_at;
use erd_tables::Text;
use serde_json::Value;
use std::alloc::{AllocError, Global};
use std::cmp::Ordering;
use std::hash::{Hash, Hasher};
use std::marker::Model;

/// The three texts of an identifier or of a key, borrowed. Contracts see them as a key.
#[derive(Drop)]
pub(crate) struct Triple<'a> {
    pub(crate) kind: &'a str,
    pub(crate) other: &'a str,
    pub(crate) value: &'a str,
}

impl<'a> Model for Triple<'a> {
    ghost use Rattle.erd_meaning.specs.Words.{Key};

    ghost Value = { Key };

    ghost view = { λ t. record {
      kind = t.kind.now;
      other = t.other.now;
      value = t.value.now;
    } };
}

impl<'a> Triple<'a> {
    /// Returns the texts of an identifier.
    pub(crate) fn of(identifier: &'a Value) -> Triple<'a>
        ensures { result ≡ triple_of (view identifier.now) }
    {
        Triple {
            kind: text_at(identifier, "Type"),
            other: text_at(identifier, "OtherType"),
            value: text_at(identifier, "Value"),
        }
    }

    /// Returns the texts of a key.
    pub(crate) fn of_key(key: &'a Key) -> Triple<'a>
        ensures { result ≡ key.now }
    {
        Triple {
            kind: key.kind.as_str(),
            other: key.other.as_str(),
            value: key.value.as_str(),
        }
    }

    fn is_of_type(&self, kind: Option<&str>) -> bool
        ensures { result ≡ is_preferred (option_copied kind.entry) self.now }
    {
        match kind {
            Some(kind) => self.kind == kind,
            None => false,
        }
    }

    fn compare(&self, other: &Triple) -> Ordering
        ensures { result ≡ key_cmp self.now other.now }
    {
        self.kind
            .cmp(other.kind)
            .then_with(|| self.other.cmp(other.other))
            .then_with(|| self.value.cmp(other.value))
    }

    /// Returns whether this triple is a better choice for a key than the other. A triple of the preferred type is
    /// better than one of another type. Otherwise the lesser triple is better.
    pub(crate) fn goes_before(&self, other: &Triple, prefer: Option<&str>) -> bool
        ensures { result ≡ is_lt (choice_cmp (option_copied prefer.entry) self.now other.now) }
    {
        match (self.is_of_type(prefer), other.is_of_type(prefer)) {
            (true, false) => true,
            (false, true) => false,
            _ => self.compare(other).is_lt(),
        }
    }

    /// Returns a key with copies of the texts.
    pub(crate) fn to_key(&self, alloc: Global) -> Result<Key, AllocError>
        ensures { IfOk result (λ key. key ≡ self.now) }
    {
        let kind = Text::of(String::from_str(alloc, self.kind)?);
        let other = Text::of(String::from_str(alloc, self.other)?);
        let value = Text::of(String::from_str(alloc, self.value)?);
        Ok(Key { kind, other, value })
    }
}

impl<'a> PartialEq for Triple<'a> {
    ghost eq = { eq_by_cmp key_cmp };

    ghost laws = { partial_equiv_from_equiv (eq_by_cmp_equiv key_cmp_total) };

    fn eq(&self, other: &Triple<'a>) -> bool {
        self.compare(other).is_eq()
    }
}

impl<'a> Eq for Triple<'a> {
    ghost laws = { eq_by_cmp_equiv key_cmp_total };
}

impl<'a> Hash for Triple<'a> {
    ghost hash_input = { key_writes };

    ghost respects_eq = { equal_keys_alike key_writes };

    fn hash<H: Hasher>(&self, state: &mut H) {
        self.kind.hash(state);
        self.other.hash(state);
        self.value.hash(state);
    }
}
