//! The name of a selection.
ghost use Rattle.std.specs.Prelude.{◌≡◌, IfOk, fold, length, option_copied, option_map, refl, slice_get};
ghost use Rattle.erd_meaning.specs.Words.{eq_by_cmp, name_cmp, after_keys_writes, numbered_name_cmp, numbered_name_writes, numbered_parts, eq_by_cmp_equiv};
ghost use Rattle.erd_meaning.specs.Words.{partial_equiv_from_equiv, partial_order_from_total, as_partial_cmp, name_writes};
ghost use Rattle.erd_meaning.specs.code.NumberedOrders.{after_keys_cmp};
ghost use Rattle.erd_meaning.specs.code.Orders.{name_cmp_total, equal_names_alike, name_cmp_exact};

use crate::keys::key::{Key, copied};
use crate::keys::shared_key::SharedKey;
use erd_tables::{Class, Text, type_text};
use erd_text::SetOrder;
use std::alloc::{AllocError, Global};
use std::cmp::Ordering;
use std::hash::{Hash, Hasher};
use std::marker::Model;

/// The name of a selection in its contest. It identifies the selection independently of the vendor.
/// Contracts see its six parts, which docs/PROFILE.md lists ("Names of selections").
///
/// Names are ordered by the name of the class, by bytes; then by the list of keys, key by key; then by whether the selection
/// is for a write-in, false before true; then by sequence order, label and identifier, with none before any value.
#[derive(Debug, Drop)]
pub struct SelectionName {
    pub(crate) class: Class,
    pub(crate) keys: Vec<SharedKey>,
    pub(crate) write_in: bool,
    pub(crate) order: Option<i128>,
    pub(crate) label: Option<Text>,
    pub(crate) identifier: Option<Key>,
}

impl Model for SelectionName {
    ghost use Rattle.erd_meaning.specs.Words.{NameParts};

    ghost Value = { NameParts };

    ghost view = { λ n. record {
      class = n.class;
      keys = n.keys.items;
      write_in = n.write_in;
      order = n.order;
      label = n.label;
      identifier = n.identifier;
    } };
}

impl SelectionName {
    /// Returns an equal name. The two names share the keys of candidates or parties; the other parts are copied.
    ///
    /// # Errors
    ///
    /// `AllocError` if out of memory.
    ///
    /// ```
    /// assert!(rt; name.try_clone(alloc)? == *name);
    /// ```
    pub fn try_clone(&self, alloc: Global) -> Result<SelectionName, AllocError>
        ensures { IfOk result (λ name. name ≡ self.now) }
    {
        let keys = copied_keys(alloc, &self.keys)?;
        let label = copied_label(alloc, &self.label)?;
        let identifier = copied_identifier(alloc, &self.identifier)?;
        Ok(SelectionName {
            class: self.class,
            keys,
            write_in: self.write_in,
            order: self.order,
            label,
            identifier,
        })
    }

    /// Returns the class of the selection.
    ///
    /// ```
    /// assert_eq!(rt; type_text(name.class()), "ElectionResults.CandidateSelection");
    /// ```
    pub fn class(&self) -> Class
        ensures { result ≡ self.now.class }
    {
        self.class
    }

    /// Returns the number of keys of candidates or parties in the name.
    ///
    /// ```
    /// assert_eq!(rt; name.key_count(), 0);
    /// ```
    pub fn key_count(&self) -> usize
        ensures { result ≡ length self.now.keys }
    {
        self.keys.len()
    }

    /// Returns the key of a candidate or party at the position, or `None` if there is none. Positions count from 0, and the
    /// keys rise.
    ///
    /// ```
    /// assert!(rt; name.key_at(0).is_none());
    /// ```
    pub fn key_at(&self, index: usize) -> Option<&Key>
        ensures { option_copied result ≡ slice_get self.now.keys index }
    {
        match self.keys.get(index) {
            Some(shared) => Some(shared.key()),
            None => None,
        }
    }

    /// Returns whether the selection is for a write-in.
    ///
    /// ```
    /// assert!(rt; name.is_write_in());
    /// ```
    pub fn is_write_in(&self) -> bool
        ensures { result ≡ self.now.write_in }
    {
        self.write_in
    }

    /// Returns the sequence order of the selection, if it has one.
    ///
    /// ```
    /// assert!(rt; name.sequence_order().is_none());
    /// ```
    pub fn sequence_order(&self) -> Option<i128>
        ensures { result ≡ self.now.order }
    {
        self.order
    }

    /// Returns the compact text of the label of a BallotMeasureSelection, and `None` for any other class.
    ///
    /// ```
    /// assert!(rt; name.label().is_none());
    /// ```
    pub fn label(&self) -> Option<&str>
        ensures { option_map (λ s. s.now) result ≡ self.now.label }
    {
        match &self.label {
            Some(text) => Some(text.as_str()),
            None => None,
        }
    }

    /// Returns the triple that is chosen from the identifiers of the selection, if it has any.
    ///
    /// ```
    /// assert!(rt; name.identifier().is_none());
    /// ```
    pub fn identifier(&self) -> Option<&Key>
        ensures { option_copied result ≡ self.now.identifier }
    {
        self.identifier.as_ref()
    }

    /// Compares the name with another, one part after another.
    fn compare(&self, other: &SelectionName) -> Ordering
        ensures { result ≡ name_cmp self.now other.now }
    {
        type_text(self.class)
            .cmp(type_text(other.class))
            .then_with(|| self.keys.cmp(&other.keys))
            .then_with(|| self.compare_after_keys(other))
    }

    /// Compares the parts after the keys with those of another name.
    fn compare_after_keys(&self, other: &SelectionName) -> Ordering
        ensures { result ≡ after_keys_cmp self.now other.now }
    {
        self.write_in
            .cmp(&other.write_in)
            .then(self.order.cmp(&other.order))
            .then_with(|| self.label.cmp(&other.label))
            .then_with(|| self.identifier.cmp(&other.identifier))
    }

    /// Feeds a hasher the parts after the keys.
    pub(crate) fn hash_after_keys<H: Hasher>(&self, state: &mut H)
        ensures { state.new ≡ fold H.write state.old (after_keys_writes self.now) }
    {
        self.write_in.hash(state);
        self.order.hash(state);
        self.label.hash(state);
        self.identifier.hash(state);
    }

    /// Feeds a hasher the name, with numbers in place of its keys.
    pub(crate) fn hash_numbered<H: Hasher>(&self, numbers: &[usize], state: &mut H)
        ensures { state.new ≡ fold H.write state.old (numbered_name_writes (numbered_parts self.now numbers.now)) }
    {
        type_text(self.class).hash(state);
        numbers.hash(state);
        self.hash_after_keys(state);
    }
}

/// Compares two names, one part after another, with numbers in place of their keys.
pub(crate) fn compare_numbered(
    one: &SelectionName,
    numbers: &[usize],
    other: &SelectionName,
    others: &[usize],
) -> Ordering
    ensures { result ≡ numbered_name_cmp (numbered_parts one.now numbers.now) (numbered_parts other.now others.now) }
{
    type_text(one.class)
        .cmp(type_text(other.class))
        .then_with(|| numbers.cmp(others))
        .then_with(|| one.compare_after_keys(other))
}

impl PartialEq for SelectionName {
    ghost eq = { eq_by_cmp name_cmp };

    ghost laws = { partial_equiv_from_equiv (eq_by_cmp_equiv name_cmp_total) };

    fn eq(&self, other: &SelectionName) -> bool {
        self.compare(other).is_eq()
    }
}

impl Eq for SelectionName {
    ghost laws = { eq_by_cmp_equiv name_cmp_total };
}

impl PartialOrd for SelectionName {
    ghost partial_cmp = { as_partial_cmp name_cmp };

    ghost laws = { partial_order_from_total name_cmp_total };

    fn partial_cmp(&self, other: &SelectionName) -> Option<Ordering> {
        Some(self.compare(other))
    }
}

impl Ord for SelectionName {
    ghost cmp = { name_cmp };

    ghost total = { name_cmp_total };

    ghost matches_partial_cmp = { λ a b. refl };

    ghost matches_eq = { λ a b. refl };

    fn cmp(&self, other: &SelectionName) -> Ordering {
        self.compare(other)
    }
}

impl Hash for SelectionName {
    ghost hash_input = { name_writes };

    ghost respects_eq = { equal_names_alike name_writes };

    fn hash<H: Hasher>(&self, state: &mut H) {
        type_text(self.class).hash(state);
        self.keys.hash(state);
        self.hash_after_keys(state);
    }
}

fn copied_keys(alloc: Global, keys: &[SharedKey]) -> Result<Vec<SharedKey>, AllocError>
    ensures { IfOk result (λ copies. copies.items ≡ keys.now) }
{
    let mut copies = Vec::with_capacity(alloc, keys.len())?;
    for key in keys {
        copies.push(key.try_clone()?)?;
    }
    Ok(copies)
}

fn copied_label(alloc: Global, label: &Option<Text>) -> Result<Option<Text>, AllocError>
    ensures { IfOk result (λ copy. copy ≡ label.now) }
{
    match label {
        Some(text) => Ok(Some(copied(alloc, text)?)),
        None => Ok(None),
    }
}

fn copied_identifier(alloc: Global, identifier: &Option<Key>) -> Result<Option<Key>, AllocError>
    ensures { IfOk result (λ copy. copy ≡ identifier.now) }
{
    match identifier {
        Some(key) => Ok(Some(key.try_clone(alloc)?)),
        None => Ok(None),
    }
}

impl SetOrder for SelectionName {
    ghost cmp = { name_cmp };

    ghost total = { name_cmp_total };

    ghost exact = { name_cmp_exact };

    fn order(&self, other: &SelectionName) -> Ordering {
        self.cmp(other)
    }
}
