//! Sets of JSON values in which an equal value is found fast.
use crate::equality::is_among;
use crate::ordered_value::OrderedValue;
use serde_json::Value;
use std::alloc::{AllocError, Global};
use std::collections::BTreeSet;

/// Up to this many values are compared pair by pair, which takes no memory. More values are put into a `ValueSet` first.
pub const FEW_VALUES: usize = 16;

/// A set of JSON values. It finds a value that is equal as JSON to a given one in time that grows with the logarithm of the
/// number of values.
#[derive(Drop)]
pub struct ValueSet<'a> {
    ordered: BTreeSet<OrderedValue<'a>>,
}

impl<'a> ValueSet<'a> {
    ghost use Rattle.std.specs.Prelude.{◌≡◌, [], ◌∷◌, ◌++◌, List, map, IfOk};
    ghost use Rattle.std.specs.List.{list_any};
    ghost use Rattle.serde_json.specs.Data.{Data};
    ghost use Rattle.serde_json.specs.View.{view};
    ghost use Rattle.erd_check.specs.Trees.{is_same_json};
    ghost use Rattle.erd_check.specs.ValueSets.{StandsFor, values_in};

    /// Returns an empty set.
    ///
    /// ```
    /// let mut set = ValueSet::new(alloc);
    /// assert!(rt; !set.has(&one));
    /// ```
    pub fn new(alloc: Global) -> ValueSet<'a>
        ensures { StandsFor [] result }
    {
        ValueSet {
            ordered: BTreeSet::new(alloc),
        }
    }

    /// Returns the set of these values.
    ///
    /// # Errors
    ///
    /// `AllocError` if out of memory.
    ///
    /// ```
    /// assert!(rt; ValueSet::of(alloc, entries)?.has(&second));
    /// ```
    pub fn of(alloc: Global, values: &'a [Value]) -> Result<ValueSet<'a>, AllocError>
        ensures { IfOk result (StandsFor (map view values.now)) }
    {
        let mut set = ValueSet::new(alloc);
        for value in values {
            set.insert(value)?;
        }
        Ok(set)
    }

    /// Adds a value.
    ///
    /// # Errors
    ///
    /// `AllocError` if out of memory.
    ///
    /// ```
    /// set.insert(&one)?;
    /// assert!(rt; set.has(&other));
    /// ```
    pub fn insert(&mut self, value: &'a Value) -> Result<(), AllocError>
        ensures { IfOk result (λ _. (ds : List Data) → StandsFor ds self.old → StandsFor (ds ++ view value.now ∷ []) self.new) }
    {
        self.ordered.insert(OrderedValue { value })?;
        Ok(())
    }

    /// Adds a value, and returns values to compare with it. One of them is equal to it as JSON if and only if a value of the
    /// set was, before this one was added.
    pub(crate) fn insert_tied(&mut self, value: &'a Value) -> Result<&'a [Value], AllocError>
        ensures tied { IfOk result (λ tied. list_any (is_same_json (view value.now)) (map view tied.now) ≡ list_any (is_same_json (view value.now))
            (values_in self.old)) }
        ensures stands { IfOk result (λ _. (ds : List Data) → StandsFor ds self.old → StandsFor (ds ++ view value.now ∷ []) self.new) }
    {
        if self.ordered.insert(OrderedValue { value })? {
            Ok(&[])
        } else {
            Ok(self.tied_with(value))
        }
    }

    /// Returns values to compare with the given one. One of them is equal to it as JSON if and only if a value of the
    /// set is.
    pub(crate) fn tied_with(&self, value: &'a Value) -> &'a [Value]
        ensures { list_any (is_same_json (view value.now)) (map view result.now) ≡ list_any (is_same_json (view value.now)) (values_in self.now) }
    {
        match self.ordered.get(&OrderedValue { value }) {
            Some(found) => std::slice::from_ref(found.value),
            None => &[],
        }
    }

    /// Returns `true` if and only if the set has a value that is equal as JSON to the given one.
    ///
    /// ```
    /// assert!(rt; set.has(&other));
    /// ```
    pub fn has(&self, value: &'a Value) -> bool
        ensures { result ≡ list_any (is_same_json (view value.now)) (values_in self.now) }
    {
        is_among(value, self.tied_with(value))
    }
}
