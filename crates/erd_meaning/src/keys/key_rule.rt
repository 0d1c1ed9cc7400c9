ghost use Rattle.std.specs.Prelude.{◌≡◌, IfOk};
ghost use Rattle.erd_meaning.specs.Words.{view, key_of};

use crate::keys::key::Key;
use crate::keys::key_of::{chosen_triple, key_of};
use crate::keys::triple::Triple;
use serde_json::Value;
use std::alloc::{AllocError, Global};
use std::marker::Model;

/// How keys are made: with an allocator, and under a preference or none. Contracts see the preference.
#[derive(Drop)]
pub(crate) struct KeyRule<'p> {
    pub(crate) alloc: Global,
    pub(crate) prefer: Option<&'p str>,
}

impl<'p> Model for KeyRule<'p> {
    ghost use Rattle.std.specs.Prelude.{option_copied};
    ghost use Rattle.erd_meaning.specs.Words.{Preference};

    ghost Value = { Preference };

    ghost view = { λ r. option_copied r.prefer };
}

impl<'p> KeyRule<'p> {
    /// Returns the identifier that gives an object its key, if it has one.
    pub(crate) fn triple_of<'a>(&self, object: &'a Value) -> Option<Triple<'a>>
        ensures { result ≡ key_of self.now (view object.now) }
    {
        chosen_triple(object, self.prefer)
    }

    /// Returns the key of an object, if it has an identifier.
    pub(crate) fn key_of(&self, object: &Value) -> Result<Option<Key>, AllocError>
        ensures { IfOk result (λ key. key ≡ key_of self.now (view object.now)) }
    {
        key_of(self.alloc, object, self.prefer)
    }
}
