//! Places in a JSON value, and their JSON Pointers (RFC 6901).
ghost use Rattle.std.specs.Prelude.{◌≡◌, ◌==◌, ◌++◌, length, slice_get, string_bytes, codes, IfOk};
ghost use Rattle.std.specs.Option.{option_copied};
ghost use Rattle.std.specs.Slice.Iter.{iter_rest};
ghost use Rattle.std.specs.Iterator.Adapters.{IterYieldsInOrder};
ghost use Rattle.erd_tables.specs.Places.{escaped_name, step_text, pointer_text};

use crate::text::Text;
use std::alloc::{AllocError, Global};
use std::marker::Model;
use std::slice::Iter;

/// One step from a JSON value to a value inside it.
#[derive(Debug, Drop)]
pub enum Step {
    /// The step from an object to its member of this name.
    Name(Text),
    /// The step from an array to its entry at this position, counted from 0.
    At(usize),
}

/// A place in a JSON value: the steps that lead to it from the whole value.
#[derive(Debug, Drop)]
pub struct Place {
    steps: Vec<Step>,
}

impl Model for Place {
    ghost use Rattle.std.specs.Prelude.{List};
    ghost use Rattle.erd_tables.specs.declared.place.Step.{Step};

    ghost Value = { List Step };

    ghost view = { λ p. p.steps.items };
}

impl Place {
    /// Returns the place that these steps lead to. With no steps it is the place of the whole value.
    ///
    /// ```
    /// let place = Place::of(vec![in alloc; Step::Name(name), Step::At(10)]?);
    /// ```
    pub fn of(steps: Vec<Step>) -> Place
        ensures { result ≡ steps.items }
    {
        Place { steps }
    }

    /// Returns the number of steps.
    ///
    /// ```
    /// assert_eq!(rt; place.len(), 2);
    /// ```
    pub fn len(&self) -> usize
        ensures { result ≡ length self.now }
    {
        self.steps.len()
    }

    /// Returns `true` if and only if the place has no steps: it is that of the whole value.
    ///
    /// ```
    /// assert!(rt; !place.is_empty());
    /// ```
    pub fn is_empty(&self) -> bool
        ensures { result ≡ (length self.now == 0) }
    {
        self.steps.is_empty()
    }

    /// Returns an iterator over the steps, from the whole value inwards.
    ///
    /// ```
    /// assert_eq!(rt; place.iter().count(), 2);
    /// ```
    pub fn iter(&self) -> Iter<'_, Step>
        ensures rest { iter_rest result ≡ self.now }
        ensures runs { IterYieldsInOrder Step }
    {
        self.steps.iter()
    }

    /// Returns the step at the position, counted from 0, or `None` if there is none.
    ///
    /// ```
    /// assert!(rt; matches!(place.step(1), Some(Step::At(10))));
    /// ```
    pub fn step(&self, index: usize) -> Option<&Step>
        ensures { option_copied result ≡ slice_get self.now index }
    {
        self.steps.get(index)
    }
}

/// Returns the JSON Pointer of a place (RFC 6901, section 5). It has a `/` before each step. For the whole value it is the
/// empty text. A position is written in decimal. In a name, `~` is written as `~0` and `/` as `~1`.
///
/// # Errors
///
/// `AllocError` if out of memory.
///
/// ```
/// assert_eq!(rt; pointer(alloc, &place)?.as_str(), "/GpUnit/10");
/// ```
pub fn pointer(alloc: Global, place: &Place) -> Result<String, AllocError>
    ensures { IfOk result (λ text. string_bytes text ≡ pointer_text place.now) }
{
    let mut text = String::new(alloc);
    for step in &place.steps {
        text.push('/')?;
        push_step(alloc, step, &mut text)?;
    }
    Ok(text)
}

fn push_step(alloc: Global, step: &Step, text: &mut String) -> Result<(), AllocError>
    ensures { IfOk result (λ _. string_bytes text.new ≡ string_bytes text.old ++ step_text step.now) }
{
    match step {
        Step::Name(name) => push_escaped(name.as_str(), text),
        Step::At(index) => {
            let index = format!(in alloc; "{index}")?;
            text.push_str(&index)
        }
    }
}

fn push_escaped(name: &str, text: &mut String) -> Result<(), AllocError>
    ensures { IfOk result (λ _. string_bytes text.new ≡ string_bytes text.old ++ escaped_name name.now) }
{
    for character in name.chars() {
        if character == '~' {
            text.push_str("~0")?;
        } else if character == '/' {
            text.push_str("~1")?;
        } else {
            text.push(character)?;
        }
    }
    Ok(())
}
