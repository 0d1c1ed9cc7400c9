//! What the steps do to what a voter sees, and steps by the words of a caller.
ghost use Rattle.std.specs.Prelude.{◌≡◌, ◌++◌, IfOk, MatchOption, OnOk, false, map, option_map, true};
ghost use Rattle.erd_prepare.specs.StepWords.{group_named, group_of, name_of_group, is_same_group, steps_by_word, steps_chosen, steps_of_group};
ghost use Rattle.erd_prepare.specs.StepWords.{words_at_commas};

use crate::step_name::{STEPS, StepName};
use std::alloc::{AllocError, Global};

/// What a step does to what a voter sees.
#[derive(Clone, Copy, Debug, PartialEq, Eq)]
pub enum StepGroup {
    /// It takes out what no ballot has.
    Removed,
    /// It fills in or writes in another form: what a voter sees stays as it is.
    FilledIn,
    /// A voter sees another ballot.
    Visible,
    /// It leaves out what a comparison is to pass over, though files may well differ in it.
    View,
}

impl StepGroup {
    /// Returns the group of this name, if there is one.
    pub fn named(name: &str) -> Option<StepGroup>
        ensures { result ≡ group_named name.now }
    {
        match name {
            "removed" => Some(StepGroup::Removed),
            "filled-in" => Some(StepGroup::FilledIn),
            "visible" => Some(StepGroup::Visible),
            "view" => Some(StepGroup::View),
            _ => None,
        }
    }

    /// Returns the name by which a caller chooses all steps of the group.
    pub fn text(self) -> &'static str
        ensures { result.now ≡ name_of_group self }
    {
        match self {
            StepGroup::Removed => "removed",
            StepGroup::FilledIn => "filled-in",
            StepGroup::Visible => "visible",
            StepGroup::View => "view",
        }
    }

    /// Returns whether the group has the step.
    fn has(self, step: StepName) -> bool
        ensures { result ≡ is_same_group (group_of step) self }
    {
        StepGroup::of(step) == self
    }

    /// Returns the group of a step.
    pub fn of(step: StepName) -> StepGroup
        ensures { result ≡ group_of step }
    {
        match step {
            StepName::Nulls
            | StepName::UnusedIds
            | StepName::Outside
            | StepName::Counts
            | StepName::Devices
            | StepName::Coordinates
            | StepName::StrayIds
            | StepName::UnusedPersons
            | StepName::EmptyLists
            | StepName::EmptyTexts => StepGroup::Removed,
            StepName::ClassNames
            | StepName::Kinds
            | StepName::TwinIds
            | StepName::WholeNumbers
            | StepName::VendorIdentifiers
            | StepName::VendorTexts
            | StepName::Repeated
            | StepName::Names
            | StepName::TownCodes
            | StepName::CountyCodes
            | StepName::SharedCodes
            | StepName::WriteInCandidates
            | StepName::Codes
            | StepName::WriteInLines
            | StepName::PartyLines => StepGroup::FilledIn,
            StepName::GoneCandidates | StepName::UnusedStyles => StepGroup::Visible,
            StepName::Unseen | StepName::FalseFlags | StepName::OtherCodes => StepGroup::View,
        }
    }
}

/// Returns the steps that these words choose, with commas between the words: names of steps, and names of groups for all their
/// steps. It is `None` if a word is neither. The empty text chooses no step.
///
/// # Errors
///
/// `AllocError` if out of memory.
pub fn steps_named(alloc: Global, words: &str) -> Result<Option<Vec<StepName>>, AllocError>
    ensures { IfOk result (λ chosen. option_map (λ steps. steps.items) chosen ≡ steps_chosen words.now) }
{
    let mut steps = Vec::new(alloc);
    for word in &words_at_commas(alloc, words)? {
        if !add_word(word, &mut steps)? {
            return Ok(None);
        }
    }
    Ok(Some(steps))
}

/// Adds the steps that one word chooses, and returns whether it chooses some.
fn add_word(word: &str, steps: &mut Vec<StepName>) -> Result<bool, AllocError>
    ensures { IfOk result (λ is_known. MatchOption (steps_by_word word.now) (is_known ≡ false)
        (λ more. (is_known ≡ true) × (steps.new.items ≡ steps.old.items ++ more))) }
{
    if let Some(step) = StepName::named(word) {
        steps.push(step)?;
        return Ok(true);
    }
    match StepGroup::named(word) {
        Some(group) => {
            push_group(group, steps)?;
            Ok(true)
        }
        None => Ok(false),
    }
}

/// Returns the words of a text with commas between them. The empty text has none.
fn words_at_commas(alloc: Global, text: &str) -> Result<Vec<&str>, AllocError>
    ensures { IfOk result (λ words. map (λ word. word.now) words.items ≡ words_at_commas text.now) }
{
    if text.is_empty() {
        return Ok(Vec::new(alloc));
    }
    text.split(',').collect(alloc)
}

/// Adds the steps of a group, in the order in which they are done.
fn push_group(group: StepGroup, steps: &mut Vec<StepName>) -> Result<(), AllocError>
    ensures { OnOk result (steps.new.items ≡ steps.old.items ++ steps_of_group group) }
{
    for step in STEPS {
        if group.has(step) {
            steps.push(step)?;
        }
    }
    Ok(())
}
