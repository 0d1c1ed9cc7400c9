ghost use Rattle.std.specs.Prelude.{◌≡◌, ◌<◌, option_map, true, IfOk, IfSome, Ok};
ghost use Rattle.std.specs.Option.{is_some};
ghost use Rattle.erd_compare.specs.Words.{view, IsTree};
ghost use Rattle.erd_compare.specs.code.LeastNames.{IsObject};
ghost use Rattle.erd_compare.specs.code.MemberPairs.{IsPairOf};
ghost use Rattle.erd_compare.specs.code.DifferingNames.{GoesFrom, IsAtStart, StandInPair, count_left};

use crate::objects::members_left::{MembersLeft, lesser_name};
use serde_json::Value;
use std::alloc::AllocError;

/// What two objects have under a name: the values of the members, or none where an object lacks the member.
#[derive(Clone, Copy)]
pub(crate) struct MemberPair<'a> {
    pub(crate) name: &'a str,
    pub(crate) one: Option<&'a Value>,
    pub(crate) other: Option<&'a Value>,
}

/// The members of two objects that remain in a walk in step by their names. It stands between two names that differ.
#[derive(Drop)]
pub(crate) struct PairsLeft<'a> {
    one: &'a Value,
    other: &'a Value,
    ones: MembersLeft<'a>,
    others: MembersLeft<'a>,
}

impl<'a> PairsLeft<'a> {
    /// Returns all the members of two objects, as those that remain.
    pub(crate) fn of(one: &'a Value, other: &'a Value) -> Option<PairsLeft<'a>>
        requires one { IsTree (view one.now) }
        requires other { IsTree (view other.now) }
        requires one_object { IsObject (view one.now) }
        requires other_object { IsObject (view other.now) }
        ensures some { is_some result ≡ true }
        ensures stand { IfSome result (StandInPair (view one.now) (view other.now)) }
        ensures left { IfSome result (IsAtStart (view one.now) (view other.now)) }
    {
        let (Some(ones), Some(others)) = (one.as_object(), other.as_object()) else {
            return None;
        };
        let ones = MembersLeft::of(ones);
        let others = MembersLeft::of(others);
        Some(PairsLeft {
            one,
            other,
            ones,
            others,
        })
    }

    /// Goes on to the next name at which the two objects differ, and returns it. `is_same` says whether what they have under a
    /// name means the same.
    pub(crate) fn next_differing<F: Fn(MemberPair<'a>) -> Result<bool, AllocError>>(
        &mut self,
        is_same: F,
    ) -> Result<Option<&'a str>, AllocError>
        requires stand { StandInPair (view self.old.one.now) (view self.old.other.now) self.old }
        requires callable { (pair : _) → IsPairOf (view self.old.one.now) (view self.old.other.now) pair → F.pre is_same pair }
        ensures stand { StandInPair (view self.old.one.now) (view self.old.other.now) self.new }
        ensures fewer { IfOk result (λ next. IfSome next (λ name. count_left self.new < count_left self.old)) }
        ensures next { IfOk result (λ next. GoesFrom (λ pair answer. F.post is_same pair (Ok answer))
            (view self.old.one.now) (view self.old.other.now) self.old self.new
            (option_map (λ s. s.now) next)) }
    {
        while let Some(name) = lesser_name(self.ones.first_name(), self.others.first_name()) {
            let pair = MemberPair {
                name,
                one: self.ones.value_in(self.one, name),
                other: self.others.value_in(self.other, name),
            };
            let same = is_same(pair)?;
            self.ones.pass(name);
            self.others.pass(name);
            if !same {
                return Ok(Some(name));
            }
        }
        Ok(None)
    }
}
