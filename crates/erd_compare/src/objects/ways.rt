ghost use Rattle.std.specs.Prelude.{◌≡◌, ◌↔◌, [], IfOk, IsTrue};
ghost use Rattle.erd_compare.specs.Words.{first_of};
ghost use Rattle.erd_compare.specs.code.DifferingWays.{hows_of};

use crate::difference::How;
use std::alloc::{AllocError, Global};

/// The ways in which two objects differ: only one report has the object, or the classes differ, or else the members with these
/// names, which rise. With no name the objects mean the same.
#[derive(Drop)]
pub(crate) enum Ways<'a> {
    OnlyLeft,
    OnlyRight,
    OtherClass,
    Members(Vec<&'a str>),
}

impl<'a> Ways<'a> {
    /// Returns whether there are no ways.
    pub(crate) fn are_none(&self) -> bool
        ensures { IsTrue result ↔ (hows_of self.now ≡ []) }
    {
        match self {
            Ways::Members(names) => names.is_empty(),
            _ => false,
        }
    }

    /// Returns the first way, if there is one.
    pub(crate) fn first(&self, alloc: Global) -> Result<Option<How>, AllocError>
        ensures { IfOk result (λ how. how ≡ first_of (hows_of self.now)) }
    {
        match self {
            Ways::OnlyLeft => Ok(Some(How::OnlyLeft)),
            Ways::OnlyRight => Ok(Some(How::OnlyRight)),
            Ways::OtherClass => Ok(Some(How::OtherClass)),
            Ways::Members(names) => match names.first() {
                Some(name) => Ok(Some(How::in_member(alloc, name)?)),
                None => Ok(None),
            },
        }
    }
}
