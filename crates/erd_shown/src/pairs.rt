use crate::marks::Marks;
use erd_meaning::Report;

/// Two reports, and the objects of which ballots print other words in the right one.
#[derive(Drop)]
pub(crate) struct Pair<'a, 'l, 'r> {
    pub(crate) left: &'a Report<'l>,
    pub(crate) right: &'a Report<'r>,
    pub(crate) marks: Marks,
}
