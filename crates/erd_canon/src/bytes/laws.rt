ghost use Rattle.erd_canon.specs.Words.{OneFormForOneMeaning, IsItsOwnForm, SameFormWhenRearranged};

/// The law that two reports have equal canonical bytes if and only if they mean the same. The function does nothing.
pub fn one_form_for_one_meaning()
    ensures law { OneFormForOneMeaning }
{}

/// The law that canonical bytes are their own canonical bytes, and have no others. The function does nothing.
pub fn is_its_own_form()
    ensures law { IsItsOwnForm }
{}

/// The law that a rearranged report has the same canonical bytes: renaming identifiers or reordering the entries of sets
/// changes no byte. The function does nothing.
pub fn same_form_when_rearranged()
    ensures law { SameFormWhenRearranged }
{}
