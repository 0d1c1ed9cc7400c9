//! Laws about all steps. The functions do nothing.
ghost use Rattle.erd_prepare.specs.Laws.{NullsAreGone, UntoldIsUnchanged, UntoldStays};

/// The law that nothing changes but what is told. The function does nothing.
pub fn untold_stays()
    ensures law { UntoldStays }
{}

/// The law that a step that tells of nothing changed nothing. The function does nothing.
pub fn untold_is_unchanged()
    ensures law { UntoldIsUnchanged }
{}

/// The law that no null member is left. The function does nothing.
pub fn nulls_are_gone()
    ensures law { NullsAreGone }
{}
