ghost use Rattle.erd_normal.specs.Words.{CanonicalSaysTheSame, MeaningTheSameSaysTheSame, SayingAndMeaningAgree, ExchangedSaysTheSame, RearrangedSaysTheSame};
ghost use Rattle.erd_normal.specs.Words.{ReferencesNameTheSame, RenamedSaysTheSame, SameIsAccepted, SaysBack, SaysInTurn, SaysItself};

/// The law that each report says what it says. The function does nothing.
pub fn says_itself()
    ensures law { SaysItself }
{}

/// The law that a report is said the same by each report that says the same. The function does nothing.
pub fn says_back()
    ensures law { SaysBack }
{}

/// The law that what says the same as a report that says the same says the same. The function does nothing.
pub fn says_in_turn()
    ensures law { SaysInTurn }
{}

/// The law that a report with two entries of a set exchanged says the same. The function does nothing.
pub fn exchanged_says_the_same()
    ensures law { ExchangedSaysTheSame }
{}

/// The law that an accepted report says the same after its `@id` texts are renamed consistently. The function does nothing.
pub fn renamed_says_the_same()
    ensures law { RenamedSaysTheSame }
{}

/// The law that each rearrangement of an accepted report says the same: any number of renamings and exchanges. The function
/// does nothing.
pub fn rearranged_says_the_same()
    ensures law { RearrangedSaysTheSame }
{}

/// The law that, in two reports that say the same, references that stand for one another name objects with one key. The
/// function does nothing.
pub fn references_name_the_same()
    ensures law { ReferencesNameTheSame }
{}

/// The law that a tree that says the same as an accepted report is accepted, if its envelope has no fault of shape and no two
/// of its objects have one `@id`. The function does nothing.
pub fn same_is_accepted()
    ensures law { SameIsAccepted }
{}

/// The law that the canonical form of an accepted report as calls take it (`IsGiven`) says the same as the report. The
/// function does nothing.
pub fn canonical_says_the_same()
    ensures law { CanonicalSaysTheSame }
{}

/// The law that two accepted reports say the same if they mean the same. The function does nothing.
pub fn meaning_the_same_says_the_same()
    ensures law { MeaningTheSameSaysTheSame }
{}

/// The law that two accepted reports mean the same if and only if they say the same. The function does nothing.
pub fn saying_and_meaning_agree()
    ensures law { SayingAndMeaningAgree }
{}
