ghost use Rattle.erd_normal.specs.Words.{NamesAgree, ReferencesAgree, ObjectsAgree, CanonicalFormExists, CanonicalIsUnique};
ghost use Rattle.erd_normal.specs.Words.{PreferencesAgree, RearrangedMeansTheSame, SayingTheSameMeansTheSame};

/// The law that two canonical reports with the same meaning have the same keys, selection names and `@id` texts, in the same
/// order. The function does nothing.
pub fn names_agree()
    ensures law { NamesAgree }
{}

/// The law that, in two canonical reports with the same meaning, references, sets of references and ballot contents are
/// equal if they mean the same. The function does nothing.
pub fn references_agree()
    ensures law { ReferencesAgree }
{}

/// The law that, in two canonical reports with the same meaning, objects with equal records and equal `@id` texts are equal.
/// The function does nothing.
pub fn objects_agree()
    ensures law { ObjectsAgree }
{}

/// The law that a canonical form exists: under every preference, each accepted report as calls take it (`IsGiven`) has one.
/// The function does nothing.
pub fn canonical_form_exists()
    ensures law { CanonicalFormExists }
{}

/// The law that two canonical reports with the same meaning are equal. The function does nothing.
pub fn canonical_is_unique()
    ensures law { CanonicalIsUnique }
{}

/// The law that two reports, both accepted under each of two preferences, mean the same under one preference if and only if
/// they mean the same under the other. It does not say that a report accepted under one preference is accepted under the
/// other. The function does nothing.
pub fn preferences_agree()
    ensures law { PreferencesAgree }
{}

/// The law that an accepted report is still accepted, and keeps its meaning, after its `@id` texts are renamed consistently
/// and the entries of its sets are reordered. The function does nothing.
pub fn rearranged_means_the_same()
    ensures law { RearrangedMeansTheSame }
{}

/// The law that a report means the same as an accepted one if it says the same: that is, if it is the other one but for its
/// `@id` texts, the order of the entries of its sets, members that may be absent, and its envelope. The function does nothing.
pub fn saying_the_same_means_the_same()
    ensures law { SayingTheSameMeansTheSame }
{}
