//! The canonical form of a report, and the laws that hold for it. The rules are those of docs/PROFILE.md.
#![tactic(auto)]

mod laws;
mod objects;
mod report;
mod same_laws;
mod values;
mod writer;

pub use erd_text::{CompactText, SetOrder, in_order};
pub use laws::{
    canonical_form_exists, canonical_is_unique, names_agree, objects_agree, preferences_agree,
    rearranged_means_the_same, references_agree, saying_the_same_means_the_same,
};
pub use report::canonical_form::{normal_text, normal_tree};
pub use same_laws::{
    canonical_says_the_same, exchanged_says_the_same, meaning_the_same_says_the_same,
    rearranged_says_the_same, references_name_the_same, renamed_says_the_same, same_is_accepted,
    saying_and_meaning_agree, says_back, says_in_turn, says_itself,
};
