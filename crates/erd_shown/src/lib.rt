//! What members and objects mean, written as JSON with keys in place of references, and the lines of two ballots beside each
//! other.
#![tactic(auto)]

mod ballot_differences;
mod ballot_lines;
mod ballots;
mod ballots_beside;
mod beside;
mod beside_texts;
mod contests_and_headers;
mod counts;
mod differing_lines;
mod differing_selections;
mod differing_styles;
mod differing_voters;
mod heads;
mod keys;
mod laws;
mod lines;
mod listed;
mod lookups;
mod marks;
mod members;
mod named;
mod names;
mod numbered_things;
mod objects;
mod pairs;
mod partners;
mod references;
mod reworded;
mod reworded_lines;
mod row_texts;
mod rows;
mod selection_rows;
mod selection_words;
mod selections;
mod side_values;
mod texts;
mod values;
mod word_list;
mod words;

pub use ballot_differences::{BallotDifference, differing_ballots};
pub use ballot_lines::ballots_lines;
pub use ballots::ballot_text;
pub use ballots_beside::write_ballots_beside;
pub use beside::rows_between;
pub use beside_texts::ballots_beside_text;
pub use differing_styles::{ballot_differences_lines, ballot_differences_text};
pub use heads::ballots_text;
pub use laws::{
    ballots_tell, lines_tell, meanings_tell, members_tell, objects_tell, same_ballots_tell,
    styles_tell,
};
pub use objects::write_object;
pub use partners::{occurrences, partners_of};
pub use rows::{Row, rows_of};
pub use side_values::{contest_with_key, selection_value_text, side_value_text};
pub use word_list::{WordedObject, worded_objects, worded_text};
