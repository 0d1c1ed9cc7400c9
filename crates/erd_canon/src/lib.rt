//! The calls that take the bytes of reports: they check a report, return its canonical bytes, or compare two reports. Others
//! answer a check or a comparison as JSON. The engines do the same from readers to writers. The command line of the program that
//! calls the engines is here too. The rules are those of docs/PROFILE.md.
#![tactic(auto)]

mod bytes;
mod commands;
mod data;
mod devices;
mod engines;

pub use bytes::acceptance::{check_bytes, check_bytes_with};
pub use bytes::canonical::{canonical, canonical_with};
pub use bytes::comparison::{compare_bytes, compare_bytes_with};
pub use bytes::disposal::{Disposal, Free};
pub use bytes::laws::{is_its_own_form, one_form_for_one_meaning, same_form_when_rearranged};
pub use bytes::refusal::{Refusal, Side};
pub use commands::prefer::Prefer;
pub use commands::request::{FileName, LineFault, Request};
pub use commands::steps::Steps;
pub use commands::words::command_line;
pub use data::ballot_pairs::{ballot_differences_data_with, ballots_beside_data_with};
pub use data::ballots::{BallotsAsked, ballots_data_with};
pub use data::check::{Answer, check_data_with};
pub use data::compare::{compare_data_with, differences_data_with};
pub use data::laws::{pieces_are_the_list, pieces_are_the_text, pieces_go_on};
pub use data::line::{LineAnswer, command_line_data};
pub use data::piece::{Piece, PieceAnswer, Told};
pub use data::pieces::{
    canonical_data_piece, check_data_piece, compare_data_piece, differences_data_piece,
};
pub use data::texts::{
    canonical_text_piece, check_text_piece, compare_text_piece, differences_text_piece,
};
pub use data::valued_pieces::differences_values_piece;
pub use data::word_pieces::words_piece;
pub use devices::log::Log;
pub use devices::read_from::ReadFrom;
pub use devices::sink::{Sink, write_out};
pub use devices::source::{Failed, MOST_BYTES, Source};
pub use devices::write_to::WriteTo;
pub use engines::asked::{PairCommand, ReportCommand, run_pair, run_report};
pub use engines::comparison_runs::{run_compare, run_compare_disposing, run_compare_with};
pub use engines::outcome::{Outcome, RunFault};
pub use engines::prepare::{run_prepare, run_prepare_list, run_prepare_report, steps_asked};
pub use engines::runs::{
    run_canon, run_canon_disposing, run_canon_with, run_check, run_check_disposing, run_check_with,
};
