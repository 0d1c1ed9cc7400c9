//! An example of the call that lists what ballots print, a piece at a time.
use erd_canon::{Piece, words_piece};
use lower_uses::BALLOT;
use std::test::Fail;

// What ballots print of the candidate, in a list of its own.
const WORDS: &str =
    r#"[{"class":"ElectionResults.Candidate","key":["local-level","","K1"],"part":"candidate","words":{"BallotName":"Ann"}}]"#;

#[test]
fn words_as_data(rt: HostRuntime) -> Result<(), Fail> {
    let (alloc, one) = (rt.alloc(), BALLOT.as_bytes());
    let piece = Piece {
        first: 2,
        most: 1,
        enough_bytes: 1_048_576,
    };
    let answer = words_piece(alloc, one, Some("fips"), &piece)?;
    assert!(rt; answer.text.as_slice() == WORDS.as_bytes());
    assert!(rt; answer.told.count == 1 && answer.told.all == 4);
    Ok(())
}
