//! Examples of the calls that answer with a piece of a list as lines.
use erd_canon::{
    Piece, canonical_text_piece, check_text_piece, compare_text_piece, differences_text_piece,
};
use lower_uses::{BARE, OTHER_NAME, REPORT};
use std::test::Fail;

#[test]
fn line_of_the_second_fault(rt: HostRuntime) -> Result<(), Fail> {
    let alloc = rt.alloc();
    let piece = Piece {
        first: 1,
        most: 1_000,
        enough_bytes: 1_048_576,
    };
    let answer = check_text_piece(alloc, BARE.as_bytes(), None, &piece)?;
    assert!(rt;
        answer.text.as_slice() == ": missing member Status\n".as_bytes()
            && answer.told.count == 1
            && answer.told.all == 2
    );
    Ok(())
}

#[test]
fn line_in_place_of_a_form(rt: HostRuntime) -> Result<(), Fail> {
    let alloc = rt.alloc();
    let piece = Piece {
        first: 0,
        most: 1_000,
        enough_bytes: 1_048_576,
    };
    let answer = canonical_text_piece(alloc, "{".as_bytes(), None, &piece)?;
    assert!(rt; answer.text.as_slice() == "not JSON\n".as_bytes());
    Ok(())
}

#[test]
fn line_of_the_first_fault_of_a_side(rt: HostRuntime) -> Result<(), Fail> {
    let (alloc, one) = (rt.alloc(), REPORT.as_bytes());
    let piece = Piece {
        first: 0,
        most: 1,
        enough_bytes: 1_048_576,
    };
    let answer = compare_text_piece(alloc, BARE.as_bytes(), one, None, &piece)?;
    assert!(rt;
        answer.text.as_slice() == "left: : missing member Election\n".as_bytes()
            && answer.told.count == 1
            && answer.told.all == 2
    );
    Ok(())
}

#[test]
fn line_of_the_only_difference(rt: HostRuntime) -> Result<(), Fail> {
    let (alloc, one, other) = (rt.alloc(), REPORT.as_bytes(), OTHER_NAME.as_bytes());
    let piece = Piece {
        first: 0,
        most: 1_000,
        enough_bytes: 1_048_576,
    };
    let answer = differences_text_piece(alloc, one, other, None, &piece)?;
    assert!(rt;
        answer.text.as_slice() == "election: member \"Name\"\n".as_bytes()
            && answer.outcome.status() == 1
            && answer.told.all == 1
    );
    Ok(())
}
