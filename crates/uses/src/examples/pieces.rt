//! Examples of the calls that answer with a piece of a list.
use erd_canon::{
    Piece, canonical_data_piece, check_data_piece, compare_data_piece, differences_data_piece,
    differences_values_piece,
};
use lower_uses::{BARE, OTHER_NAME, REPORT};
use std::test::Fail;

#[test]
fn second_fault(rt: HostRuntime) -> Result<(), Fail> {
    let alloc = rt.alloc();
    let piece = Piece {
        first: 1,
        most: 1_000,
        enough_bytes: 1_048_576,
    };
    let answer = check_data_piece(alloc, BARE.as_bytes(), None, &piece)?;
    let fault = r#"[{"name":"Status","place":[],"reason":2}]"#;
    assert!(rt;
        answer.text.as_slice() == fault.as_bytes() && answer.told.count == 1 && answer.told.all == 2
    );
    Ok(())
}

#[test]
fn no_form(rt: HostRuntime) -> Result<(), Fail> {
    let alloc = rt.alloc();
    let piece = Piece {
        first: 0,
        most: 1_000,
        enough_bytes: 1_048_576,
    };
    let answer = canonical_data_piece(alloc, "{".as_bytes(), None, &piece)?;
    assert!(rt; answer.text.as_slice() == "\"not JSON\"".as_bytes());
    Ok(())
}

#[test]
fn first_fault_of_a_side(rt: HostRuntime) -> Result<(), Fail> {
    let (alloc, one) = (rt.alloc(), REPORT.as_bytes());
    let piece = Piece {
        first: 0,
        most: 1,
        enough_bytes: 1_048_576,
    };
    let answer = compare_data_piece(alloc, BARE.as_bytes(), one, None, &piece)?;
    let why = r#"{"faults":[{"name":"Election","place":[],"reason":2}],"refused":"left"}"#;
    assert!(rt;
        answer.text.as_slice() == why.as_bytes() && answer.told.count == 1 && answer.told.all == 2
    );
    Ok(())
}

#[test]
fn no_second_difference(rt: HostRuntime) -> Result<(), Fail> {
    let (alloc, one, other) = (rt.alloc(), REPORT.as_bytes(), OTHER_NAME.as_bytes());
    let piece = Piece {
        first: 1,
        most: 1_000,
        enough_bytes: 1_048_576,
    };
    let answer = differences_data_piece(alloc, one, other, None, &piece)?;
    assert!(rt;
        answer.text.as_slice() == "[]".as_bytes()
            && answer.outcome.status() == 1
            && answer.told.all == 1
    );
    Ok(())
}

// The only difference of the two reports, with what each of them has there.
const NAMES: &str =
    r#"[{"how":"member","key":null,"member":"Name","part":"election","values":{"left":"Test","right":"Other"}}]"#;

#[test]
fn values_of_the_only_difference(rt: HostRuntime) -> Result<(), Fail> {
    let (alloc, one, other) = (rt.alloc(), REPORT.as_bytes(), OTHER_NAME.as_bytes());
    let piece = Piece {
        first: 0,
        most: 1_000,
        enough_bytes: 1_048_576,
    };
    let answer = differences_values_piece(alloc, one, other, None, &piece)?;
    assert!(rt; answer.text.as_slice() == NAMES.as_bytes());
    Ok(())
}
