//! `round_trip`: reads one JSON value from standard input by `serde_json` and writes it again without blanks. It knows nothing
//! of ballots: `erd` is measured beside it. It ends without freeing the value, which no reader and writer has to do.
#![tactic(auto)]

use serde_json::Value;
use std::io::{Error, ErrorKind, Read, Write};
use std::process::ExitCode;
use std::{io, mem};

fn main(rt: HostRuntime) -> ExitCode {
    match copied(&rt) {
        Ok(()) => ExitCode::SUCCESS,
        Err(_) => ExitCode::FAILURE,
    }
}

// Reads all of standard input and writes the value that it is.
fn copied(rt: &HostRuntime) -> io::Result<()> {
    let mut bytes = Vec::new(rt.alloc());
    rt.stdin().read_to_end(&mut bytes)?;
    match Value::from_slice(rt.alloc(), &bytes) {
        Ok(tree) => {
            let text = tree.to_vec(rt.alloc())?;
            mem::forget(tree);
            rt.stdout().write_all(&text)
        }
        Err(_) => Err(Error::from(ErrorKind::InvalidData)),
    }
}
