//! A short example of each public call of `erd_canon`, as a caller writes it. The doc comment of the call has the same lines,
//! where `assert_eq!` may stand for `assert!`. What several lines assert stands here in one condition, and what they assert of
//! `call()?` may be asked of the result, as `call() == Ok(..)`: the proof takes a third of the time.
mod ballots;
mod bytes;
mod data;
mod engines;
mod pieces;
mod prepare;
mod text_pieces;
mod words;
