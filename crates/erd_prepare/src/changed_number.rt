//! A number whose text reading changes.

/// A number of a file that is written otherwise once it is read.
#[derive(Drop)]
pub struct ChangedNumber {
    /// The line on which it stands, counted from 1. A line ends by a line feed.
    pub line: usize,
    /// The column at which it begins, counted from 1 in bytes.
    pub column: usize,
    /// Its text in the file.
    pub before: String,
    /// The text that it gets.
    pub after: String,
}
