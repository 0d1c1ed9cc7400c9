/// How the entries of a list are written.
#[derive(Clone, Copy)]
pub(crate) enum Notation<'a> {
    /// As JSON values, with commas between them.
    Json,
    /// As lines, each with these words in front and one line feed at its end.
    Lines(&'a str),
}
