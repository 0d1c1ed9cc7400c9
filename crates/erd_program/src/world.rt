/// What a program has of the outside.
#[derive(Drop)]
pub struct World<F, I, O, E> {
    /// The files that it may open.
    pub files: F,
    /// Standard input.
    pub input: I,
    /// Standard output.
    pub out: O,
    /// Standard error.
    pub err: E,
}
