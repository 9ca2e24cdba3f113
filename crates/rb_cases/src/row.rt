/// A command that is given, and the answers that are right.
#[derive(Clone, Copy)]
pub struct Row<'a> {
    /// The number of its line.
    pub line: usize,
    /// The number of the round.
    pub round: usize,
    pub command: &'a str,
    /// The right answers, with ` or ` between them if there are several.
    pub answers: &'a str,
}
