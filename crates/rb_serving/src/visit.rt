/// One client's visit: what it sends, what it is sent, and what may end its waits.
#[derive(Debug, Drop)]
pub struct Visit<I, O, G> {
    pub reader: I,
    pub writer: O,
    pub gate: G,
}
