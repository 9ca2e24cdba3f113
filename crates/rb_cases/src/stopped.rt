/// The run stops. Standard error says why.
#[derive(Clone, Copy)]
pub struct Stopped;
