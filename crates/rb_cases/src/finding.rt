use std::alloc::{AllocError, Global};

/// What is found in a file while it is read and run.
#[derive(Drop)]
pub struct Finding {
    /// The number of the line that is being read or run.
    pub line: usize,
    /// What differs from an entry that did not come out as it must. Before a run, what is to be printed before that.
    pub told: String,
}

impl Finding {
    pub fn new(alloc: Global) -> Finding {
        Finding {
            line: 1,
            told: String::new(alloc),
        }
    }

    /// Begins a run: `place` is what is told before a difference.
    pub fn begin(&mut self, line: usize, place: &str) -> Result<(), AllocError> {
        self.line = line;
        self.told.clear();
        self.told.push_str(place)
    }
}
