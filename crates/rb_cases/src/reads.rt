/// The greatest number of bytes of a script that the first read gives, and that each later read
/// gives.
#[derive(Clone, Copy)]
pub struct Reads {
    pub first: usize,
    pub later: usize,
}

impl Reads {
    /// Makes each read give at most `size` bytes.
    pub fn of_size(size: usize) -> Reads {
        Reads {
            first: size,
            later: size,
        }
    }

    /// Cuts the script in two after its first `first` bytes.
    pub fn cut_behind(first: usize) -> Reads {
        Reads {
            first,
            later: usize::MAX,
        }
    }
}
