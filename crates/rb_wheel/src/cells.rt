ghost use Rattle.std.specs.Prelude.{◌≡◌, ◌+◌, ◌<◌, ◌≤◌};
ghost use Rattle.rb_wheel.specs.Cells.{IsCellOf};

/// How many digits a moment has in base 64. Each has a level of the wheel, the lowest digit first.
pub(crate) const LEVELS: usize = 11;
/// How many values a digit has. Each has a cell on the digit's level.
pub(crate) const DIGITS: usize = 64;
/// How many cells there are. A digit's cell on a level is `level * DIGITS + digit`.
pub(crate) const CELLS: usize = LEVELS * DIGITS;

const DIGIT_BITS: u32 = 6;

/// The cell of an expiry: the highest level on which its digit differs from that of the base (the
/// lowest if none does), and its digit there.
pub(crate) fn cell_of(base: u64, expiry: u64) -> usize
    ensures in_wheel { result < CELLS }
    ensures cell { IsCellOf base expiry result }
{
    let level = match (base ^ expiry).checked_ilog2() {
        Some(highest_bit) => highest_bit / DIGIT_BITS,
        None => 0,
    };
    let digit = (expiry >> (DIGIT_BITS * level)) % DIGITS as u64;
    level as usize * DIGITS + digit as usize
}
