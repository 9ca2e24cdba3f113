use crate::flaw::Flaw;
use crate::numbers::number;

/// Returns the counter after `steps`, one after the other: `65` or `+65` adds, `*5` multiplies, and
/// `%7` leaves the remainder.
pub fn counted(counter: usize, steps: &str) -> Result<usize, Flaw> {
    let mut sum = counter;
    for step in steps.split_whitespace() {
        sum = stepped(sum, step)?;
    }
    Ok(sum)
}

fn stepped(sum: usize, step: &str) -> Result<usize, Flaw> {
    let (sign, digits) = step.split_at_checked(1).unwrap_or(("", step));
    let stepped = match sign {
        "*" => sum.checked_mul(number(digits)?),
        "%" => sum.checked_rem(number(digits)?),
        "+" => sum.checked_add(number(digits)?),
        _ => sum.checked_add(number(step)?),
    };
    stepped.ok_or(Flaw::Number)
}
