ghost use Rattle.std.specs.Prelude.{◌≡◌, ◌↔◌, ℕ, ◌^◌, ◌<◌, ◌≤◌, length, slice_index, IsTrue, IfSome, IfNone};
ghost use Rattle.std.specs.Str.Parse.{AllDigits, digits_value};
ghost use Rattle.rb_protocol.specs.Number.{IsNumber};

// The digit zero. A number that begins with it has no other digit.
const ZERO: u8 = b'0';

/// Reads a number as a line spells it: `0`, or up to 20 digits that do not begin with `0`, at most
/// 2^64 - 1. `None` exactly if the word is not such a number. It takes no memory.
pub fn read_number(word: &[u8]) -> Option<u64>
    ensures some { IfSome result (IsNumber word.now) }
    ensures none { IfNone result ((number : ℕ) → IsNumber word.now number → ⊥) }
{
    if word.is_empty() || has_leading_zero(word) {
        return None;
    }
    digits_value(word)
}

// Whether the word begins with a zero and has more bytes.
fn has_leading_zero(word: &[u8]) -> bool
    ensures { IsTrue result ↔ ((slice_index word.now 0 ≡ ZERO) × (1 < length word.now)) }
{
    matches!(word, [ZERO, _, ..])
}

// The value of decimal digits. `None` exactly if a byte is not a digit, or the value passes
// 2^64 - 1.
fn digits_value(digits: &[u8]) -> Option<u64>
    ensures digits { IfSome result (λ _. AllDigits 10 digits.now) }
    ensures value { IfSome result (λ value. value ≡ digits_value 10 digits.now) }
    ensures none { IfNone result (AllDigits 10 digits.now → 2 ^ 64 ≤ digits_value 10 digits.now) }
{
    let mut value: u64 = 0;
    for &byte in digits {
        if !byte.is_ascii_digit() {
            return None;
        }
        value = value.checked_mul(10)?.checked_add(u64::from(byte - ZERO))?;
    }
    Some(value)
}
