use crate::flaw::Flaw;

/// The number that a word of decimal digits spells.
pub fn number(word: &str) -> Result<usize, Flaw> {
    match word.parse::<usize>() {
        Ok(number) if !word.starts_with('+') => Ok(number),
        _ => Err(Flaw::Number),
    }
}
