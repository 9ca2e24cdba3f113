use crate::flaw::Flaw;

/// Sets a value that a case may give only once.
pub fn once<T: Copy>(place: &mut Option<T>, value: T) -> Result<(), Flaw> {
    if place.is_some() {
        return Err(Flaw::Twice);
    }
    *place = Some(value);
    Ok(())
}
