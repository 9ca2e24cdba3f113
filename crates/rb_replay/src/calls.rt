//! The checks of a history, and the opening that it leads to.
pub(crate) mod chains;
pub(crate) mod check;
pub(crate) mod opening_of;
