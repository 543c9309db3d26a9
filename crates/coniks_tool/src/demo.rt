//! The demonstration's index and seal.

pub(crate) mod index;
pub(crate) mod seal;
