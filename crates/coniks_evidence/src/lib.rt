//! Evidence against a key directory that showed the owner of a name and somebody else different keys at one epoch.
//!
//! [`examine`] takes what both have stored: the epochs, and one saved reply each. It returns two different byte strings with one
//! hash, or two VRF proofs of the name with different indices, if the records contain such. By the owner law of `coniks_client`
//! they do, if both records are sound and the keys differ. Nothing is allocated: a string is returned as the parts that it is
//! made of, and [`Preimage::write`] writes it into a buffer.
#![tactic(auto)]

pub mod examining;
pub mod findings;
mod forks;
pub mod laws;
mod parting;
mod paths;
pub mod preimages;
pub mod records;
mod replies;

pub use examining::examine;
pub use findings::{Finding, Indexed, Reason};
pub use preimages::{Colliding, MAX_PREIMAGE, Preimage};
pub use records::{ContactRecord, OwnerRecord};
pub use replies::ReplyVerifier;

#[cfg(test)]
mod tests;
