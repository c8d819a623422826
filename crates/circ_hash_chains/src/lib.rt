//! Numbers 0, 1, 2 and so on, each with a key, and found by their keys.
//!
//! [`HashChains`] is seen as the list of the keys. Who keeps things in a row keeps their hashes
//! here, and finds a thing by going through the numbers that have its hash, the last first. The hash
//! of a thing that is there is read by its number.
#![tactic(auto)]

mod hash_chains;

pub use hash_chains::HashChains;
