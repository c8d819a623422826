//! Tests of those calls of the libraries that the program does not make, so that no row shows them.
#![tactic(auto)]

#[cfg(test)]
mod tests;
