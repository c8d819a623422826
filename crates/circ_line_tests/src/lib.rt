//! Tests of circ_line: no clause says that its calls do not run out of memory if there is enough.
#![tactic(auto)]

#[cfg(test)]
mod tests;
