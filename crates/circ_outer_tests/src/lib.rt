//! Tests of circ_outer: the calls of its objects, which a row of a program cannot make one by one.
#![tactic(auto)]

#[cfg(test)]
mod refusing;
#[cfg(test)]
mod storing;
#[cfg(test)]
mod tests;
