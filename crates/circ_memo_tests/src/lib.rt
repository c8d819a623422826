//! Tests of the indexes, the memo, rules with conditions and weights: calls that no command makes,
//! with ample memory, and work that only an index or a memo can end in time.
#![tactic(auto)]

#[cfg(test)]
mod conditions;
#[cfg(test)]
mod tests;
#[cfg(test)]
mod weighing;
