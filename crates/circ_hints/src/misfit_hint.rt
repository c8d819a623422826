//! The hint for an experiment that does not fit a goal.
use crate::run_words::Asked;
use crate::texts::written;
use std::alloc::{AllocError, Global};
use std::fmt::Write;

/// The number of the word that is the goal of `expand`; its entries follow.
const GOAL_WORD: usize = 3;

/// What does not fit, by the number of the answer: 0 for a goal that the proof lacks, else that of
/// an entry, or of the one behind the last.
pub fn misfit(alloc: Global, asked: Asked<'_>, entry: u64) -> Result<String, AllocError> {
    let mut out = String::new(alloc);
    let done = push_misfit(&mut out, asked, entry);
    written(out, done)
}

fn push_misfit(out: &mut String, asked: Asked<'_>, entry: u64) -> Result<(), AllocError> {
    if entry == 0 {
        return out.push_str(
            "circ: the proof has no such goal: `check` prints its goals, from 1 on\n",
        );
    }
    if asked.has_at_least(GOAL_WORD.saturating_add(entry as usize)) {
        return writeln!(
            out,
            "circ: entry {entry} is no derivative of what is reached: `show` has all, from 0 on"
        );
    }
    out.push_str("circ: what is reached is of a hidden sort: one entry more is needed\n")
}
