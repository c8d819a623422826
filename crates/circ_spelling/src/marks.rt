//! Marks on sorts, by the sorts' numbers. A sort beyond the list counts as marked.
ghost use Rattle.std.specs.Prelude.{◌↔◌, length, IsTrue};
ghost use Rattle.circ_spelling.specs.Usable.{IsMarked, StayMarked, VariablesMarked};

use crate::grammar::{Rule, Variable};

// Sorts from here on are not told apart: each counts as marked.
const MOST_MARKS: usize = 65536;

// How many sorts are told apart: those up to the greatest of a rule.
pub fn width(rules: &[Rule]) -> usize {
    let mut most = 0;
    for rule in rules {
        most = most.max(rule.sort);
    }
    (most as usize + 1).min(MOST_MARKS)
}

/// Marks the sort, if it is told apart.
pub fn mark(marks: &mut Vec<bool>, sort: u32)
    ensures here { IsMarked marks.new.items sort }
    ensures stay { StayMarked marks.old.items marks.new.items }
{
    let place = sort as usize;
    if place < marks.len() {
        marks[place] = true;
    }
}

/// Whether the sort is marked.
pub fn is_marked(marks: &[bool], sort: u32) -> bool
    ensures { IsTrue result ↔ IsMarked marks.now sort }
{
    match marks.get(sort as usize) {
        Some(mark) => *mark,
        None => true,
    }
}

/// Marks the sorts of the variables.
pub fn mark_variables(marks: &mut Vec<bool>, variables: &[Variable])
    ensures { VariablesMarked variables.now (length variables.now) marks.new.items }
{
    for variable in variables {
        mark(marks, variable.sort);
    }
}
