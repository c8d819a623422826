//! Marks on the terms from a number on, each at its place: 0 for the first of them.
ghost use Rattle.std.specs.Prelude.{◌≡◌, ℕ, ◌+◌, ◌<◌, ◌≤◌, length, Some, IfOk};
ghost use Rattle.std.specs.List.{slice_get, AllByRecursion};
ghost use Rattle.circ_keeping.specs.Marks.{HasMark, SetsMarks, IsArgument, MarkParts};

use circ_nodes::{Nodes, Shape};
use std::alloc::{AllocError, Global};

/// Marks for the terms from number `count` on up to `number`: set at the parts of the last.
pub(crate) fn part_marks(
    alloc: Global,
    nodes: &Nodes,
    count: usize,
    number: u32,
) -> Result<Vec<bool>, AllocError>
    requires from { count ≤ number }
    requires there { number < length nodes.now }
    ensures { IfOk result (λ v. MarkParts nodes.now count number 0 v.items) }
{
    let mut place = number as usize + 1 - count;
    let mut marks = vec![in alloc; false; place]?;
    marks[place - 1] = true;
    while place > 0 {
        place -= 1;
        mark_arguments(nodes, count, place, &mut marks);
    }
    Ok(marks)
}

// Where the term at a place is marked, its arguments are marked too.
fn mark_arguments(nodes: &Nodes, count: usize, place: usize, marks: &mut [bool])
    requires there { count + place < length nodes.now }
    requires within { place < length marks.old }
    ensures set { SetsMarks (λ i. HasMark marks.old place
        × IsArgument nodes.now (count + i) (count + place)) marks.old marks.new }
    ensures lower { HasMark marks.old place
        → (j : ℕ) → IsArgument nodes.now (count + j) (count + place) → j < place }
{
    if !marks[place] {
        return;
    }
    nodes.known();
    match nodes.shape((count + place) as u32) {
        Shape::Variable { .. } => {}
        Shape::Application { args, .. } => mark_all(count, args, marks),
    }
}

// The terms of these numbers are marked, where they stand from number `count` on.
fn mark_all(count: usize, numbers: &[u32], marks: &mut [bool])
    requires { AllByRecursion (λ m. m < count + length marks.old) numbers.now }
    ensures { SetsMarks (λ i. (k : ℕ) × (slice_get numbers.now k ≡ Some (count + i)))
        marks.old marks.new }
{
    for number in numbers {
        mark(count, *number, marks);
    }
}

// The term of a number is marked, where it stands from number `count` on.
fn mark(count: usize, number: u32, marks: &mut [bool])
    requires { number < count + length marks.old }
    ensures { SetsMarks (λ i. number ≡ count + i) marks.old marks.new }
{
    let number = number as usize;
    if number < count {
        return;
    }
    marks[number - count] = true;
}
