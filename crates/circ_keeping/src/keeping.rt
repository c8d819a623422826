//! Terms that are entered again where others are gone.
ghost use Rattle.std.specs.Prelude.{◌≡◌, ◌+◌, ◌<◌, ◌≤◌, ℕ, length, map, take, IfOk, OnOk};
ghost use Rattle.std.specs.List.{AllByRecursion};
ghost use Rattle.circ_term.specs.Tree.{Tree};
ghost use Rattle.circ_term.specs.Growing.{Grows};
ghost use Rattle.circ_nodes.specs.Named.{IsNamed, AddsOnly, IsPart, tree_at};
ghost use Rattle.circ_keeping.specs.Moved.{moved_number, Becomes, MayBecome};

use crate::marking::part_marks;
use crate::taking::{Part, marked_parts};
use circ_nodes::{Nodes, Numbers};
use std::alloc::{AllocError, Global};

/// Of the terms from number `count` on, keeps the parts of one term alone, and gives the number that
/// it has then. Costs as much as there are terms from `count` on. After want of memory the term may
/// be gone.
pub fn keep(alloc: Global, nodes: &mut Nodes, count: usize, number: u32) -> Result<u32, AllocError>
    requires within { count ≤ length nodes.old }
    requires there { number < length nodes.old }
    ensures grows { Grows (take count nodes.old) nodes.new }
    ensures named { IfOk result (λ n. IsNamed nodes.new n (tree_at nodes.old number)) }
    ensures alone { OnOk result (AddsOnly (IsPart (tree_at nodes.old number))
        (take count nodes.old) nodes.new) }
    ensures fewer { length nodes.new ≤ length nodes.old }
{
    if (number as usize) < count {
        nodes.cut(count);
        return Ok(number);
    }
    let marks = part_marks(alloc, nodes, count, number)?;
    let parts = marked_parts(alloc, nodes, count, marks.as_slice())?;
    let mut moved = Vec::with_capacity(alloc, parts.len())?;
    nodes.cut(count);
    for part in &parts {
        let next = enter(alloc, nodes, count, moved.as_slice(), part)?;
        moved.push(next)?;
    }
    Ok(moved[number as usize - count])
}

// The number of a term that was taken out, where its arguments have these new numbers.
fn enter(
    alloc: Global,
    nodes: &mut Nodes,
    count: usize,
    moved: &[u32],
    part: &Part,
) -> Result<u32, AllocError>
    requires { MayBecome nodes.old count moved.now part.now }
    ensures grows { Grows nodes.old nodes.new }
    ensures adds { AddsOnly (Becomes nodes.old count moved.now part.now) nodes.old nodes.new }
    ensures one { length nodes.new ≤ length nodes.old + 1 }
    ensures named { (t : Tree) → Becomes nodes.old count moved.now part.now t
        → IfOk result (λ n. IsNamed nodes.new n t) }
{
    match part {
        Part::Nothing => Ok(0),
        Part::Variable { number, sort } => nodes.variable(*number, *sort),
        Part::Application { op, sort, args } => {
            let args = moved_numbers(alloc, count, moved, args.as_slice())?;
            // The term was there, so that it is within the limits.
            match nodes.app(*op, *sort, args) {
                Ok(number) => Ok(number),
                Err(_) => Err(AllocError),
            }
        }
    }
}

// The new numbers of terms.
fn moved_numbers(
    alloc: Global,
    count: usize,
    moved: &[u32],
    numbers: &[u32],
) -> Result<Numbers, AllocError>
    requires { AllByRecursion (λ m. m < count + length moved.now) numbers.now }
    ensures { IfOk result (λ v. v.items ≡ map (moved_number count moved.now) numbers.now) }
{
    let mut next = Numbers::with_capacity(alloc, numbers.len())?;
    for number in numbers {
        next.push(moved_of(count, moved, *number))?;
    }
    Ok(next)
}

// The new number of a term: its own, where it stands below the terms that were taken out.
fn moved_of(count: usize, moved: &[u32], number: u32) -> u32
    requires { number < count + length moved.now }
    ensures { result ≡ moved_number count moved.now number }
{
    if (number as usize) < count {
        return number;
    }
    moved[number as usize - count]
}
