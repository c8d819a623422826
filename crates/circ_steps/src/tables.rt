//! The terms of a table by number.
ghost use Rattle.std.specs.Prelude.{◌≡◌, ◌<◌, List, length, map, take, IfOk, slice_index_or};
ghost use Rattle.std.specs.List.{AllByRecursion};
ghost use Rattle.circ_term.specs.Growing.{Grows};
ghost use Rattle.circ_term.specs.Tree.{Tree};
ghost use Rattle.circ_nodes.specs.Named.{IsNamed, tree_at};
ghost use Rattle.circ_table.specs.Line.{IsLine, numbers_in};

use circ_nodes::{Nodes, Numbers};
use circ_table::{Line, Table};
use circ_term::MOST_ARGS;
use std::alloc::{AllocError, Global};

// The most lines, so that each has a number that is a `u32`.
const MOST_LINES: usize = 4_294_967_295;

/// The numbers of a table's terms, in order. Costs a look-up for each line and for each argument in
/// it, however large the terms are.
pub fn table_numbers(
    alloc: Global,
    nodes: &mut Nodes,
    table: &Table,
) -> Result<Vec<u32>, AllocError>
    ensures grows { Grows nodes.old nodes.new }
    ensures there { IfOk result (λ v. AllByRecursion (λ n. n < length nodes.new) v.items) }
    ensures exact { IfOk result (λ v. map (tree_at nodes.new) v.items ≡ table.now) }
{
    let count = table.len();
    if count > MOST_LINES {
        return Err(AllocError);
    }
    let mut numbers = Vec::with_capacity(alloc, count)?;
    for number in 0..count as u32 {
        let line = table.line(number);
        let term = enter_line(alloc, nodes, numbers.as_slice(), line)?;
        numbers.push(term)?;
    }
    Ok(numbers)
}

// The number of a line's term, from the numbers of the lines before it.
fn enter_line(
    alloc: Global,
    nodes: &mut Nodes,
    numbers: &[u32],
    line: Line<'_>,
) -> Result<u32, AllocError>
    requires there { AllByRecursion (λ n. n < length nodes.old) numbers.now }
    requires before { AllByRecursion (λ n. n < length numbers.now) (numbers_in line) }
    ensures grows { Grows nodes.old nodes.new }
    ensures named { (table : List Tree) (t : Tree)
        → map (tree_at nodes.old) numbers.now ≡ take (length numbers.now) table
        → IsLine table line.entry t → IfOk result (λ n. IsNamed nodes.new n t) }
{
    match line {
        Line::Variable { number, sort } => nodes.variable(number, sort),
        Line::Application { op, sort, args } => {
            // A term has no more arguments, and is within the limits.
            if args.len() > MOST_ARGS {
                return Err(AllocError);
            }
            let args = numbers_at(alloc, numbers, args)?;
            match nodes.app(op, sort, args) {
                Ok(number) => Ok(number),
                Err(_) => Err(AllocError),
            }
        }
    }
}

// The numbers at these places.
fn numbers_at(alloc: Global, numbers: &[u32], places: &[u32]) -> Result<Numbers, AllocError>
    requires { AllByRecursion (λ n. n < length numbers.now) places.now }
    ensures { IfOk result (λ v. v.items ≡ map (λ n. slice_index_or numbers.now n 0) places.now) }
{
    let mut found = Numbers::new(alloc);
    for place in places {
        found.push(numbers[*place as usize])?;
    }
    Ok(found)
}
