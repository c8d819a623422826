//! Terms taken out of a table, each by one node.
ghost use Rattle.std.specs.Prelude.{◌+◌, ◌<◌, ◌≤◌, length, IfOk};
ghost use Rattle.circ_keeping.specs.Taken.{TakesNode, AreTaken};

use circ_nodes::{Nodes, Numbers, Shape};
use std::alloc::{AllocError, Global};

/// A term taken apart by one node, or nothing of a term that goes.
#[derive(Drop)]
pub(crate) enum Part {
    Nothing,
    Variable { number: u32, sort: u32 },
    Application { op: u32, sort: u32, args: Numbers },
}

/// The marked ones of the terms from number `count` on, each at its place.
pub(crate) fn marked_parts(
    alloc: Global,
    nodes: &Nodes,
    count: usize,
    marks: &[bool],
) -> Result<Vec<Part>, AllocError>
    requires { count + length marks.now ≤ length nodes.now }
    ensures { IfOk result (λ v. AreTaken nodes.now count marks.now v.items) }
{
    nodes.known();
    let mut parts = Vec::with_capacity(alloc, marks.len())?;
    for place in 0..marks.len() {
        let part = part_at(alloc, nodes, (count + place) as u32, marks[place])?;
        parts.push(part)?;
    }
    Ok(parts)
}

// The term of a number, if it is kept.
fn part_at(alloc: Global, nodes: &Nodes, number: u32, is_kept: bool) -> Result<Part, AllocError>
    requires { number < length nodes.now }
    ensures { IfOk result (TakesNode nodes.now number is_kept) }
{
    if !is_kept {
        return Ok(Part::Nothing);
    }
    match nodes.shape(number) {
        Shape::Variable { number, sort } => Ok(Part::Variable { number, sort }),
        Shape::Application { op, sort, args } => {
            let args = Numbers::from_slice(alloc, args)?;
            Ok(Part::Application { op, sort, args })
        }
    }
}
