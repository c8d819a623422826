//! A table of terms that is kept small while links are followed.
ghost use Rattle.std.specs.Prelude.{◌<◌, ◌≤◌, length, take, IfOk};
ghost use Rattle.circ_term.specs.Growing.{Grows};
ghost use Rattle.circ_nodes.specs.Named.{IsNamed, tree_at};

use circ_keeping::keep;
use circ_nodes::Nodes;
use std::alloc::{AllocError, Global};

// How many terms may be added to few.
const SPARE: usize = 4_096;

/// How many terms there may be before any go: twice as many as there are, and some thousands.
pub(crate) fn room_for(nodes: &Nodes) -> usize {
    nodes.known();
    2 * nodes.len() + SPARE
}

/// Where there are more terms than there is room for, those from number `count` on go that are no
/// part of one term. The number that the term has then.
pub(crate) fn lightened(
    alloc: Global,
    nodes: &mut Nodes,
    count: usize,
    room: &mut usize,
    number: u32,
) -> Result<u32, AllocError>
    requires within { count ≤ length nodes.old }
    requires there { number < length nodes.old }
    ensures grows { Grows (take count nodes.old) nodes.new }
    ensures named { IfOk result (λ n. IsNamed nodes.new n (tree_at nodes.old number)) }
{
    if nodes.len() <= *room {
        return Ok(number);
    }
    let next = keep(alloc, nodes, count, number)?;
    *room = room_for(nodes);
    Ok(next)
}
