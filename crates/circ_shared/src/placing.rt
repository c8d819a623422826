//! A term put in place of a subterm.
ghost use Rattle.std.specs.Prelude.{◌<◌, length};
ghost use Rattle.circ_term.specs.Tree.{replaced};
ghost use Rattle.circ_term.specs.Growing.{Grows};
ghost use Rattle.circ_nodes.specs.Named.{InternsSome, tree_at};

use circ_nodes::Nodes;
use circ_term::TermFault;

/// The number of the term of a number with another term in place of the subterm at a path. None
/// where the path leaves the term. Costs, for each step of the path, as much as there are
/// arguments.
pub fn replace(
    nodes: &mut Nodes,
    number: u32,
    path: &[u16],
    new: u32,
) -> Result<Option<u32>, TermFault>
    requires number { number < length nodes.old }
    requires new { new < length nodes.old }
    ensures grows { Grows nodes.old nodes.new }
    ensures interns { InternsSome nodes.new result
        (replaced (tree_at nodes.old number) path.now (tree_at nodes.old new)) }
{
    let Some((place, rest)) = path.split_first() else {
        nodes.known_at(new);
        return Ok(Some(new));
    };
    let place = *place as usize;
    let Some(arg) = nodes.arg(number, place) else {
        return Ok(None);
    };
    nodes.known_at(number);
    match replace(nodes, arg, rest, new) {
        Err(fault) => Err(fault),
        Ok(None) => Ok(None),
        Ok(Some(made)) => nodes.with_argument(number, place, made),
    }
}
