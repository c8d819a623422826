//! Special paths in interned terms.
ghost use Rattle.std.specs.Prelude.{◌≡◌, ◌<◌, ◌↔◌, IsTrue, length};
ghost use Rattle.circ_nodes.specs.Named.{tree_at};
ghost use Rattle.circ_special.specs.Special.{IsSpecial};
ghost use Rattle.circ_shared.specs.Special.{StepsTo};

use circ_nodes::{Nodes, Shape};
use circ_special::Gamma;

// Whether a path in the term of a number is special.
pub(crate) fn is_special(nodes: &Nodes, gamma: &Gamma, term: u32, path: &[u16]) -> bool
    requires { term < length nodes.now }
    ensures { IsTrue result ↔ IsSpecial gamma.now (tree_at nodes.now term) path.now }
{
    let mut here = term;
    for place in path {
        match below(nodes, gamma, here, *place) {
            Some(arg) => here = arg,
            None => return false,
        }
    }
    true
}

// The argument of the term at a place of the set.
fn below(nodes: &Nodes, gamma: &Gamma, term: u32, place: u16) -> Option<u32>
    requires { term < length nodes.now }
    ensures { StepsTo nodes.now gamma.now (tree_at nodes.now term) place result }
{
    match nodes.shape(term) {
        Shape::Variable { .. } => None,
        Shape::Application { op, .. } => {
            if !gamma.has(op, place) {
                return None;
            }
            nodes.arg(term, place as usize)
        }
    }
}
