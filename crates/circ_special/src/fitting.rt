//! Instances of derivatives, without naming their parameters, and their holes.
ghost use Rattle.std.specs.Prelude.{◌≡◌, ◌↔◌, IsTrue, Some};
ghost use Rattle.circ_term.specs.Tree.{Var, at, trees_of};
ghost use Rattle.circ_special.specs.Fitting.{fits, all_fit, is_variable};

use circ_term::{Kind, Term};

/// Whether the term is the body of a derivative with the variable at the hole and any terms of the
/// parameters' sorts at the parameters.
#[cycle(fits)]
pub fn fits(body: &Term, term: &Term, id: u32, sort: u32) -> bool
    ensures { result ≡ fits id sort body.now term.now }
{
    match (body.kind(), term.kind()) {
        (Kind::Variable { number, sort: own }, _) => {
            term.sort() == own && (number != 0 || is_variable(term, id, sort))
        }
        (Kind::Application { .. }, Kind::Variable { .. }) => false,
        (
            Kind::Application {
                op,
                sort: own,
                args,
            },
            Kind::Application {
                op: other_op,
                sort: other_sort,
                args: other_args,
            },
        ) => op == other_op && own == other_sort && all_fit(args, other_args, id, sort),
    }
}

#[cycle(fits)]
fn all_fit(bodies: &[Term], terms: &[Term], id: u32, sort: u32) -> bool
    ensures { result ≡ all_fit id sort (trees_of bodies.now) (trees_of terms.now) }
{
    if bodies.len() != terms.len() {
        return false;
    }
    for i in 0..bodies.len() {
        if !fits(&bodies[i], &terms[i], id, sort) {
            return false;
        }
    }
    true
}

/// Whether the term is this variable.
pub fn is_variable(term: &Term, id: u32, sort: u32) -> bool
    ensures exact { result ≡ is_variable id sort term.now }
    ensures same { IsTrue result ↔ (term.now ≡ Var id sort) }
{
    match term.kind() {
        Kind::Variable { number, sort: own } => number == id && own == sort,
        Kind::Application { .. } => false,
    }
}

/// Whether the hole, of this sort, is at the path.
pub fn has_hole(body: &Term, path: &[u16], sort: u32) -> bool
    ensures { IsTrue result ↔ (at body.now path.now ≡ Some (Var 0 sort)) }
{
    match body.at(path) {
        Some(hole) => is_variable(hole, 0, sort),
        None => false,
    }
}
