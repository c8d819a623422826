//! The terms that an operator joins at the top of a term.
ghost use Rattle.std.specs.Prelude.{◌≡◌};
ghost use Rattle.std.specs.Option.{option_map};
ghost use Rattle.circ_term.specs.Tree.{trees_of};
ghost use Rattle.circ_term.specs.Order.{is_same};
ghost use Rattle.circ_theory.specs.Operators.{operator_of};
ghost use Rattle.circ_aci.specs.Operands.{two_of, operands, marked_operands};

use circ_term::{Kind, Term};
use circ_theory::OpDecl;

/// The two arguments of the operator, where it is the term's operator.
pub(crate) fn operands(op: u32, term: &Term) -> Option<(&Term, &Term)>
    ensures { option_map (λ p. (p.0.now, p.1.now)) result ≡ operands op term.now }
{
    let Kind::Application { op: top, args, .. } = term.kind() else {
        return None;
    };
    if top != op {
        return None;
    }
    two_of(args)
}

fn two_of(args: &[Term]) -> Option<(&Term, &Term)>
    ensures { option_map (λ p. (p.0.now, p.1.now)) result ≡ two_of (trees_of args.now) }
{
    if args.len() != 2 {
        return None;
    }
    Some((&args[0], &args[1]))
}

/// The same, where the operator has a mark.
pub(crate) fn marked_operands<'a>(
    decl: &OpDecl,
    op: u32,
    term: &'a Term,
) -> Option<(&'a Term, &'a Term)>
    ensures { option_map (λ p. (p.0.now, p.1.now)) result
        ≡ marked_operands (operator_of decl.now) op term.now }
{
    if decl.assoc || decl.comm || decl.idem {
        operands(op, term)
    } else {
        None
    }
}

/// Whether both are the same term.
pub(crate) fn is_same(a: &Term, b: &Term) -> bool
    ensures { result ≡ is_same a.now b.now }
{
    a.same(b)
}
