//! Constants of case lists.
ghost use Rattle.std.specs.Prelude.{◌≡◌};
ghost use Rattle.circ_refute.specs.PlainRefutation.{are_listed, are_two_cases};

use circ_term::{Kind, Term};
use circ_theory::Theory;

// Whether the terms are two different constants of one case list.
pub(crate) fn are_two_cases(theory: &Theory, left: &Term, right: &Term) -> bool
    ensures { result ≡ are_two_cases theory.now left.now right.now }
{
    match (left.kind(), right.kind()) {
        (
            Kind::Application { op, sort, args },
            Kind::Application {
                op: other,
                sort: other_sort,
                args: other_args,
            },
        ) => {
            if !args.is_empty() {
                return false;
            }
            if !other_args.is_empty() {
                return false;
            }
            if op == other {
                return false;
            }
            if sort != other_sort {
                return false;
            }
            are_listed(theory, sort, op, other)
        }
        _ => false,
    }
}

// Whether both constants are in the case list of the sort.
fn are_listed(theory: &Theory, sort: u32, first: u32, second: u32) -> bool
    ensures { result ≡ are_listed theory.now sort first second }
{
    match theory.cases(sort) {
        Some(constants) => constants.contains(&first) && constants.contains(&second),
        None => false,
    }
}
