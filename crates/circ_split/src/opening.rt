//! What a goal is split on.
ghost use Rattle.std.specs.Prelude.{◌≡◌, if◌then◌else◌, Some, None};
ghost use Rattle.std.specs.Option.{option_copied};
ghost use Rattle.circ_term.specs.Tree.{trees_of};
ghost use Rattle.circ_plain_search.specs.Joining.{is_open, first_open, first_open_in};
ghost use Rattle.circ_conditional_search.specs.Search.{first_open_of};

use circ_term::{Kind, Term};
use circ_theory::Theory;

/// The first open subterm in post-order. Takes no memory.
#[cycle(first_open)]
pub fn first_open<'a>(theory: &Theory, term: &'a Term) -> Option<&'a Term>
    ensures { option_copied result ≡ first_open theory.now term.now }
{
    match term.kind() {
        Kind::Variable { .. } => self_if_open(theory, term),
        Kind::Application { args, .. } => match first_open_in(theory, args) {
            Some(open) => Some(open),
            None => self_if_open(theory, term),
        },
    }
}

#[cycle(first_open)]
fn first_open_in<'a>(theory: &Theory, terms: &'a [Term]) -> Option<&'a Term>
    ensures { option_copied result ≡ first_open_in theory.now (trees_of terms.now) }
{
    for term in terms {
        if let Some(open) = first_open(theory, term) {
            return Some(open);
        }
    }
    None
}

// The term, where it is open.
fn self_if_open<'a>(theory: &Theory, term: &'a Term) -> Option<&'a Term>
    ensures { option_copied result
        ≡ (if is_open theory.now term.now then Some term.now else None) }
{
    if is_open(theory, term) {
        Some(term)
    } else {
        None
    }
}

// Whether the term's sort has a case list and it is none of the constants.
fn is_open(theory: &Theory, term: &Term) -> bool
    ensures { result ≡ is_open theory.now term.now }
{
    match theory.cases(term.sort()) {
        None => false,
        Some(constants) => match term.op_number() {
            None => true,
            Some(op) => !constants.contains(&op),
        },
    }
}

/// The first open subterm of the left side, or, where it has none, of the right side.
pub fn first_open_of<'a>(theory: &Theory, left: &'a Term, right: &'a Term) -> Option<&'a Term>
    ensures { option_copied result ≡ first_open_of theory.now left.now right.now }
{
    match first_open(theory, left) {
        Some(open) => Some(open),
        None => first_open(theory, right),
    }
}
