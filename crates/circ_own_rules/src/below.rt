//! Whether an instance is below a term, which is told without building the instance.
ghost use Rattle.std.specs.Prelude.{◌≡◌, ◌≤◌, ◌*◌, drop};
ghost use Rattle.std.specs.Ordering.{ordering_then};
ghost use Rattle.std.specs.List.{slice_get};
ghost use Rattle.std.specs.Option.{option_copied};
ghost use Rattle.circ_term.specs.Tree.{none, size_of, sizes_of, trees_of};
ghost use Rattle.circ_term.specs.Subst.{substitution_of};
ghost use Rattle.circ_term.specs.Substitution.{instance, instances};
ghost use Rattle.circ_attempt.specs.Below.{is_below};
ghost use Rattle.circ_own_rules.specs.TermOrder.{term_order, terms_order, order_to};
ghost use Rattle.circ_own_rules.specs.TermOrder.{equal_or_greater};

use circ_term::{Kind, Subst, Term};
use std::cmp::Ordering;

// How many nodes an instance has, and how it stands to a term: less where it is below it, equal
// where both are the same, and else greater.
#[derive(Clone, Copy)]
struct Compared {
    size: u64,
    order: Ordering,
}

/// Whether the instance of the pattern is below the term. Builds nothing.
pub(crate) fn is_below(subst: &Subst, pattern: &Term, old: &Term) -> bool
    ensures { result ≡ is_below (instance (substitution_of subst.now) pattern.now) old.now }
{
    compare_instance(subst, pattern, old).order.is_lt()
}

// The pattern is gone over once, beside the term.
#[cycle(compare_instance)]
fn compare_instance(subst: &Subst, pattern: &Term, term: &Term) -> Compared
    ensures size { result.size ≡ size_of (instance (substitution_of subst.now) pattern.now) }
    ensures small { result.size ≤ 1000000 * size_of pattern.now }
    ensures order { result.order
        ≡ term_order (instance (substitution_of subst.now) pattern.now) term.now }
{
    match (pattern.kind(), term.kind()) {
        (Kind::Variable { number, sort }, _) => match subst.get(number, sort) {
            Some(bound) => compare_term(bound, term),
            None => compare_term(pattern, term),
        },
        (Kind::Application { .. }, Kind::Variable { .. }) => Compared {
            size: instance_size(subst, pattern),
            order: Ordering::Greater,
        },
        (
            Kind::Application { op, sort, args },
            Kind::Application {
                op: term_op,
                sort: term_sort,
                args: term_args,
            },
        ) => {
            pattern.known();
            let inside = compare_instances(subst, args, term_args, op.cmp(&term_op));
            let size = inside.size + 1;
            let order = size.cmp(&term.size()).then(inside.order);
            Compared {
                size,
                order: order.then(equal_or_greater(sort == term_sort)),
            }
        }
    }
}

// The same for arguments, where what comes before them stands so.
#[cycle(compare_instance)]
fn compare_instances(subst: &Subst, patterns: &[Term], terms: &[Term], before: Ordering) -> Compared
    requires few { sizes_of (trees_of patterns.now) ≤ 1000000 }
    ensures size { result.size
        ≡ sizes_of (instances (substitution_of subst.now) (trees_of patterns.now)) }
    ensures small { result.size ≤ 1000000 * sizes_of (trees_of patterns.now) }
    ensures order { result.order ≡ ordering_then before (terms_order
        (instances (substitution_of subst.now) (trees_of patterns.now)) (trees_of terms.now)) }
{
    let mut size = 0;
    let mut order = before;
    for i in 0..patterns.len() {
        let one = compare_next(subst, &patterns[i], term_at(terms, i), order);
        size += one.size;
        order = one.order;
    }
    Compared {
        size,
        order: order.then(compare_end(terms, patterns.len())),
    }
}

// The same for one argument. Behind a difference its nodes are counted alone.
#[cycle(compare_instance)]
fn compare_next(subst: &Subst, pattern: &Term, term: Option<&Term>, before: Ordering) -> Compared
    ensures size { result.size ≡ size_of (instance (substitution_of subst.now) pattern.now) }
    ensures small { result.size ≤ 1000000 * size_of pattern.now }
    ensures order { result.order ≡ ordering_then before (order_to
        (instance (substitution_of subst.now) pattern.now) (option_copied term.entry)) }
{
    match (before, term) {
        (Ordering::Equal, Some(term)) => compare_instance(subst, pattern, term),
        _ => Compared {
            size: instance_size(subst, pattern),
            order: before.then(Ordering::Greater),
        },
    }
}

// The number of nodes of an instance.
#[cycle(instance_size)]
fn instance_size(subst: &Subst, pattern: &Term) -> u64
    ensures size { result ≡ size_of (instance (substitution_of subst.now) pattern.now) }
    ensures small { result ≤ 1000000 * size_of pattern.now }
{
    if pattern.is_ground() {
        return pattern.size();
    }
    match pattern.kind() {
        Kind::Variable { number, sort } => match subst.get(number, sort) {
            Some(bound) => bound.size(),
            None => 1,
        },
        Kind::Application { args, .. } => {
            pattern.known();
            instance_sizes(subst, args) + 1
        }
    }
}

#[cycle(instance_size)]
fn instance_sizes(subst: &Subst, patterns: &[Term]) -> u64
    requires few { sizes_of (trees_of patterns.now) ≤ 1000000 }
    ensures size { result
        ≡ sizes_of (instances (substitution_of subst.now) (trees_of patterns.now)) }
    ensures small { result ≤ 1000000 * sizes_of (trees_of patterns.now) }
{
    let mut size = 0;
    for pattern in patterns {
        size += instance_size(subst, pattern);
    }
    size
}

// A term's number of nodes, and how it stands to another.
fn compare_term(term: &Term, other: &Term) -> Compared
    ensures size { result.size ≡ size_of term.now }
    ensures small { result.size ≤ 1000000 }
    ensures order { result.order ≡ term_order term.now other.now }
{
    Compared {
        size: term.size(),
        order: compare(term, other),
    }
}

// How a term stands to another.
#[cycle(compare)]
fn compare(term: &Term, other: &Term) -> Ordering
    ensures { result ≡ term_order term.now other.now }
{
    match (term.kind(), other.kind()) {
        (
            Kind::Variable { number, sort },
            Kind::Variable {
                number: other_number,
                sort: other_sort,
            },
        ) => number.cmp(&other_number).then(sort.cmp(&other_sort)),
        (Kind::Variable { .. }, Kind::Application { .. }) => Ordering::Less,
        (Kind::Application { .. }, Kind::Variable { .. }) => Ordering::Greater,
        (
            Kind::Application { op, sort, args },
            Kind::Application {
                op: other_op,
                sort: other_sort,
                args: other_args,
            },
        ) => {
            let inside = match term.size().cmp(&other.size()).then(op.cmp(&other_op)) {
                Ordering::Equal => compare_all(args, other_args),
                apart => apart,
            };
            inside.then(equal_or_greater(sort == other_sort))
        }
    }
}

#[cycle(compare)]
fn compare_all(terms: &[Term], others: &[Term]) -> Ordering
    ensures { result ≡ terms_order (trees_of terms.now) (trees_of others.now) }
{
    for i in 0..terms.len() {
        match compare_to(&terms[i], term_at(others, i)) {
            Ordering::Equal => {}
            apart => return apart,
        }
    }
    compare_end(others, terms.len())
}

#[cycle(compare)]
fn compare_to(term: &Term, other: Option<&Term>) -> Ordering
    ensures { result ≡ order_to term.now (option_copied other.entry) }
{
    match other {
        Some(other) => compare(term, other),
        None => Ordering::Greater,
    }
}

// How no more terms stand to those from a place on.
fn compare_end(terms: &[Term], place: usize) -> Ordering
    ensures { result ≡ terms_order none (trees_of (drop place terms.now)) }
{
    if place < terms.len() {
        return Ordering::Greater;
    }
    Ordering::Equal
}

fn equal_or_greater(equal: bool) -> Ordering
    ensures { result ≡ equal_or_greater equal }
{
    if equal {
        Ordering::Equal
    } else {
        Ordering::Greater
    }
}

fn term_at(terms: &[Term], place: usize) -> Option<&Term>
    ensures { option_copied result ≡ slice_get terms.now place }
{
    terms.get(place)
}
