//! A pattern is gone over from the left beside its term, and its variables are bound on the way.
ghost use Rattle.std.specs.Prelude.{◌||◌, IfOk};
ghost use Rattle.circ_term.specs.Tree.{Var, trees_of};
ghost use Rattle.circ_match.specs.Matcher.{Makes, Matches, has_variable, have_variable};
ghost use Rattle.circ_match.specs.Extending.{MakeAll, Extends, BindsBesides};

use circ_term::{Kind, Subst, Term};
use std::alloc::{AllocError, Global};

/// The substitution that makes the pattern the term. A variable can be given only a term of its
/// sort.
pub fn match_term(alloc: Global, pattern: &Term, term: &Term) -> Result<Option<Subst>, AllocError>
    ensures { IfOk result (Matches (Makes pattern.now term.now) (has_variable pattern.now)) }
{
    let mut subst = Subst::new(alloc);
    if !extend(&mut subst, pattern, term)? {
        return Ok(None);
    }
    subst.known();
    Ok(Some(subst))
}

/// The substitution that makes `left` the term `a` and `right` the term `b`: a variable that both
/// have is given one term.
pub fn match_pair(
    alloc: Global,
    left: &Term,
    right: &Term,
    a: &Term,
    b: &Term,
) -> Result<Option<Subst>, AllocError>
    ensures { IfOk result (Matches
        (λ τ. Makes left.now a.now τ × Makes right.now b.now τ)
        (λ n s. has_variable left.now n s || has_variable right.now n s)) }
{
    let mut subst = Subst::new(alloc);
    if !extend(&mut subst, left, a)? {
        return Ok(None);
    }
    if !extend(&mut subst, right, b)? {
        return Ok(None);
    }
    subst.known();
    Ok(Some(subst))
}

// Binds the pattern's variables so that it becomes the term. False where that cannot be.
#[cycle(extend)]
fn extend(subst: &mut Subst, pattern: &Term, term: &Term) -> Result<bool, AllocError>
    ensures makes { IfOk result
        (Extends subst.old subst.new (Makes pattern.now term.now)) }
    ensures binds { IfOk result
        (BindsBesides subst.old subst.new (has_variable pattern.now)) }
{
    if pattern.is_ground() {
        return Ok(pattern.same(term));
    }
    match (pattern.kind(), term.kind()) {
        (Kind::Variable { number, sort }, _) => bind(subst, number, sort, term),
        (Kind::Application { .. }, Kind::Variable { .. }) => Ok(false),
        (
            Kind::Application { op, sort, args },
            Kind::Application {
                op: term_op,
                sort: term_sort,
                args: term_args,
            },
        ) => {
            if op != term_op || sort != term_sort {
                return Ok(false);
            }
            extend_all(subst, args, term_args)
        }
    }
}

#[cycle(extend)]
fn extend_all(subst: &mut Subst, patterns: &[Term], terms: &[Term]) -> Result<bool, AllocError>
    ensures makes { IfOk result
        (Extends subst.old subst.new (MakeAll (trees_of patterns.now) (trees_of terms.now))) }
    ensures binds { IfOk result
        (BindsBesides subst.old subst.new (have_variable (trees_of patterns.now))) }
{
    if patterns.len() != terms.len() {
        return Ok(false);
    }
    for i in 0..patterns.len() {
        if !extend(subst, &patterns[i], &terms[i])? {
            return Ok(false);
        }
    }
    Ok(true)
}

fn bind(subst: &mut Subst, number: u32, sort: u32, term: &Term) -> Result<bool, AllocError>
    ensures makes { IfOk result
        (Extends subst.old subst.new (Makes (Var number sort) term.now)) }
    ensures binds { IfOk result
        (BindsBesides subst.old subst.new (has_variable (Var number sort))) }
{
    if term.sort() != sort {
        return Ok(false);
    }
    subst.bind(number, sort, term)
}
