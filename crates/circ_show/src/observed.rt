//! Which sorts are observed: an experiment fits them.
ghost use Rattle.std.specs.Prelude.{◌≡◌, ◌↔◌, ◌<◌, ℕ, true, false, not, IsTrue, IfOk, Some, length};
ghost use Rattle.std.specs.List.{slice_get};
ghost use Rattle.circ_theory.specs.Theory.{Derivative};
ghost use Rattle.circ_theory.specs.Observing.{is_hidden};
ghost use Rattle.circ_show.specs.Observed.{IsUnobserved};
ghost use Rattle.circ_show.specs.SortMarks.{AreSortMarks, CarriesMarkAt, AreClosed, unmarked};
ghost use Rattle.circ_show.specs.SortMarks.{is_unmarked, TellUnobserved};

use circ_theory::Theory;
use std::alloc::{AllocError, Global};

/// Whether the sort is hidden and no experiment fits it. Then no experiment can tell two of its
/// terms apart, and every pair behaves. The only fault is that memory runs out.
pub fn unobserved(alloc: Global, theory: &Theory, sort: u32) -> Result<bool, AllocError>
    ensures { IfOk result (λ b. IsTrue b ↔ IsUnobserved theory.now sort) }
{
    let marks = observed(alloc, theory)?;
    Ok(is_unmarked(&marks, sort))
}

// Whether the sort has a mark that is not set.
pub fn is_unmarked(marks: &[bool], sort: u32) -> bool
    ensures { result ≡ is_unmarked marks.now sort }
{
    matches!(marks.get(sort as usize), Some(false))
}

// A mark for each sort: whether an experiment fits it.
pub fn observed(alloc: Global, theory: &Theory) -> Result<Vec<bool>, AllocError>
    ensures { IfOk result (λ v. TellUnobserved theory.now v.items) }
{
    theory.known();
    let mut marks = visible(alloc, theory)?;
    while observe_more(theory, &mut marks) {}
    Ok(marks)
}

// A mark for each sort: whether it is visible.
fn visible(alloc: Global, theory: &Theory) -> Result<Vec<bool>, AllocError>
    ensures { IfOk result (λ v. AreSortMarks theory.now v.items) }
{
    theory.known();
    let count = theory.sort_count();
    let mut marks = Vec::with_capacity(alloc, count as usize)?;
    for sort in 0..count {
        marks.push(!theory.is_hidden(sort))?;
    }
    Ok(marks)
}

// Marks one sort more by some derivative. Answers whether there was one.
fn observe_more(theory: &Theory, marks: &mut Vec<bool>) -> bool
    requires { AreSortMarks theory.now marks.old.items }
    ensures marks { AreSortMarks theory.now marks.new.items }
    ensures marked { result ≡ true → unmarked marks.new.items < unmarked marks.old.items }
    ensures closed { result ≡ false → AreClosed theory.now marks.new.items }
{
    for number in 0..theory.derivative_count() {
        if observe(theory, marks, number) {
            return true;
        }
    }
    false
}

// Marks the hole's sort of a derivative whose result is marked. Answers whether it marked one.
fn observe(theory: &Theory, marks: &mut Vec<bool>, number: u32) -> bool
    requires { AreSortMarks theory.now marks.old.items }
    ensures marks { AreSortMarks theory.now marks.new.items }
    ensures marked { result ≡ true → unmarked marks.new.items < unmarked marks.old.items }
    ensures passed { result ≡ false → (marks.new.items ≡ marks.old.items) ×
        CarriesMarkAt theory.now marks.old.items number }
{
    theory.known();
    let (Some(term), Some(hole)) = (theory.derivative(number), theory.hole_sort(number)) else {
        return false;
    };
    if !is_marked(marks, term.sort()) {
        return false;
    }
    if is_marked(marks, hole) {
        return false;
    }
    if hole as usize >= marks.len() {
        return false;
    }
    marks[hole as usize] = true;
    true
}

// Whether the sort is marked.
fn is_marked(marks: &[bool], sort: u32) -> bool
    ensures { IsTrue result ↔ (slice_get marks.now sort ≡ Some true) }
{
    matches!(marks.get(sort as usize), Some(true))
}
