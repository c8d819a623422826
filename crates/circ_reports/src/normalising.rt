//! The command `reduce`: the terms of a script are brought to their normal forms.
ghost use Rattle.std.specs.Prelude.{◌≡◌, ◌++◌, ◌≤◌, [], flat_map, IfOk, IfErr, OnOk};
ghost use Rattle.circ_outer.specs.Shelf.{ShelfFrame};
ghost use Rattle.circ_rewrite.specs.TheoryRules.{theory_rules};
ghost use Rattle.circ_files.specs.Quiet.{IsQuietCall};
ghost use Rattle.circ_reports.specs.Reduce.{reduced, Reduces, Ends, Results, FaultEnds};
ghost use Rattle.circ_reports.specs.Reduce.{result_line, results_text, IsReduced, RefusesReduce};
ghost use Rattle.circ_reports.specs.Reduce.{fault_status};

use circ_files::{take_script, take_theory};
use circ_mixfix::print;
use circ_outer::Shelf;
use circ_rewrite::{RewriteFault, theory_rules};
use circ_script::Job;
use circ_status::{Status, push_numbered};
use circ_term::Term;
use circ_theory::Theory;
use circ_tries::Reducer;
use std::alloc::{AllocError, Global};

/// The normal forms of a script's terms as text, or the answer in its place. The budget is shared
/// by all terms.
pub fn reduce<S: Shelf>(
    alloc: Global,
    shelf: &mut S,
    budget: u64,
    theory: &str,
    script: &str,
) -> Result<Vec<u8>, Status>
    ensures reduced { IfOk result (λ v.
        IsReduced budget theory.now script.now v.items (S.state shelf.old)) }
    ensures refused { IfErr result
        (RefusesReduce budget theory.now script.now (S.state shelf.old) (S.state shelf.new)) }
    ensures quiet { IsQuietCall (S.state shelf.old) (S.state shelf.new) result }
    ensures frame { ShelfFrame (S.state shelf.old) (S.state shelf.new) }
{
    let mut theory = match take_theory(alloc, shelf, theory) {
        Ok(theory) => theory,
        Err(status) => return Err(status),
    };
    let script = match take_script(alloc, shelf, script, &mut theory, Job::Reduce) {
        Ok(script) => script,
        Err(status) => return Err(status),
    };
    reduce_terms(alloc, budget, &theory, script.terms.as_slice())
}

/// The text of the terms' normal forms, or why there is none.
fn reduce_terms(
    alloc: Global,
    budget: u64,
    theory: &Theory,
    terms: &[Term],
) -> Result<Vec<u8>, Status>
    ensures reduced { IfOk result (λ v. Reduces theory.now budget terms.now v.items) }
    ensures ends { IfErr result (Ends theory.now budget terms.now) }
{
    let mut left = budget;
    let results = match normal_forms(alloc, theory, terms, &mut left) {
        Ok(results) => results,
        Err(fault) => return Err(end(fault, budget)),
    };
    Ok(results_text(alloc, theory, results.as_slice(), budget - left)?)
}

/// The answer where a term has no normal form: if the budget is spent, the whole budget.
fn end(fault: RewriteFault, budget: u64) -> Status
    ensures { result ≡ fault_status budget fault }
{
    match fault {
        RewriteFault::Spent => Status::Spent {
            rewrites: budget,
            derives: 0,
            steps: 0,
        },
        RewriteFault::TooBig { nodes } => Status::TooBig { nodes },
        RewriteFault::TooDeep { depth } => Status::TooDeep { depth },
        RewriteFault::Memory => Status::Memory,
    }
}

/// The normal forms of the terms by the theory's rules, each with what the one before left of the
/// budget.
fn normal_forms(
    alloc: Global,
    theory: &Theory,
    terms: &[Term],
    budget: &mut u64,
) -> Result<Vec<Term>, RewriteFault>
    ensures results { IfOk result (λ v.
        reduced theory.now budget.old terms.now ≡ Results v.items budget.new) }
    ensures fault { IfErr result (FaultEnds (reduced theory.now budget.old terms.now)) }
    ensures less { budget.new ≤ budget.old }
{
    let rules = theory_rules(alloc, theory)?;
    let mut reducer = Reducer::new(alloc, theory, rules)?;
    normal_forms_by(alloc, &mut reducer, terms, budget)
}

fn normal_forms_by(
    alloc: Global,
    reducer: &mut Reducer<'_>,
    terms: &[Term],
    budget: &mut u64,
) -> Result<Vec<Term>, RewriteFault>
    requires rules { reducer.old.rules ≡ theory_rules reducer.old.theory }
    requires none { reducer.old.assumptions ≡ [] }
    ensures results { IfOk result (λ v.
        reduced reducer.old.theory budget.old terms.now ≡ Results v.items budget.new) }
    ensures fault { IfErr result (FaultEnds (reduced reducer.old.theory budget.old terms.now)) }
    ensures less { budget.new ≤ budget.old }
{
    let mut results = Vec::new(alloc);
    for term in terms {
        let value = match reducer.value(term, 0, budget) {
            Ok(value) => value,
            Err(fault) => return Err(fault),
        };
        results.push(value)?;
    }
    Ok(results)
}

/// The lines of the results, and how many replacements were made.
fn results_text(
    alloc: Global,
    theory: &Theory,
    results: &[Term],
    rewrites: u64,
) -> Result<Vec<u8>, AllocError>
    ensures { IfOk result (λ v.
        v.items ≡ results_text theory.now.signature results.now rewrites) }
{
    let mut out = Vec::new(alloc);
    put_results(alloc, theory, results, &mut out)?;
    push_numbered(&mut out, b"rewrites: ", rewrites)?;
    out.extend_from_slice(b"\n")?;
    Ok(out)
}

/// Appends a line for each result.
fn put_results(
    alloc: Global,
    theory: &Theory,
    results: &[Term],
    out: &mut Vec<u8>,
) -> Result<(), AllocError>
    ensures { OnOk result (out.new.items ≡ out.old.items
        ++ flat_map (result_line theory.now.signature) results.now) }
{
    for term in results {
        put_result(alloc, theory, term, out)?;
    }
    Ok(())
}

fn put_result(
    alloc: Global,
    theory: &Theory,
    term: &Term,
    out: &mut Vec<u8>,
) -> Result<(), AllocError>
    ensures { OnOk result (out.new.items ≡ out.old.items
        ++ result_line theory.now.signature term.now) }
{
    out.extend_from_slice(b"result: ")?;
    print(alloc, theory, term, out)?;
    out.extend_from_slice(b"\n")
}
