//! A whole theory as text.
ghost use Rattle.std.specs.Prelude.{◌≡◌, ◌++◌, ℕ, List, codes, flat_map, map, length, Bool, IfOk};
ghost use Rattle.std.specs.Prelude.{OnOk, OnErr};
ghost use Rattle.circ_theory.specs.Theory.{Theory};
ghost use Rattle.circ_show.specs.Lines.{sort_line, op_line, var_line, equation_line};
ghost use Rattle.circ_show.specs.Lines.{derivative_line, cases_line, unobserved_line};
ghost use Rattle.circ_show.specs.TheoryText.{IsTheoryText, by_number, parts_text, text_where};
ghost use Rattle.circ_show.specs.TheoryText.{unobserved_lines, text_of_theory};
ghost use Rattle.circ_show.specs.SortMarks.{is_unmarked};

use crate::lines::{
    put_cases, put_derivative, put_equation, put_head, put_op, put_sort, put_unobserved, put_var,
};
use crate::observed::{is_unmarked, observed};
use circ_theory::Theory;
use std::alloc::{AllocError, Global};

/// Appends the text of a theory: its parts, one a line, kind by kind, and behind them a line for
/// each sort that is not observed. If it runs out of memory the bytes are as before.
pub fn theory_text(alloc: Global, theory: &Theory, out: &mut Vec<u8>) -> Result<(), AllocError>
    ensures text { OnOk result ((text : List ℕ) × IsTheoryText theory.now text ×
        (out.new.items ≡ out.old.items ++ text)) }
    ensures err { OnErr result (out.new.items ≡ out.old.items) }
{
    let marks = observed(alloc, theory)?;
    let mut text = Vec::new(alloc);
    put_theory(alloc, &mut text, theory, &marks)?;
    out.extend_from_slice(&text)
}

fn put_theory(
    alloc: Global,
    out: &mut Vec<u8>,
    theory: &Theory,
    marks: &[bool],
) -> Result<(), AllocError>
    ensures { OnOk result (out.new.items ≡
        out.old.items ++ text_of_theory theory.now (is_unmarked marks.now)) }
{
    put_parts(alloc, out, theory)?;
    put_all_unmarked(out, theory, marks)
}

fn put_parts(alloc: Global, out: &mut Vec<u8>, theory: &Theory) -> Result<(), AllocError>
    ensures { OnOk result (out.new.items ≡ out.old.items ++ parts_text theory.now) }
{
    put_head(out, theory.name())?;
    put_sorts(out, theory)?;
    put_ops(out, theory)?;
    put_vars(out, theory)?;
    put_equations(alloc, out, theory)?;
    put_derivatives(alloc, out, theory)?;
    put_case_lists(out, theory)?;
    out.extend_from_slice(b"endtheory\n")
}

fn put_sorts(out: &mut Vec<u8>, theory: &Theory) -> Result<(), AllocError>
    ensures { OnOk result (out.new.items ≡
        out.old.items ++ flat_map sort_line theory.now.signature.sorts) }
{
    for n in 0..theory.sort_count() {
        let Some(name) = theory.sort_name(n) else {
            return Ok(());
        };
        put_sort(out, name)?;
    }
    Ok(())
}

fn put_ops(out: &mut Vec<u8>, theory: &Theory) -> Result<(), AllocError>
    ensures { OnOk result (out.new.items ≡
        out.old.items ++ flat_map (op_line theory.now.signature) theory.now.signature.ops) }
{
    for n in 0..theory.op_count() {
        let Some(decl) = theory.op(n) else {
            return Ok(());
        };
        put_op(out, theory, decl)?;
    }
    Ok(())
}

fn put_vars(out: &mut Vec<u8>, theory: &Theory) -> Result<(), AllocError>
    ensures { OnOk result (out.new.items ≡
        out.old.items ++ flat_map (var_line theory.now.signature) theory.now.variables) }
{
    for n in 0..theory.var_count() {
        let Some((name, sort)) = theory.var(n) else {
            return Ok(());
        };
        put_var(out, theory, name, sort)?;
    }
    Ok(())
}

fn put_equations(alloc: Global, out: &mut Vec<u8>, theory: &Theory) -> Result<(), AllocError>
    ensures { OnOk result (out.new.items ≡
        out.old.items ++ flat_map (equation_line theory.now.signature) theory.now.equations) }
{
    for n in 0..theory.equation_count() {
        let Some(equation) = theory.equation(n) else {
            return Ok(());
        };
        put_equation(alloc, out, theory, equation)?;
    }
    Ok(())
}

fn put_derivatives(alloc: Global, out: &mut Vec<u8>, theory: &Theory) -> Result<(), AllocError>
    ensures { OnOk result (out.new.items ≡ out.old.items ++
        flat_map (λ d. derivative_line theory.now.signature d.body) theory.now.derivatives) }
{
    for n in 0..theory.derivative_count() {
        let Some(term) = theory.derivative(n) else {
            return Ok(());
        };
        put_derivative(alloc, out, theory, term)?;
    }
    Ok(())
}

fn put_case_lists(out: &mut Vec<u8>, theory: &Theory) -> Result<(), AllocError>
    ensures { OnOk result (out.new.items ≡
        out.old.items ++ by_number (cases_line theory.now) 0 (length theory.now.signature.sorts)) }
{
    for sort in 0..theory.sort_count() {
        put_cases(out, theory, sort)?;
    }
    Ok(())
}

fn put_all_unmarked(out: &mut Vec<u8>, theory: &Theory, marks: &[bool]) -> Result<(), AllocError>
    ensures { OnOk result (out.new.items ≡
        out.old.items ++ unobserved_lines theory.now (is_unmarked marks.now)) }
{
    for sort in 0..theory.sort_count() {
        put_unmarked(out, theory, marks, sort)?;
    }
    Ok(())
}

// The line of a sort, where its mark tells that it is not observed.
fn put_unmarked(
    out: &mut Vec<u8>,
    theory: &Theory,
    marks: &[bool],
    sort: u32,
) -> Result<(), AllocError>
    ensures { OnOk result (out.new.items ≡
        out.old.items ++ text_where (is_unmarked marks.now) (unobserved_line theory.now.signature)
        sort) }
{
    if is_unmarked(marks, sort) {
        return put_unobserved(out, theory, sort);
    }
    Ok(())
}
