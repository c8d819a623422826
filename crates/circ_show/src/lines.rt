//! The lines of a theory's text.
ghost use Rattle.std.specs.Prelude.{◌≡◌, ◌∷◌, ◌++◌, [], codes, flat_map, map, IfOk, OnOk};
ghost use Rattle.std.specs.Option.{option_copied};
ghost use Rattle.circ_form.specs.Form.{text_of};
ghost use Rattle.circ_theory.specs.Theory.{declared, goal_of};
ghost use Rattle.circ_theory.specs.Pairs.{plain_pair};
ghost use Rattle.circ_theory.specs.Operators.{operator_of};
ghost use Rattle.circ_show.specs.Lines.{spaced_word, spaced_sort, spaced_form, sort_name};
ghost use Rattle.circ_show.specs.Lines.{theory_line, sort_line, declaration, op_line, var_line};
ghost use Rattle.circ_show.specs.Lines.{equation_word, equation_line, derivative_line, cases_line};
ghost use Rattle.circ_show.specs.Lines.{unobserved_line};

use crate::attributes::put_attributes;
use circ_form::Piece;
use circ_mixfix::{print_derivative, print_goal};
use circ_term::Term;
use circ_theory::{Equation, Goal, OpDecl, Pair, Theory};
use std::alloc::{AllocError, Global};

pub fn put_head(out: &mut Vec<u8>, name: &[u8]) -> Result<(), AllocError>
    ensures { OnOk result (out.new.items ≡ out.old.items ++ theory_line name.now) }
{
    out.extend_from_slice(b"theory")?;
    put_word(out, name)?;
    out.extend_from_slice(b" is\n")
}

pub fn put_sort(out: &mut Vec<u8>, name: &[u8]) -> Result<(), AllocError>
    ensures { OnOk result (out.new.items ≡ out.old.items ++ sort_line name.now) }
{
    out.extend_from_slice(b"sort")?;
    put_word(out, name)?;
    out.extend_from_slice(b" .\n")
}

pub fn put_op(out: &mut Vec<u8>, theory: &Theory, decl: &OpDecl) -> Result<(), AllocError>
    ensures { OnOk result (out.new.items ≡
        out.old.items ++ op_line theory.now.signature (operator_of decl.now)) }
{
    out.extend_from_slice(b"op ")?;
    put_declaration(out, theory, decl)?;
    put_attributes(out, decl)?;
    out.extend_from_slice(b" .\n")
}

// An operator's form, and the sorts of its arguments and of its result.
pub fn put_declaration(out: &mut Vec<u8>, theory: &Theory, decl: &OpDecl) -> Result<(), AllocError>
    ensures { OnOk result (out.new.items ≡
        out.old.items ++ declaration theory.now.signature (operator_of decl.now)) }
{
    put_form(out, decl.form.pieces())?;
    out.extend_from_slice(b" :")?;
    put_names(out, theory, &decl.args)?;
    out.extend_from_slice(b" ->")?;
    put_word(out, name_of(theory, decl.result))
}

pub fn put_var(out: &mut Vec<u8>, theory: &Theory, name: &[u8], sort: u32) -> Result<(), AllocError>
    ensures { OnOk result (out.new.items ≡
        out.old.items ++ var_line theory.now.signature (declared name.now sort)) }
{
    out.extend_from_slice(b"var")?;
    put_word(out, name)?;
    out.extend_from_slice(b" :")?;
    put_word(out, name_of(theory, sort))?;
    out.extend_from_slice(b" .\n")
}

pub fn put_equation(
    alloc: Global,
    out: &mut Vec<u8>,
    theory: &Theory,
    equation: &Equation,
) -> Result<(), AllocError>
    ensures { OnOk result (out.new.items ≡
        out.old.items ++ equation_line theory.now.signature equation.now) }
{
    out.extend_from_slice(equation_word(equation.conds.as_slice()))?;
    let goal = goal_of(alloc, equation)?;
    print_goal(alloc, theory, &goal, out)?;
    if !equation.exec {
        out.extend_from_slice(b" [nonexec]")?;
    }
    out.extend_from_slice(b" .\n")
}

// The word that an equation with these conditions begins with.
fn equation_word(conds: &[Pair]) -> &'static [u8]
    ensures { result.now ≡ equation_word (map plain_pair conds.now) }
{
    if conds.is_empty() {
        return b"eq ";
    }
    b"ceq "
}

// What an equation says. Its terms are shared.
fn goal_of(alloc: Global, equation: &Equation) -> Result<Goal, AllocError>
    ensures { IfOk result (λ goal. goal ≡ goal_of equation.now) }
{
    let conds = equation.conds.share(alloc)?;
    let left = equation.left.share()?;
    let right = equation.right.share()?;
    Ok(Goal { conds, left, right })
}

pub fn put_derivative(
    alloc: Global,
    out: &mut Vec<u8>,
    theory: &Theory,
    term: &Term,
) -> Result<(), AllocError>
    ensures { OnOk result (out.new.items ≡
        out.old.items ++ derivative_line theory.now.signature term.now) }
{
    out.extend_from_slice(b"derivative ")?;
    print_derivative(alloc, theory, term, out)?;
    out.extend_from_slice(b" .\n")
}

// The case list of a sort, where it has one.
pub fn put_cases(out: &mut Vec<u8>, theory: &Theory, sort: u32) -> Result<(), AllocError>
    ensures { OnOk result (out.new.items ≡ out.old.items ++ cases_line theory.now sort) }
{
    let Some(constants) = theory.cases(sort) else {
        return Ok(());
    };
    out.extend_from_slice(b"cases")?;
    put_word(out, name_of(theory, sort))?;
    out.extend_from_slice(b" by")?;
    put_constants(out, theory, constants)?;
    out.extend_from_slice(b" .\n")
}

// The line of a sort that is not observed.
pub fn put_unobserved(out: &mut Vec<u8>, theory: &Theory, sort: u32) -> Result<(), AllocError>
    ensures { OnOk result (out.new.items ≡
        out.old.items ++ unobserved_line theory.now.signature sort) }
{
    out.extend_from_slice(b"--- no experiment:")?;
    put_word(out, name_of(theory, sort))?;
    out.extend_from_slice(b"\n")
}

fn put_constants(out: &mut Vec<u8>, theory: &Theory, constants: &[u32]) -> Result<(), AllocError>
    ensures { OnOk result (out.new.items ≡
        out.old.items ++ flat_map (spaced_form theory.now.signature) constants.now) }
{
    for constant in constants {
        put_constant(out, theory, *constant)?;
    }
    Ok(())
}

fn put_constant(out: &mut Vec<u8>, theory: &Theory, op: u32) -> Result<(), AllocError>
    ensures { OnOk result (out.new.items ≡
        out.old.items ++ spaced_form theory.now.signature op) }
{
    out.push(b' ')?;
    match theory.op(op) {
        None => Ok(()),
        Some(decl) => put_form(out, decl.form.pieces()),
    }
}

// The pieces of a form without blanks.
fn put_form(out: &mut Vec<u8>, pieces: &[Piece]) -> Result<(), AllocError>
    ensures { OnOk result (out.new.items ≡ out.old.items ++ text_of pieces.now) }
{
    for piece in pieces {
        out.extend_from_slice(piece_bytes(piece))?;
    }
    Ok(())
}

// A hole is an underscore.
fn piece_bytes(piece: &Piece) -> &[u8]
    ensures { result.now ≡ text_of (piece.now ∷ []) }
{
    match piece {
        Piece::Hole => b"_",
        Piece::Word(word) => word.bytes(),
    }
}

fn put_names(out: &mut Vec<u8>, theory: &Theory, sorts: &[u32]) -> Result<(), AllocError>
    ensures { OnOk result (out.new.items ≡
        out.old.items ++ flat_map (spaced_sort theory.now.signature) sorts.now) }
{
    for sort in sorts {
        put_word(out, name_of(theory, *sort))?;
    }
    Ok(())
}

fn name_of(theory: &Theory, sort: u32) -> &[u8]
    ensures { result.now ≡ sort_name theory.now.signature sort }
{
    match theory.sort_name(sort) {
        None => &[],
        Some(name) => name,
    }
}

// A word after a space; nothing where it is empty.
fn put_word(out: &mut Vec<u8>, word: &[u8]) -> Result<(), AllocError>
    ensures { OnOk result (out.new.items ≡ out.old.items ++ spaced_word word.now) }
{
    if word.is_empty() {
        return Ok(());
    }
    out.push(b' ')?;
    out.extend_from_slice(word)
}
