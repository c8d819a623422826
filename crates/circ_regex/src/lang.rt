//! The theory LANG, made part by part.
ghost use Rattle.std.specs.Prelude.{◌≡◌, ◌∷◌, List, [], Some, map, OnOk, IfOk};
ghost use Rattle.circ_term.specs.Tree.{Tree};
ghost use Rattle.circ_theory.specs.Adding.{with_op, with_equation};
ghost use Rattle.circ_theory.specs.Observing.{with_derivative};
ghost use Rattle.circ_regex.specs.Lang.{LANG, on_term, lang_var, rule_with};
ghost use Rattle.circ_regex.specs.Making.{row_operator, coded_terms, with_ops, with_rules};
ghost use Rattle.circ_regex.specs.Making.{with_lang_sorts, with_lang_ops, with_lang_observers};
ghost use Rattle.circ_regex.specs.Making.{with_lang_equations, with_lang_parts};

use crate::terms::{OpRow, terms};
use circ_form::Form;
use circ_term::Term;
use circ_theory::{OpDecl, Pairs, Side, Theory, TheoryFault, in_order, parameters_in_order};
use std::alloc::{AllocError, Global};

// The operators, in order.
const OPS: [OpRow; 15] = [
    OpRow {
        op: 0,
        code: b'0',
        form: b"0",
        args: &[],
        result: 0,
        prec: 0,
        side: Side::Neither,
        marked: false,
    },
    OpRow {
        op: 1,
        code: b'1',
        form: b"1",
        args: &[],
        result: 0,
        prec: 0,
        side: Side::Neither,
        marked: false,
    },
    OpRow {
        op: 2,
        code: b'|',
        form: b"_or_",
        args: &[0, 0],
        result: 0,
        prec: 43,
        side: Side::Neither,
        marked: false,
    },
    OpRow {
        op: 3,
        code: b'&',
        form: b"_and_",
        args: &[0, 0],
        result: 0,
        prec: 42,
        side: Side::Neither,
        marked: false,
    },
    OpRow {
        op: 4,
        code: b'?',
        form: b"acc",
        args: &[1],
        result: 0,
        prec: 0,
        side: Side::Neither,
        marked: false,
    },
    OpRow {
        op: 5,
        code: b'd',
        form: b"da",
        args: &[1],
        result: 1,
        prec: 0,
        side: Side::Neither,
        marked: false,
    },
    OpRow {
        op: 6,
        code: b'D',
        form: b"db",
        args: &[1],
        result: 1,
        prec: 0,
        side: Side::Neither,
        marked: false,
    },
    OpRow {
        op: 7,
        code: b'e',
        form: b"empty",
        args: &[],
        result: 1,
        prec: 0,
        side: Side::Neither,
        marked: false,
    },
    OpRow {
        op: 8,
        code: b'n',
        form: b"eps",
        args: &[],
        result: 1,
        prec: 0,
        side: Side::Neither,
        marked: false,
    },
    OpRow {
        op: 9,
        code: b'a',
        form: b"a",
        args: &[],
        result: 1,
        prec: 0,
        side: Side::Neither,
        marked: false,
    },
    OpRow {
        op: 10,
        code: b'b',
        form: b"b",
        args: &[],
        result: 1,
        prec: 0,
        side: Side::Neither,
        marked: false,
    },
    OpRow {
        op: 11,
        code: b'*',
        form: b"_*",
        args: &[1],
        result: 1,
        prec: 31,
        side: Side::Neither,
        marked: false,
    },
    OpRow {
        op: 12,
        code: b';',
        form: b"_;_",
        args: &[1, 1],
        result: 1,
        prec: 33,
        side: Side::Right,
        marked: false,
    },
    OpRow {
        op: 13,
        code: b'+',
        form: b"_+_",
        args: &[1, 1],
        result: 1,
        prec: 35,
        side: Side::Right,
        marked: true,
    },
    OpRow {
        op: 14,
        code: b'w',
        form: b"when",
        args: &[0, 1],
        result: 1,
        prec: 0,
        side: Side::Neither,
        marked: false,
    },
];

// The sides of the equations, one after another: eight equations on bits, eight on units, and eight
// each on acc, da and db.
const BIT_SIDES: &[u8] = b"|0xx|1x1|x0x|x11&0x0&1xx&x00&x1x";

const UNIT_SIDES: &[u8] = b"+err+rer;ere;ree;nrr;rnrw0rew1rr";

const ACC_SIDES: &[u8] = b"?e0?n1?a0?b0?+rs|?r?s?;rs&?r?s?*r1?wxs&x?s";

const DA_SIDES: &[u8] = b"deednedandbed+rs+drdsd;rs+;drsw?rdsd*r;dr*rdwxswxds";

const DB_SIDES: &[u8] = b"DeeDneDaeDbnD+rs+DrDsD;rs+;Drsw?rDsD*r;Dr*rDwxswxDs";

/// The theory LANG. It fails only if it runs out of memory.
pub fn lang_theory(alloc: Global) -> Result<Theory, AllocError>
    ensures { IfOk result (λ th. th ≡ LANG) }
{
    let mut theory = Theory::new(alloc, b"LANG")?;
    match add_parts(alloc, &mut theory) {
        Ok(()) => Ok(theory),
        Err(_) => Err(AllocError),
    }
}

// The parts fit, so that it fails only if it runs out of memory.
fn add_parts(alloc: Global, theory: &mut Theory) -> Result<(), TheoryFault>
    ensures { OnOk result (theory.new ≡ with_lang_parts theory.old) }
{
    add_sorts(theory)?;
    add_lang_ops(alloc, theory)?;
    add_observers(alloc, theory)?;
    add_lang_equations(alloc, theory)?;
    Ok(())
}

fn add_sorts(theory: &mut Theory) -> Result<(), TheoryFault>
    ensures { OnOk result (theory.new ≡ with_lang_sorts theory.old) }
{
    theory.add_sort(b"Bit")?;
    theory.add_sort(b"Lang")?;
    theory.add_var(b"X", 0)?;
    theory.add_var(b"R", 1)?;
    theory.add_var(b"S", 1)?;
    Ok(())
}

fn add_lang_ops(alloc: Global, theory: &mut Theory) -> Result<(), TheoryFault>
    ensures { OnOk result (theory.new ≡ with_lang_ops theory.old) }
{
    add_ops(alloc, theory, &OPS)
}

fn add_ops(alloc: Global, theory: &mut Theory, rows: &[OpRow]) -> Result<(), TheoryFault>
    ensures { OnOk result (theory.new ≡ with_ops theory.old (map row_operator rows.now)) }
{
    for row in rows {
        add_op(alloc, theory, row)?;
    }
    Ok(())
}

fn add_op(alloc: Global, theory: &mut Theory, row: &OpRow) -> Result<(), TheoryFault>
    ensures { OnOk result (theory.new ≡ with_op theory.old (row_operator row.now)) }
{
    let args = row.args.to_vec(alloc)?;
    match Form::read(alloc, row.form) {
        Ok(form) => {
            theory.add_op(OpDecl {
                form,
                args,
                result: row.result,
                prec: row.prec,
                side: row.side,
                assoc: row.marked,
                comm: row.marked,
                idem: row.marked,
            })?;
            Ok(())
        }
        Err(_) => Err(TheoryFault::Memory),
    }
}

fn add_observers(alloc: Global, theory: &mut Theory) -> Result<(), TheoryFault>
    ensures { OnOk result (theory.new ≡ with_lang_observers theory.old) }
{
    add_derivative(alloc, theory, 4, 0)?;
    add_derivative(alloc, theory, 5, 1)?;
    add_derivative(alloc, theory, 6, 1)?;
    theory.add_cases(0, vec![in alloc; 0, 1]?)?;
    Ok(())
}

// Adds the derivative that is an operator on the hole.
fn add_derivative(alloc: Global, theory: &mut Theory, op: u32, sort: u32) -> Result<(), TheoryFault>
    ensures { OnOk result (theory.new ≡
        with_derivative theory.old (on_term op sort (lang_var 0))) }
{
    let mut args = Vec::new(alloc);
    args.push(Term::var(0, 1))?;
    match Term::app(alloc, op, sort, args) {
        Ok(term) => add_body(alloc, theory, term),
        Err(_) => Err(TheoryFault::Memory),
    }
}

fn add_body(alloc: Global, theory: &mut Theory, term: Term) -> Result<(), TheoryFault>
    ensures { OnOk result (theory.new ≡ with_derivative theory.old term) }
{
    if !theory.well_sorted(&term) {
        return Err(TheoryFault::Memory);
    }
    if !parameters_in_order(alloc, &term)? {
        return Err(TheoryFault::Memory);
    }
    theory.add_derivative(term)?;
    Ok(())
}

fn add_lang_equations(alloc: Global, theory: &mut Theory) -> Result<(), TheoryFault>
    ensures { OnOk result (theory.new ≡ with_lang_equations theory.old) }
{
    add_equations(alloc, theory, &OPS, BIT_SIDES)?;
    add_equations(alloc, theory, &OPS, UNIT_SIDES)?;
    add_equations(alloc, theory, &OPS, ACC_SIDES)?;
    add_equations(alloc, theory, &OPS, DA_SIDES)?;
    add_equations(alloc, theory, &OPS, DB_SIDES)?;
    Ok(())
}

// Adds the equations whose sides a text gives.
fn add_equations(
    alloc: Global,
    theory: &mut Theory,
    rows: &[OpRow],
    text: &[u8],
) -> Result<(), TheoryFault>
    ensures { OnOk result ((ts : List Tree) → coded_terms rows.now text.now ≡ Some ts →
        theory.new ≡ with_rules theory.old ts) }
{
    let mut sides = terms(alloc, rows, text)?;
    while let Some(left) = sides.pop() {
        let Some(right) = sides.pop() else {
            return Err(TheoryFault::Memory);
        };
        add_equation(alloc, theory, left, right)?;
    }
    Ok(())
}

fn add_equation(
    alloc: Global,
    theory: &mut Theory,
    left: Term,
    right: Term,
) -> Result<(), TheoryFault>
    ensures { OnOk result (theory.new ≡ with_equation theory.old (rule_with left right)) }
{
    let conds = Pairs::new(alloc);
    if !theory.well_sorted(&left) || !theory.well_sorted(&right) || left.sort() != right.sort() {
        return Err(TheoryFault::Memory);
    }
    if !in_order(alloc, &left, &right, &conds)? {
        return Err(TheoryFault::Memory);
    }
    theory.add_equation(left, right, conds, true)?;
    Ok(())
}
