//! `op` and `ops`.
ghost use Rattle.std.specs.Prelude.{◌≡◌, map, IfOk};
ghost use Rattle.circ_lexer.specs.TokenList.{tokens_in, IsWithin};
ghost use Rattle.circ_theory.specs.Operators.{operator_of};
ghost use Rattle.circ_statement.specs.Said.{token_at, IsPlace, spelled_of};
ghost use Rattle.circ_read.specs.Adding.{operator_with};
ghost use Rattle.circ_read.specs.Outcomes.{operator_added, all_added, sort_named, sorts_named};
ghost use Rattle.circ_read.specs.Outcomes.{followed_by};
ghost use Rattle.circ_read.specs.Steps.{StepAnswers};

use crate::cause::{Fault, done};
use crate::names::{sort_named, sorts_named, word};
use circ_lexer::{Span, Tokens};
use circ_statement::Spelling;
use circ_theory::{OpDecl, Theory};
use std::alloc::{AllocError, Global};

// The marks of an operator.
#[derive(Clone, Copy)]
pub(crate) struct Marks {
    pub(crate) assoc: bool,
    pub(crate) comm: bool,
    pub(crate) idem: bool,
}

// What the operators of one statement share.
#[derive(Drop)]
struct Rank {
    args: Vec<u32>,
    result: u32,
    marks: Marks,
}

pub(crate) fn add_operators(
    alloc: Global,
    theory: &mut Theory,
    tokens: &Tokens<'_>,
    forms: Vec<Spelling>,
    args: Span,
    result_sort: usize,
    marks: Marks,
) -> Result<(), Fault>
    requires args { IsWithin tokens.now args }
    requires result_sort { IsPlace tokens.now result_sort }
    ensures { StepAnswers result theory.new (λ r. r ≡
        followed_by (sorts_named theory.old (tokens_in tokens.now args))
        (λ ss. followed_by (sort_named theory.old (token_at tokens.now result_sort))
        (λ s. all_added (operator_added ss s marks.assoc marks.comm marks.idem) theory.old
        (map spelled_of forms.items)))) }
{
    let args = match sorts_named(alloc, theory, tokens, args) {
        Ok(args) => args,
        Err(fault) => return Err(fault),
    };
    match sort_named(theory, word(tokens, result_sort)) {
        Ok(result) => add_all(
            alloc,
            theory,
            forms,
            &Rank {
                args,
                result,
                marks,
            },
        ),
        Err(fault) => Err(fault),
    }
}

fn add_all(
    alloc: Global,
    theory: &mut Theory,
    forms: Vec<Spelling>,
    rank: &Rank,
) -> Result<(), Fault>
    ensures { StepAnswers result theory.new (λ r. r ≡
        all_added (operator_added rank.now.args.items rank.now.result
        rank.now.marks.assoc rank.now.marks.comm rank.now.marks.idem)
        theory.old (map spelled_of forms.items)) }
{
    for form in forms {
        match add_operator(alloc, theory, form, rank) {
            Ok(()) => {}
            Err(fault) => return Err(fault),
        }
    }
    Ok(())
}

fn add_operator(
    alloc: Global,
    theory: &mut Theory,
    form: Spelling,
    rank: &Rank,
) -> Result<(), Fault>
    ensures { StepAnswers result theory.new (λ r. r ≡
        operator_added rank.now.args.items rank.now.result
        rank.now.marks.assoc rank.now.marks.comm rank.now.marks.idem
        theory.old (spelled_of form)) }
{
    let decl = declaration(alloc, form, rank)?;
    done(theory.add_op(decl))
}

fn declaration(alloc: Global, form: Spelling, rank: &Rank) -> Result<OpDecl, AllocError>
    ensures { IfOk result (λ d. operator_of d ≡
        operator_with rank.now.args.items rank.now.result
        rank.now.marks.assoc rank.now.marks.comm rank.now.marks.idem (spelled_of form)) }
{
    Ok(OpDecl {
        form: form.form,
        args: Vec::from_slice(alloc, rank.args.as_slice())?,
        result: rank.result,
        prec: form.prec,
        side: form.side,
        assoc: rank.marks.assoc,
        comm: rank.marks.comm,
        idem: rank.marks.idem,
    })
}
