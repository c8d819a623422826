//! The variables of a script, and those of its theory.
ghost use Rattle.std.specs.Prelude.{◌≡◌, [], IfOk, OnOk};
ghost use Rattle.circ_lexer.specs.TokenList.{tokens_in, IsWithin};
ghost use Rattle.circ_theory.specs.Names.{AreDifferent, names_of};
ghost use Rattle.circ_mixfix.specs.Answers.{declared_by};
ghost use Rattle.circ_statement.specs.Said.{token_at, IsPlace};
ghost use Rattle.circ_read.specs.Includes.{with_variables};
ghost use Rattle.circ_read.specs.Outcomes.{variable_added, all_added, sort_named, followed_by};
ghost use Rattle.circ_read.specs.Steps.{StepAnswers};
ghost use Rattle.circ_script.specs.Steps.{IsButVariables};

use circ_form::Text;
use circ_lexer::{Span, Tokens};
use circ_read::{Fault, done, sort_named, word};
use circ_theory::{Theory, TheoryFault, Vars};
use std::alloc::{AllocError, Global};

// Declares the variables of an item.
pub(crate) fn add_variables(
    theory: &mut Theory,
    tokens: &Tokens<'_>,
    names: Span,
    sort: usize,
) -> Result<(), Fault>
    requires names { IsWithin tokens.now names }
    requires sort { IsPlace tokens.now sort }
    ensures outcome { StepAnswers result theory.new (λ r. r ≡
        followed_by (sort_named theory.old (token_at tokens.now sort))
        (λ s. all_added (variable_added s) theory.old (tokens_in tokens.now names))) }
    ensures kept { IsButVariables theory.old theory.new }
{
    match sort_named(theory, word(tokens, sort)) {
        Ok(sort) => add_all(theory, tokens, names, sort),
        Err(fault) => Err(fault),
    }
}

fn add_all(theory: &mut Theory, tokens: &Tokens<'_>, names: Span, sort: u32) -> Result<(), Fault>
    requires { IsWithin tokens.now names }
    ensures outcome { StepAnswers result theory.new (λ r. r ≡
        all_added (variable_added sort) theory.old (tokens_in tokens.now names)) }
    ensures kept { IsButVariables theory.old theory.new }
{
    for n in names.from..names.to {
        match add_variable(theory, word(tokens, n), sort) {
            Ok(()) => {}
            Err(fault) => return Err(fault),
        }
    }
    Ok(())
}

fn add_variable(theory: &mut Theory, name: &[u8], sort: u32) -> Result<(), Fault>
    ensures outcome { StepAnswers result theory.new
        (λ r. r ≡ variable_added sort theory.old name.now) }
    ensures kept { IsButVariables theory.old theory.new }
{
    done(theory.add_var(name, sort))
}

// Sets the theory's variables aside and declares copies of them, so that more can be declared and
// the first ones be put back.
pub(crate) fn declare_copies(alloc: Global, theory: &mut Theory) -> Result<Vars, AllocError>
    ensures vars { IfOk result (λ vs. vs ≡ theory.old.variables) }
    ensures same { theory.new ≡ theory.old }
{
    theory.known();
    theory.known_names();
    let copies = copies(alloc, theory)?;
    let vars = theory.take_vars();
    match declare(theory, copies.as_slice()) {
        Ok(()) => Ok(vars),
        Err(_) => {
            theory.put_vars(vars);
            Err(AllocError)
        }
    }
}

// The names and sorts of the theory's variables.
fn copies(alloc: Global, theory: &Theory) -> Result<Vec<(Text, u32)>, AllocError>
    ensures { IfOk result (λ v. declared_by v.items ≡ theory.now.variables) }
{
    let mut copies = Vec::new(alloc);
    for n in 0..theory.var_count() {
        match theory.var(n) {
            Some((name, sort)) => copies.push((Text::of(alloc, name)?, sort))?,
            None => unreachable!(),
        }
    }
    Ok(copies)
}

// Declares variables of different names.
fn declare(theory: &mut Theory, variables: &[(Text, u32)]) -> Result<(), TheoryFault>
    requires none { theory.old.variables ≡ [] }
    requires different { AreDifferent (names_of (declared_by variables.now)) }
    ensures declared { OnOk result
        (theory.new ≡ with_variables theory.old (declared_by variables.now)) }
    ensures kept { IsButVariables theory.old theory.new }
{
    for variable in variables {
        theory.add_var(variable.0.bytes(), variable.1)?;
    }
    Ok(())
}
