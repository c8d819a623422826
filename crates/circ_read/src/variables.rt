//! `var` and `vars`.
ghost use Rattle.std.specs.Prelude.{◌≡◌};
ghost use Rattle.circ_lexer.specs.TokenList.{tokens_in, IsWithin};
ghost use Rattle.circ_statement.specs.Said.{token_at, IsPlace};
ghost use Rattle.circ_read.specs.Outcomes.{variable_added, all_added, sort_named, followed_by};
ghost use Rattle.circ_read.specs.Steps.{StepAnswers};

use crate::cause::{Fault, done};
use crate::names::{sort_named, word};
use circ_lexer::{Span, Tokens};
use circ_theory::Theory;

pub(crate) fn add_variables(
    theory: &mut Theory,
    tokens: &Tokens<'_>,
    names: Span,
    sort: usize,
) -> Result<(), Fault>
    requires names { IsWithin tokens.now names }
    requires sort { IsPlace tokens.now sort }
    ensures { StepAnswers result theory.new (λ r. r ≡
        followed_by (sort_named theory.old (token_at tokens.now sort))
        (λ s. all_added (variable_added s) theory.old (tokens_in tokens.now names))) }
{
    match sort_named(theory, word(tokens, sort)) {
        Ok(sort) => add_all(theory, tokens, names, sort),
        Err(fault) => Err(fault),
    }
}

fn add_all(theory: &mut Theory, tokens: &Tokens<'_>, names: Span, sort: u32) -> Result<(), Fault>
    requires { IsWithin tokens.now names }
    ensures { StepAnswers result theory.new (λ r. r ≡
        all_added (variable_added sort) theory.old (tokens_in tokens.now names)) }
{
    for n in names.from..names.to {
        match add_variable(theory, word(tokens, n), sort) {
            Ok(()) => {}
            Err(fault) => return Err(fault),
        }
    }
    Ok(())
}

fn add_variable(theory: &mut Theory, name: &[u8], sort: u32) -> Result<(), Fault>
    ensures { StepAnswers result theory.new (λ r. r ≡ variable_added sort theory.old name.now) }
{
    done(theory.add_var(name, sort))
}
